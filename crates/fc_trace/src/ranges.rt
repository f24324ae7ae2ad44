//! Ranges of grains.

ghost use Rattle.std.specs.Prelude.{◌++◌, codes, is_err};
ghost use Rattle.std.specs.List.{flat_map};
ghost use Rattle.fc_entry.specs.Written.{Written};
ghost use Rattle.fc_trace.specs.Notes.{kept_text, range_text};

use fc_base::outcome::Failed;
use fc_base::ranges::Range;
use fc_entry::parts::{put_all, put_text};
use fc_io::sink::Sink;
use itoa::Buffer;

/// Puts a text, and a range behind it.
fn put_range<K: Sink>(text: &[u8], range: Range, sink: &mut K) -> Result<(), Failed>
    ensures { Written (K.meaning sink.old) (text.now ++ range_text range) (is_err result) (K.meaning sink.new) }
{
    let mut first = Buffer::new();
    if range.first == range.last {
        return put_all(sink, &[text, first.format(range.first).as_bytes()]);
    }
    let mut last = Buffer::new();
    put_all(
        sink,
        &[
            text,
            first.format(range.first).as_bytes(),
            b"-",
            last.format(range.last).as_bytes(),
        ],
    )
}

/// Puts ranges, each behind a comma.
fn put_next_ranges<K: Sink>(ranges: &[Range], sink: &mut K) -> Result<(), Failed>
    ensures { Written (K.meaning sink.old) (flat_map (λ range. codes "," ++ range_text range) ranges.now) (is_err result)
        (K.meaning sink.new) }
{
    for range in ranges {
        match put_range(b",", *range, sink) {
            Ok(()) => {}
            Err(failed) => return Err(failed),
        }
    }
    Ok(())
}

/// Puts the grains that a volume keeps, or that it keeps none.
pub(crate) fn put_kept<K: Sink>(kept: &[Range], sink: &mut K) -> Result<(), Failed>
    ensures { Written (K.meaning sink.old) (kept_text kept.now) (is_err result) (K.meaning sink.new) }
{
    match kept {
        [] => put_text(sink, b"none"),
        [first, next @ ..] => {
            put_range(b"", *first, sink)?;
            put_next_ranges(next, sink)
        }
    }
}
