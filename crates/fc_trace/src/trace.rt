//! Entries and a whole history, in trace form.

ghost use Rattle.std.specs.Prelude.{◌<◌, ◌≤◌, length, drop, is_err, slice_get, IfSome};
ghost use Rattle.std.specs.List.{flat_map};
ghost use Rattle.std.specs.Option.{ForSome};
ghost use Rattle.fc_entry.specs.Text.{HasNames};
ghost use Rattle.fc_entry.specs.Written.{Written};
ghost use Rattle.fc_trace.specs.Trace.{trace_text, traced_text};

use crate::header::{LaneDisks, put_header};
use crate::notes::put_notes;
use fc_base::outcome::Failed;
use fc_base::size::GrainSize;
use fc_entry::history::History;
use fc_entry::parts::put_text;
use fc_entry::reply_text::put_reply_rows;
use fc_entry::text::put_line;
use fc_io::sink::Sink;

/// Puts the entry with this number in trace form: its line, what it did, the rows of its report, and a line `.`. Its actor
/// needs a name. Takes no memory. Failed, a front of the text was added, and the sink's count of faults rose in this call or
/// stands at its last value.
pub fn put_traced<K: Sink>(history: &History, index: usize, sink: &mut K) -> Result<(), Failed>
    requires within { index < length history.now.entries }
    requires named { ForSome (slice_get history.now.entries index) (λ entry. entry.actor < length history.now.actors) }
    ensures { IfSome (slice_get history.now.entries index) (λ entry.
        Written (K.meaning sink.old) (traced_text history.now.actors entry) (is_err result) (K.meaning sink.new)) }
{
    let entry = history.entry(index);
    put_line(history, index, sink)?;
    put_notes(entry, sink)?;
    put_reply_rows(&entry.reply, sink)?;
    put_text(sink, b".\n")
}

/// Puts the entries from number `from` on in trace form, in order. Each actor needs a name. Takes no memory. Failed, a front
/// of these texts was added, and the sink's count of faults rose in this call or stands at its last value.
pub fn put_all_traced<K: Sink>(history: &History, from: usize, sink: &mut K) -> Result<(), Failed>
    requires within { from ≤ length history.now.entries }
    requires named { HasNames history.now }
    ensures { Written (K.meaning sink.old) (flat_map (traced_text history.now.actors) (drop from history.now.entries))
        (is_err result) (K.meaning sink.new) }
{
    for index in from..history.len() {
        match put_traced(history, index, sink) {
            Ok(()) => {}
            Err(failed) => return Err(failed),
        }
    }
    Ok(())
}

/// Puts a whole history in trace form: the line that says what its store was made of, and all entries, in order. Each actor
/// needs a name. Takes no memory. Failed, a front of the whole text was added, and the sink's count of faults rose in this
/// call or stands at its last value.
pub fn put_trace<K: Sink>(
    grain: GrainSize,
    lanes: &[LaneDisks],
    history: &History,
    sink: &mut K,
) -> Result<(), Failed>
    requires { HasNames history.now }
    ensures { Written (K.meaning sink.old) (trace_text grain lanes.now history.now) (is_err result) (K.meaning sink.new) }
{
    put_header(grain, lanes, sink)?;
    put_all_traced(history, 0, sink)
}
