//! The texts of replies.

ghost use Rattle.std.specs.Prelude.{◌≡◌, ◌++◌, codes, decimal, is_err, length, map};
ghost use Rattle.std.specs.List.{flat_map, join_with_byte};
ghost use Rattle.fc_entry.specs.Text.{made_text, refusal_text, reply_text, rows_text, run_text, state_text};
ghost use Rattle.fc_entry.specs.Written.{Written};

use crate::parts::{byte_digits, put_all, put_number, put_numbers, put_text, put_word};
use crate::phrase::put_phrase;
use crate::refusal_text::{refusal_phrase, state_word};
use fc_base::fault::{Kind, Refusal};
use fc_base::ids::MapId;
use fc_base::list::List;
use fc_base::outcome::Failed;
use fc_base::request::Reply;
use fc_base::runs::Run;
use fc_base::state::MapState;
use fc_io::sink::Sink;
use itoa::Buffer;

/// An object, as the reply that tells of its making names it.
fn made_words(kind: Kind) -> &'static [u8]
    ensures { result.now ≡ made_text kind }
{
    match kind {
        Kind::Vdisk => b"Virtual Disk",
        Kind::Fcmap => b"FlashCopy Mapping",
        Kind::Group => b"FlashCopy Consistency Group",
    }
}

/// Puts that an object was made.
fn put_made<K: Sink>(kind: Kind, id: u32, sink: &mut K) -> Result<(), Failed>
    ensures { Written (K.meaning sink.old) (made_text kind ++ codes ", id [" ++ decimal id ++ codes "], successfully created")
        (is_err result) (K.meaning sink.new) }
{
    let mut digits = Buffer::new();
    put_all(
        sink,
        &[
            made_words(kind),
            b", id [",
            digits.format(id).as_bytes(),
            b"], successfully created",
        ],
    )
}

/// Puts that a volume is offline, by a mapping in this state.
fn put_offline<K: Sink>(map: MapId, state: MapState, sink: &mut K) -> Result<(), Failed>
    ensures { Written (K.meaning sink.old) (codes "offline " ++ decimal map.0 ++ codes " " ++ state_text state)
        (is_err result) (K.meaning sink.new) }
{
    let mut digits = Buffer::new();
    put_all(
        sink,
        &[
            b"offline ",
            digits.format(map.0).as_bytes(),
            b" ",
            state_word(state),
        ],
    )
}

/// Puts a text, and a run of equal bytes behind it.
fn put_run<K: Sink>(text: &[u8], run: Run, sink: &mut K) -> Result<(), Failed>
    ensures { Written (K.meaning sink.old) (text.now ++ run_text run) (is_err result) (K.meaning sink.new) }
{
    let mut digits = Buffer::new();
    let byte = byte_digits(run.byte);
    put_all(
        sink,
        &[text, digits.format(run.count).as_bytes(), b"*", &byte],
    )
}

/// Puts runs, each behind a comma.
fn put_next_runs<K: Sink>(runs: &[Run], sink: &mut K) -> Result<(), Failed>
    ensures { Written (K.meaning sink.old) (flat_map (λ run. codes "," ++ run_text run) runs.now) (is_err result)
        (K.meaning sink.new) }
{
    for run in runs {
        match put_run(b",", *run, sink) {
            Ok(()) => {}
            Err(failed) => return Err(failed),
        }
    }
    Ok(())
}

/// Puts the bytes that were read.
fn put_bytes<K: Sink>(runs: &[Run], sink: &mut K) -> Result<(), Failed>
    ensures { Written (K.meaning sink.old) (codes "data " ++ join_with_byte 44 (map run_text runs.now)) (is_err result)
        (K.meaning sink.new) }
{
    match runs {
        [] => put_text(sink, b"data "),
        [first, next @ ..] => {
            put_run(b"data ", *first, sink)?;
            put_next_runs(next, sink)
        }
    }
}

/// Puts how many rows a report has.
fn put_row_count<K: Sink>(rows: &[List<u8>], sink: &mut K) -> Result<(), Failed>
    ensures { Written (K.meaning sink.old) (codes "rows " ++ decimal (length rows.now)) (is_err result) (K.meaning sink.new) }
{
    let mut digits = Buffer::new();
    put_word(sink, b"rows ", digits.format(rows.len()).as_bytes())
}

/// Puts that a command was refused, and why.
fn put_refused<K: Sink>(refusal: &Refusal, sink: &mut K) -> Result<(), Failed>
    ensures { Written (K.meaning sink.old) (codes "refused " ++ refusal_text refusal.now) (is_err result) (K.meaning sink.new) }
{
    put_text(sink, b"refused ")?;
    put_phrase(refusal_phrase(refusal), sink)
}

/// Puts what was answered, as it stands in the entry's line. Failed, a front of it was added.
pub fn put_reply<K: Sink>(reply: &Reply, sink: &mut K) -> Result<(), Failed>
    ensures { Written (K.meaning sink.old) (reply_text reply.now) (is_err result) (K.meaning sink.new) }
{
    match reply {
        Reply::Done => put_text(sink, b"ok"),
        Reply::Made { kind, id } => put_made(*kind, *id, sink),
        Reply::Bytes(runs) => put_bytes(runs.as_slice(), sink),
        Reply::Listed(rows) => put_row_count(rows.as_slice(), sink),
        Reply::Moved { map, grain } => put_numbers(sink, b"moved ", map.0, grain.0),
        Reply::Idle => put_text(sink, b"idle"),
        Reply::Offline { map, state } => put_offline(*map, *state, sink),
        Reply::NotAccessible { map } => put_number(sink, b"not accessible ", map.0),
        Reply::DiskFault => put_text(sink, b"disk fault"),
        Reply::MediumError => put_text(sink, b"medium error"),
        Reply::NoMemory => put_text(sink, b"no memory"),
        Reply::Refused(refusal) => put_refused(refusal, sink),
    }
}

/// Puts the rows of a report, a line each.
fn put_rows<K: Sink>(rows: &[List<u8>], sink: &mut K) -> Result<(), Failed>
    ensures { Written (K.meaning sink.old) (flat_map (λ row. row ++ codes "\n") rows.now) (is_err result) (K.meaning sink.new) }
{
    for row in rows {
        match put_word(sink, row.as_slice(), b"\n") {
            Ok(()) => {}
            Err(failed) => return Err(failed),
        }
    }
    Ok(())
}

/// Puts the rows of a reply, a line each: those of a report, or none. Failed, a front of them was added.
pub fn put_reply_rows<K: Sink>(reply: &Reply, sink: &mut K) -> Result<(), Failed>
    ensures { Written (K.meaning sink.old) (rows_text reply.now) (is_err result) (K.meaning sink.new) }
{
    match reply {
        Reply::Listed(rows) => put_rows(rows.as_slice(), sink),
        _ => Ok(()),
    }
}
