//! The line of a reply.

ghost use Rattle.std.specs.Prelude.{◌≡◌, ◌≤◌, length, take, codes, true, IfErr, IfOk};
ghost use Rattle.fc_reading.specs.Pieces.{Reads};
ghost use Rattle.fc_reading.specs.Readers.{map_read, one_of_at, then_read};
ghost use Rattle.fc_reading.specs.Stops.{StopsAt};
ghost use Rattle.fc_reading_notes.specs.Answers.{ReadsOr};
ghost use Rattle.fc_reading_notes.specs.Lines.{id_at, state_at};
ghost use Rattle.fc_reading_notes.specs.Told.{IfMalformed};
ghost use Rattle.fc_reading_replies.specs.Begun.{twice_numbered};
ghost use Rattle.fc_reading_replies.specs.Replies.{IsReplyLine, MayBeSaid, made_of, moved_of, not_accessible, offline_of, refused_at, reply_at, reply_behind, reply_line, reply_of, reply_words};

use crate::data::take_data;
use crate::refusals::{kind_of, take_refusal, take_two};
use fc_base::fault::Refusal;
use fc_base::ids::{GrainNo, MapId};
use fc_base::request::Reply;
use fc_reading::pieces::{Malformed, one_of, word};
use fc_reading_notes::lines::{take_count, take_id, take_state};
use fc_reading_notes::notes::NotTold;
use fc_reading_notes::stop::ReadStop;
use std::alloc::Global;

/// All that the line of a reply says.
#[derive(Drop)]
pub enum ReplyLine {
    /// The whole reply.
    Whole(Reply),
    /// A report of so many rows, which stand elsewhere.
    Rows(u64),
}

/// The reply with this number among those that say nothing more.
fn reply_of(number: usize) -> Reply
    ensures { result ≡ reply_of number }
{
    match number {
        0 => Reply::Done,
        1 => Reply::Idle,
        2 => Reply::DiskFault,
        3 => Reply::MediumError,
        _ => Reply::NoMemory,
    }
}

/// Takes the whole line of a reply, or the words that begin it, by their number. Those of a refusal only where
/// it may be one.
fn take_words(refusable: bool, bytes: &[u8]) -> Result<(usize, &[u8]), Malformed>
    ensures { Reads (λ found. (found.0, found.1.now)) result (one_of_at (reply_words refusable) bytes.now) }
{
    let words: [&[u8]; 14] = [
        b"ok\n",
        b"idle\n",
        b"disk fault\n",
        b"medium error\n",
        b"no memory\n",
        b"Virtual Disk, id [",
        b"FlashCopy Mapping, id [",
        b"FlashCopy Consistency Group, id [",
        b"moved ",
        b"offline ",
        b"not accessible ",
        b"rows ",
        b"data ",
        b"refused ",
    ];
    if refusable {
        one_of(&words, bytes)
    } else {
        one_of(&words[..13], bytes)
    }
}

/// Takes the id of an object that was made, and the end of its line.
fn take_made(number: usize, bytes: &[u8]) -> Result<(ReplyLine, &[u8]), ReadStop>
    ensures { ReadsOr (λ found. (found.0, found.1.now)) result (map_read (made_of number) (id_at (codes "], successfully created\n")) bytes.now) }
{
    let kind = kind_of(number);
    let (id, rest) = take_id(b"], successfully created\n", bytes)?;
    Ok((ReplyLine::Whole(Reply::Made { kind, id }), rest))
}

/// Takes the mapping and the grain of a copy or a cleaning, and the end of their line.
fn take_moved(bytes: &[u8]) -> Result<(ReplyLine, &[u8]), ReadStop>
    ensures { ReadsOr (λ found. (found.0, found.1.now)) result (twice_numbered moved_of bytes.now) }
{
    let (map, grain, rest) = take_two(bytes)?;
    let map = MapId(map);
    let grain = GrainNo(grain);
    Ok((ReplyLine::Whole(Reply::Moved { map, grain }), rest))
}

/// Takes the mapping by which a volume is offline, its state, and the end of their line.
fn take_offline(bytes: &[u8]) -> Result<(ReplyLine, &[u8]), ReadStop>
    ensures { ReadsOr (λ found. (found.0, found.1.now)) result (map_read offline_of (then_read (id_at (codes " ")) (λ map. state_at)) bytes.now) }
{
    let (map, rest) = take_id(b" ", bytes)?;
    let (state, rest) = take_state(rest)?;
    let map = MapId(map);
    Ok((ReplyLine::Whole(Reply::Offline { map, state }), rest))
}

/// Takes the mapping whose target isn't accessible, and the end of its line.
fn take_not_accessible(bytes: &[u8]) -> Result<(ReplyLine, &[u8]), ReadStop>
    ensures { ReadsOr (λ found. (found.0, found.1.now)) result (map_read not_accessible (id_at (codes "\n")) bytes.now) }
{
    let (map, rest) = take_id(b"\n", bytes)?;
    let map = MapId(map);
    Ok((ReplyLine::Whole(Reply::NotAccessible { map }), rest))
}

/// Takes what stands behind the words that begin the line of a reply, which are told by their number.
fn take_behind(alloc: Global, words: usize, bytes: &[u8]) -> Result<(ReplyLine, &[u8]), ReadStop>
    ensures { ReadsOr (λ found. (found.0, found.1.now)) result (reply_behind words bytes.now) }
{
    if words < 5 {
        return Ok((ReplyLine::Whole(reply_of(words)), bytes));
    }
    if words < 8 {
        return take_made(words - 5, bytes);
    }
    match words {
        8 => take_moved(bytes),
        9 => take_offline(bytes),
        10 => take_not_accessible(bytes),
        11 => {
            let (rows, rest) = take_count(b"\n", bytes)?;
            Ok((ReplyLine::Rows(rows), rest))
        }
        12 => match take_data(alloc, bytes) {
            Ok((runs, rest)) => Ok((ReplyLine::Whole(Reply::Bytes(runs)), rest)),
            Err(stop) => Err(stop),
        },
        _ => match take_refusal(alloc, bytes) {
            Ok((refusal, rest)) => Ok((ReplyLine::Whole(Reply::Refused(refusal)), rest)),
            Err(stop) => Err(stop),
        },
    }
}

/// Takes the line of a reply of anything but a line with a fault in its words; one of a refusal only where it
/// may be one.
pub fn take_reply(
    alloc: Global,
    refusable: bool,
    bytes: &[u8],
) -> Result<(ReplyLine, &[u8]), ReadStop>
    ensures { ReadsOr (λ found. (found.0, found.1.now)) result (reply_at refusable bytes.now) }
{
    let (words, rest) = take_words(refusable, bytes)?;
    take_behind(alloc, words, rest)
}

/// Takes the line of a refusal, of anything but a line with a fault in its words.
pub fn take_refused(alloc: Global, bytes: &[u8]) -> Result<(Refusal, &[u8]), ReadStop>
    ensures { ReadsOr (λ found. (found.0, found.1.now)) result (refused_at bytes.now) }
{
    let rest = word(b"refused ", bytes)?;
    take_refusal(alloc, rest)
}

/// Reads from the front of the bytes the line of a reply, behind the arrow and up to its newline: what it says,
/// and its length. It is the reply of anything but a line with a fault in its words. Refused with the place of
/// the first byte with which no such line goes on, or the end where the bytes end too early; or for want of
/// memory.
pub fn read_reply(alloc: Global, bytes: &[u8]) -> Result<(ReplyLine, usize), NotTold>
    ensures within { IfOk result (λ found. found.1 ≤ length bytes.now) }
    ensures found { IfOk result (λ found. take found.1 bytes.now ≡ reply_line found.0) }
    ensures fits { IfOk result (λ found. MayBeSaid true found.0) }
    ensures malformed { IfErr result (λ stop. IfMalformed stop (StopsAt (IsReplyLine true) bytes.now)) }
{
    match take_reply(alloc, true, bytes) {
        Ok((line, rest)) => Ok((line, bytes.len() - rest.len())),
        Err(ReadStop::Malformed(stopped)) => Err(NotTold::Malformed(bytes.len() - stopped.left)),
        Err(ReadStop::NoMemory) => Err(NotTold::NoMemory),
    }
}
