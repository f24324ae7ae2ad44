//! All that a text tells of an entry.

ghost use Rattle.std.specs.Prelude.{◌≡◌, ◌/◌, ◌<◌};
ghost use Rattle.fc_base.specs.Grain.{grain_blocks};
ghost use Rattle.fc_reading.specs.Pieces.{Reads};
ghost use Rattle.fc_reading_notes.specs.Answers.{ReadsOr};
ghost use Rattle.fc_reading_entries.specs.Entries.{asked_parts, ended_line, is_lane, lane_of, lined_parts, noted_line, number_at, parts_at, turn_of, reply_behind};

use crate::exchanges::{request_by, take_line};
use fc_base::command::Command;
use fc_base::limits::LANES;
use fc_base::name::Name;
use fc_base::request::{Place, Reply, Request};
use fc_base::size::GrainSize;
use fc_reading::pieces::{Malformed, word};
use fc_reading_notes::lines::LaneCalls;
use fc_reading_notes::notes::{Notes, take_head, take_notes};
use fc_reading_notes::stop::ReadStop;
use fc_reading_replies::replies::ReplyLine;
use fc_reading_replies::rows::take_rows;
use fc_reading_requests::asked::Asked;
use fc_reading_requests::parts::take_name_and;
use fc_reading_requests::requests::take_asked;
use itoa::Buffer;
use std::alloc::Global;

/// All that a text tells of an entry.
#[derive(Drop)]
pub struct Parts {
    /// The name of its actor.
    pub name: Name,
    /// What was asked.
    pub request: Request,
    /// What was answered.
    pub reply: Reply,
    /// What it cost in its lane. None where it is no entry of a lane.
    pub calls: Option<LaneCalls>,
    /// What it moved, spoiled and changed.
    pub notes: Notes,
}

/// The turn of the lane that has this grain.
fn lane_of(grain: u64) -> Place
    ensures { result ≡ lane_of grain }
{
    Place::Lane((grain % u64::from(LANES)) as u8)
}

/// The turn of the lane that has the grain of this block.
fn lane_of_block(size: GrainSize, block: u64) -> Place
    ensures { result ≡ lane_of (block / grain_blocks size) }
{
    lane_of(block / u64::from(size.blocks()))
}

/// Under whose turns a request is answered.
pub(crate) fn turn_of(size: GrainSize, request: &Request) -> Place
    ensures { result ≡ turn_of size request.now }
{
    match request {
        Request::Command(Command::Read { .. }) => Place::Control,
        Request::Command(Command::Write { .. }) => Place::Control,
        Request::Command(Command::Mkpreset { .. }) => Place::Control,
        Request::Command(_) => Place::Every,
        Request::Unread(_) => Place::Control,
        Request::Read(part) => lane_of_block(size, part.block),
        Request::Write(part) => lane_of_block(size, part.block),
        Request::Copy { grain, .. } => lane_of(u64::from(grain.0)),
        Request::Clean { grain, .. } => lane_of(u64::from(grain.0)),
        Request::CopyTurn { lane } => Place::Lane(*lane),
        Request::CleanTurn { lane } => Place::Lane(*lane),
    }
}

/// Whether it is the turn of a lane.
fn is_lane(place: Place) -> bool
    ensures { result ≡ is_lane place }
{
    matches!(place, Place::Lane(_))
}

/// Takes the number of an entry, and the space behind it.
fn take_number(number: u64, bytes: &[u8]) -> Result<&[u8], Malformed>
    ensures { Reads (λ rest. (tt, rest.now)) result (number_at number bytes.now) }
{
    let mut digits = Buffer::new();
    let rest = word(digits.format(number).as_bytes(), bytes)?;
    word(b" ", rest)
}

/// Takes the rows of a report, where the line tells of one.
fn take_report(alloc: Global, line: ReplyLine, bytes: &[u8]) -> Result<(Reply, &[u8]), ReadStop>
    ensures { ReadsOr (λ found. (found.0, found.1.now)) result (reply_behind line bytes.now) }
{
    match line {
        ReplyLine::Whole(reply) => Ok((reply, bytes)),
        ReplyLine::Rows(count) => match take_rows(alloc, count, bytes) {
            Ok((rows, rest)) => Ok((Reply::Listed(rows), rest)),
            Err(stop) => Err(stop),
        },
    }
}

/// Takes the reply, and the line that ends an entry.
fn take_ended(alloc: Global, line: ReplyLine, bytes: &[u8]) -> Result<(Reply, &[u8]), ReadStop>
    ensures { ReadsOr (λ found. ((found.0, tt), found.1.now)) result (ended_line line bytes.now) }
{
    match take_report(alloc, line, bytes) {
        Ok((reply, rest)) => {
            let rest = word(b".\n", rest)?;
            Ok((reply, rest))
        }
        Err(stop) => Err(stop),
    }
}

/// Takes what an entry moved, spoiled and changed, with all that stands behind it.
fn take_noted(
    alloc: Global,
    line: ReplyLine,
    bytes: &[u8],
) -> Result<(Notes, Reply, &[u8]), ReadStop>
    ensures { ReadsOr (λ found. ((found.0, (found.1, tt)), found.2.now)) result (noted_line line bytes.now) }
{
    match take_notes(alloc, bytes) {
        Ok((notes, rest)) => match take_ended(alloc, line, rest) {
            Ok((reply, rest)) => Ok((notes, reply, rest)),
            Err(stop) => Err(stop),
        },
        Err(stop) => Err(stop),
    }
}

/// Takes the line of a reply and all behind it.
fn take_lined(
    alloc: Global,
    size: GrainSize,
    name: Name,
    asked: Asked,
    bytes: &[u8],
) -> Result<(Parts, &[u8]), ReadStop>
    ensures { ReadsOr (λ found. (found.0, found.1.now)) result (lined_parts size name asked bytes.now) }
{
    match take_line(alloc, &asked, bytes) {
        Ok((line, rest)) => {
            let request = request_by(asked, &line);
            let (calls, rest) = take_head(is_lane(turn_of(size, &request)), rest)?;
            match take_noted(alloc, line, rest) {
                Ok((notes, reply, rest)) => {
                    let parts = Parts {
                        name,
                        request,
                        reply,
                        calls,
                        notes,
                    };
                    Ok((parts, rest))
                }
                Err(stop) => Err(stop),
            }
        }
        Err(stop) => Err(stop),
    }
}

/// Takes what was asked and all behind it.
#[tactic(auto, using(crate::proofs::PartSteps::asked_then))]
fn take_asked_parts(
    alloc: Global,
    size: GrainSize,
    name: Name,
    bytes: &[u8],
) -> Result<(Parts, &[u8]), ReadStop>
    ensures { ReadsOr (λ found. (found.0, found.1.now)) result (asked_parts size name bytes.now) }
{
    match take_asked(alloc, bytes) {
        Ok((asked, rest)) => take_lined(alloc, size, name, asked, rest),
        Err(stop) => Err(stop),
    }
}

/// Takes all that the text of an entry with this number tells, of a store of this size of grains.
#[tactic(auto, using(crate::proofs::PartSteps::parts_then))]
pub(crate) fn take_parts(
    alloc: Global,
    size: GrainSize,
    number: u64,
    bytes: &[u8],
) -> Result<(Parts, &[u8]), ReadStop>
    ensures { ReadsOr (λ found. (found.0, found.1.now)) result (parts_at size number bytes.now) }
{
    let rest = take_number(number, bytes)?;
    match take_name_and(alloc, b" ", rest) {
        Ok((name, rest)) => take_asked_parts(alloc, size, name, rest),
        Err(stop) => Err(stop),
    }
}
