//! What was read, printed by the printers of histories and traces.

ghost use Rattle.std.specs.Prelude.{◌≡◌};

use fc_base::fault::{Refusal, WordFault};
use fc_base::name::{Name, Ref};
use fc_base::outcome::Failed;
use fc_base::request::{Place, Reply, Request, Rows};
use fc_entry::entry::Entry;
use fc_entry::history::History;
use fc_entry::parts::put_text;
use fc_entry::reply_text::{put_reply, put_reply_rows};
use fc_entry::request_text::put_request;
use fc_io::mem_sink::MemSink;
use fc_reading_notes::lines::LaneCalls;
use fc_reading_notes::notes::Told;
use fc_reading_replies::replies::ReplyLine;
use fc_reading_requests::asked::Asked;
use fc_trace::header::{Header, put_header};
use fc_trace::trace::put_traced;
use std::alloc::{AllocError, Global};

/// The line of the entry in which `print_told` puts what another one did.
const LINE: &[u8] = b"0 main copyturn 0 -> idle\n";

/// A sink that takes all.
fn sink(alloc: Global) -> MemSink {
    MemSink::new(alloc, Vec::new(alloc))
}

/// What a sink holds behind a call that put something.
fn held(alloc: Global, put: Result<(), Failed>, sink: &MemSink) -> Result<Vec<u8>, AllocError> {
    match put {
        Ok(()) => Vec::from_slice(alloc, sink.bytes()),
        Err(Failed) => Err(AllocError),
    }
}

/// Prints the first line of a trace.
pub fn print_first_line(alloc: Global, header: &Header) -> Result<Vec<u8>, AllocError> {
    let mut sink = sink(alloc);
    let put = put_header(header.grain, &header.lanes, &mut sink);
    held(alloc, put, &sink)
}

/// Prints a reply, as a line.
pub fn print_reply(alloc: Global, reply: &Reply) -> Result<Vec<u8>, AllocError> {
    let mut sink = sink(alloc);
    let put = match put_reply(reply, &mut sink) {
        Ok(()) => put_text(&mut sink, b"\n"),
        Err(failed) => Err(failed),
    };
    held(alloc, put, &sink)
}

/// Prints the line of a reply.
pub fn print_line(alloc: Global, line: &ReplyLine) -> Result<Vec<u8>, AllocError> {
    match line {
        ReplyLine::Whole(reply) => print_reply(alloc, reply),
        ReplyLine::Rows(count) => Ok(format!(in alloc; "rows {count}\n")?.into_bytes()),
    }
}

/// Prints the rows of a report.
pub fn print_rows(alloc: Global, rows: Rows) -> Result<Vec<u8>, AllocError> {
    let mut sink = sink(alloc);
    let put = put_reply_rows(&Reply::Listed(rows), &mut sink);
    held(alloc, put, &sink)
}

/// A reply by which the text of a request tells one.
fn reply_to(asked: &Asked) -> Reply {
    match asked {
        Asked::Unread => Reply::Refused(Refusal::Words(WordFault::LongLine)),
        Asked::Read {
            volume: Ref::Name(_),
            ..
        } => Reply::Refused(Refusal::NoDisk),
        Asked::Write {
            volume: Ref::Name(_),
            ..
        } => Reply::Refused(Refusal::NoDisk),
        _ => Reply::Done,
    }
}

/// Prints what was asked, with the arrow behind it. Nothing where it is no request.
pub fn print_asked(alloc: Global, asked: Asked) -> Result<Vec<u8>, AllocError> {
    let reply = reply_to(&asked);
    let Some(request) = asked.request(&reply) else {
        return Ok(Vec::new(alloc));
    };
    let mut sink = sink(alloc);
    let put = match put_request(&request, &mut sink) {
        Ok(()) => put_text(&mut sink, b" -> "),
        Err(failed) => Err(failed),
    };
    held(alloc, put, &sink)
}

/// Prints all entries of a history that are of actors with names, in trace form.
pub fn print_entries(alloc: Global, history: &History) -> Result<Vec<u8>, AllocError> {
    let mut sink = sink(alloc);
    for index in 0..history.len() {
        if history.entry(index).actor as usize >= history.actors() {
            break;
        }
        if put_traced(history, index, &mut sink).is_err() {
            return Err(AllocError);
        }
    }
    Vec::from_slice(alloc, sink.bytes())
}

/// An entry of the first actor that did this, with this number.
fn entry_of(number: u64, told: Told) -> Entry
    ensures { result.number ≡ number }
{
    let in_lane = told.calls.is_some();
    let calls = told.calls.unwrap_or(LaneCalls {
        calls: 0,
        faults_before: 0,
        faults_after: 0,
    });
    Entry {
        number,
        actor: 0,
        place: if in_lane {
            Place::Lane(0)
        } else {
            Place::Every
        },
        request: Request::CopyTurn { lane: 0 },
        reply: Reply::Idle,
        moves: told.notes.moves,
        effects: told.notes.effects,
        torn: told.notes.torn,
        faults_before: calls.faults_before,
        faults_after: calls.faults_after,
        calls: calls.calls,
    }
}

/// A history of one entry that did this.
fn history_of(alloc: Global, told: Told) -> Result<History, AllocError> {
    let mut history = History::new(alloc);
    if let Ok(Some(name)) = Name::new(alloc, b"main") {
        if history.actor(alloc, &name).is_err() {
            return Err(AllocError);
        }
    }
    let number = history.len() as u64;
    match history.push(entry_of(number, told)) {
        Ok(()) => Ok(history),
        Err(_) => Err(AllocError),
    }
}

/// Prints what an entry did, as far as its end.
pub fn print_told(alloc: Global, told: Told) -> Result<Vec<u8>, AllocError> {
    let printed = print_entries(alloc, &history_of(alloc, told)?)?;
    match printed.as_slice().strip_prefix(LINE) {
        Some(notes) => Vec::from_slice(alloc, notes),
        None => Ok(Vec::new(alloc)),
    }
}
