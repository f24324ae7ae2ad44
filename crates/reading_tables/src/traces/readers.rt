//! Each kind of text, read and printed.

use crate::traces::entries::read_entries;
use crate::traces::printed::{
    print_asked, print_first_line, print_line, print_reply, print_rows, print_told,
};
use crate::traces::reading::Reading;
use fc_base::fault::Refusal;
use fc_base::request::Reply;
use fc_base::size::GrainSize;
use fc_reading::header::read_header;
use fc_reading_notes::notes::read_told;
use fc_reading_notes::stop::ReadStop;
use fc_reading_replies::faults::read_fault;
use fc_reading_replies::replies::read_reply;
use fc_reading_replies::rows::take_rows;
use fc_reading_requests::requests::read_request;
use std::alloc::{AllocError, Global};

/// What is read.
#[derive(Clone, Copy)]
pub enum What {
    /// The first line of a trace.
    FirstLine,
    /// What an entry did, as far as its end.
    Notes { in_lane: bool },
    /// What was asked, with the arrow behind it.
    Request,
    /// The line of a reply.
    Reply,
    /// The reply of a line with a fault in its words.
    Fault,
    /// So many rows of a report.
    Rows(u64),
    /// Entries, one behind the other, of a store of this size of grains.
    Entries(GrainSize),
}

/// Reads the first line of a trace.
fn first_line(alloc: Global, text: &[u8]) -> Result<Reading, AllocError> {
    match read_header(text) {
        Ok((header, length)) => Reading::whole(alloc, length, print_first_line(alloc, &header)?),
        Err(place) => Reading::stopped(alloc, place),
    }
}

/// Reads what an entry did.
fn notes(alloc: Global, in_lane: bool, text: &[u8]) -> Result<Reading, AllocError> {
    match read_told(alloc, in_lane, text) {
        Ok((told, length)) => Reading::whole(alloc, length, print_told(alloc, told)?),
        Err(stop) => Reading::not_told(alloc, stop),
    }
}

/// Reads what was asked.
fn request(alloc: Global, text: &[u8]) -> Result<Reading, AllocError> {
    match read_request(alloc, text) {
        Ok((asked, length)) => Reading::whole(alloc, length, print_asked(alloc, asked)?),
        Err(stop) => Reading::not_told(alloc, stop),
    }
}

/// Reads the line of a reply.
fn reply(alloc: Global, text: &[u8]) -> Result<Reading, AllocError> {
    match read_reply(alloc, text) {
        Ok((line, length)) => Reading::whole(alloc, length, print_line(alloc, &line)?),
        Err(stop) => Reading::not_told(alloc, stop),
    }
}

/// Reads the reply of a line with a fault in its words.
fn fault(alloc: Global, text: &[u8]) -> Result<Reading, AllocError> {
    match read_fault(text) {
        Ok((fault, length)) => {
            let reply = Reply::Refused(Refusal::Words(fault));
            Reading::whole(alloc, length, print_reply(alloc, &reply)?)
        }
        Err(place) => Reading::stopped(alloc, place),
    }
}

/// Reads so many rows of a report.
fn rows(alloc: Global, count: u64, text: &[u8]) -> Result<Reading, AllocError> {
    match take_rows(alloc, count, text) {
        Ok((rows, rest)) => {
            let length = text.len().saturating_sub(rest.len());
            Reading::whole(alloc, length, print_rows(alloc, rows)?)
        }
        Err(ReadStop::Malformed(stopped)) => {
            Reading::stopped(alloc, text.len().saturating_sub(stopped.left))
        }
        Err(ReadStop::NoMemory) => Err(AllocError),
    }
}

/// Reads a text of this kind.
pub fn read(alloc: Global, what: What, text: &[u8]) -> Result<Reading, AllocError> {
    match what {
        What::FirstLine => first_line(alloc, text),
        What::Notes { in_lane } => notes(alloc, in_lane, text),
        What::Request => request(alloc, text),
        What::Reply => reply(alloc, text),
        What::Fault => fault(alloc, text),
        What::Rows(count) => rows(alloc, count, text),
        What::Entries(size) => read_entries(alloc, size, text),
    }
}
