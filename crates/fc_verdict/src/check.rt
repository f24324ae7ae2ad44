//! A check: a trace is taken from the source, with the session behind it, if there is one, and judged, and the line of its verdict is
//! written.

ghost use Rattle.std.specs.Prelude.{◌≡◌, ◌++◌, List, codes, decimal, is_err, Ok as said};
ghost use Rattle.fc_call.specs.Call.{empty};
ghost use Rattle.fc_entry.specs.HistoryState.{HistoryState};
ghost use Rattle.fc_entry.specs.Written.{Written};
ghost use Rattle.fc_mdisk.specs.Disk.{DiskState};
ghost use Rattle.fc_verdict.specs.CheckEnds.{CheckEnds, IsTold, status_said, status_stopped, verdict_line};

use fc_base::outcome::Failed;
use fc_call::status::Status;
use fc_check::check::check;
use fc_check::verdict::{CheckStop, Verdict};
use fc_entry::parts::put_all;
use fc_io::sink::Sink;
use fc_io::source::Source;
use itoa::Buffer;
use std::alloc::Global;

/// The status of a call that has written the line of its verdict.
fn status_said(verdict: Verdict) -> Status
    ensures { result ≡ status_said verdict }
{
    match verdict {
        Verdict::Yes(_) => Status::Done,
        Verdict::No(_) | Verdict::Malformed(_) => Status::Refuted,
    }
}

/// The status of a call that says nothing of its trace.
fn status_stopped(stop: CheckStop) -> Status
    ensures { result ≡ status_stopped stop }
{
    match stop {
        CheckStop::ReadFault => Status::ReadFault,
        CheckStop::NoMemory => Status::NoMemory,
        CheckStop::LogFull => Status::LogFull,
        CheckStop::TooLong => Status::TooLong,
    }
}

/// Puts a line of a word, with the space behind it, and a number. Failed, a front of the line was added.
fn put_said<K: Sink>(word: &[u8], number: u64, sink: &mut K) -> Result<(), Failed>
    ensures { Written (K.meaning sink.old) (word.now ++ decimal number ++ codes "\n") (is_err result) (K.meaning sink.new) }
{
    put_all(
        sink,
        &[word, Buffer::new().format(number).as_bytes(), b"\n"],
    )
}

/// Puts the line of a verdict. Failed, a front of it was added.
fn put_verdict<K: Sink>(verdict: Verdict, sink: &mut K) -> Result<(), Failed>
    ensures { Written (K.meaning sink.old) (verdict_line verdict) (is_err result) (K.meaning sink.new) }
{
    match verdict {
        Verdict::Yes(count) => put_said(b"yes ", count, sink),
        Verdict::No(number) => put_said(b"no ", number, sink),
        Verdict::Malformed(place) => put_said(b"malformed ", place, sink),
    }
}

/// Writes the line of a verdict, and sends it on.
fn write_verdict<K: Sink>(verdict: Verdict, sink: &mut K) -> Status
    ensures { IsTold (said verdict) result (K.meaning sink.old) (K.meaning sink.new) }
{
    match put_verdict(verdict, sink) {
        Ok(()) => match sink.flush() {
            Ok(()) => status_said(verdict),
            Err(_) => Status::WriteFault,
        },
        Err(_) => Status::WriteFault,
    }
}

/// Checks the trace that the source gives, and the session behind it, if there is one, and writes the line of its verdict.
pub fn run_check<S: Source, K: Sink>(alloc: Global, source: &mut S, sink: &mut K) -> Status
    ensures { (disks : List DiskState) (history : HistoryState) → history ≡ empty → CheckEnds
        (record {
          status = result;
          source = S.meaning source.old;
          source' = S.meaning source.new;
          sink = K.meaning sink.old;
          sink' = K.meaning sink.new;
          disks = disks;
          disks' = disks;
          history = history;
        }) }
{
    match check(alloc, source) {
        Ok(verdict) => write_verdict(verdict, sink),
        Err(stop) => status_stopped(stop),
    }
}
