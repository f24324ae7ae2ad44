//! The summary of a history.

ghost use Rattle.std.specs.Prelude.{◌≡◌, ◌≤◌, ◌<◌, ◌+◌, ◌*◌, ◌%◌, ◌^◌, length, is_err};
ghost use Rattle.std.specs.List.{sum};
ghost use Rattle.fc_base.specs.Runs.{expanded};
ghost use Rattle.fc_entry.specs.Written.{Written};
ghost use Rattle.fc_run.specs.Summary.{gives_bytes, is_done_write, refuses, bytes_sum, summary_text};
ghost use Rattle.fc_run.specs.Tallies.{tally_of, tally_text, tally_with};

use fc_base::outcome::Failed;
use fc_base::request::{Reply, Request};
use fc_base::runs::Run;
use fc_entry::entry::Entry;
use fc_entry::history::History;
use fc_entry::parts::put_all;
use fc_io::sink::Sink;
use itoa::Buffer;

/// The numbers of a summary.
#[derive(Clone, Copy, PartialEq, Eq)]
struct Tally {
    /// Reads that gave bytes.
    reads: u64,
    /// Writes that were done.
    writes: u64,
    /// Grains that were moved.
    moves: u128,
    /// Refusals.
    refused: u64,
    /// The sum of all bytes that were read, of which 32 bits are kept.
    sum: u32,
}

/// Whether a read is answered with its bytes.
fn gives_bytes(reply: &Reply) -> bool
    ensures { result ≡ gives_bytes reply.now }
{
    matches!(reply, Reply::Bytes(_))
}

/// Whether a write is answered as done.
fn is_done_write(request: &Request, reply: &Reply) -> bool
    ensures { result ≡ is_done_write request.now reply.now }
{
    matches!(request, Request::Write(_)) && matches!(reply, Reply::Done)
}

/// Whether a request is refused.
fn refuses(reply: &Reply) -> bool
    ensures { result ≡ refuses reply.now }
{
    matches!(reply, Reply::Refused(_))
}

/// A sum with the bytes of these runs. 32 bits of it are kept.
fn with_runs(start: u32, runs: &[Run]) -> u32
    ensures { result ≡ (start + sum (expanded runs.now)) % 2 ^ 32 }
{
    let mut total = start;
    for run in runs {
        total = total.wrapping_add(run.count.wrapping_mul(u32::from(run.byte)));
    }
    total
}

/// A sum with the bytes that a reply gives. 32 bits of it are kept.
fn with_bytes(start: u32, reply: &Reply) -> u32
    ensures { result ≡ (start + bytes_sum reply.now) % 2 ^ 32 }
{
    match reply {
        Reply::Bytes(runs) => with_runs(start, runs.as_slice()),
        _ => start,
    }
}

/// A tally with one entry more.
fn with_entry(tally: Tally, entry: &Entry) -> Tally
    requires reads { tally.reads < 262144 }
    requires writes { tally.writes < 262144 }
    requires moves { tally.moves ≤ 262144 * 2 ^ 64 }
    requires refused { tally.refused < 262144 }
    ensures tally { result ≡ tally_with tally entry.now }
    ensures moves { result.moves ≤ tally.moves + 2 ^ 64 }
{
    Tally {
        reads: tally.reads + u64::from(gives_bytes(&entry.reply)),
        writes: tally.writes + u64::from(is_done_write(&entry.request, &entry.reply)),
        moves: tally.moves + entry.moves.len() as u128,
        refused: tally.refused + u64::from(refuses(&entry.reply)),
        sum: with_bytes(tally.sum, &entry.reply),
    }
}

/// The tally of all entries.
fn tally_of(history: &History) -> Tally
    requires { length history.now.entries ≤ 262144 }
    ensures { result ≡ tally_of history.now.entries }
{
    let mut tally = Tally {
        reads: 0,
        writes: 0,
        moves: 0,
        refused: 0,
        sum: 0,
    };
    for index in 0..history.len() {
        tally = with_entry(tally, history.entry(index));
    }
    tally
}

/// Puts the line of a tally of so many entries.
fn put_tally<K: Sink>(entries: usize, tally: Tally, sink: &mut K) -> Result<(), Failed>
    ensures { Written (K.meaning sink.old) (tally_text entries tally) (is_err result) (K.meaning sink.new) }
{
    put_all(
        sink,
        &[
            b"entries ",
            Buffer::new().format(entries).as_bytes(),
            b" reads ",
            Buffer::new().format(tally.reads).as_bytes(),
            b" writes ",
            Buffer::new().format(tally.writes).as_bytes(),
            b" moves ",
            Buffer::new().format(tally.moves).as_bytes(),
            b" refused ",
            Buffer::new().format(tally.refused).as_bytes(),
            b" sum ",
            Buffer::new().format(tally.sum).as_bytes(),
            b"\n",
        ],
    )
}

/// Puts the summary of the history. Takes no memory. Failed, a front of the line was added.
pub fn put_summary<K: Sink>(history: &History, sink: &mut K) -> Result<(), Failed>
    requires { length history.now.entries ≤ 262144 }
    ensures { Written (K.meaning sink.old) (summary_text history.now) (is_err result) (K.meaning sink.new) }
{
    put_tally(history.len(), tally_of(history), sink)
}
