//! A session over memory.

ghost use Rattle.std.specs.Prelude.{◌≡◌, ◌<◌, ◌^◌, map, vec_len};
ghost use Rattle.std.specs.List.{All};
ghost use Rattle.fc_mdisk.specs.Disk.{IsFresh};

use fc_base::request::Reply;
use fc_entry::history::History;
use fc_io::mem_sink::MemSink;
use fc_io::mem_source::MemSource;
use fc_mdisk::mdisk::Mdisk;
use fc_top::flashcopy::flashcopy_over;
use fc_top::gate::{FreeGate, Gate};
use fc_top::status::Status;
use made_disks::flat_disks;
use std::alloc::{AllocError, Global};
use std::process::Abort;
use std::sync::Wait;
use std::thread::Threads;

/// The calls of a session's source and sink.
#[derive(Clone, Copy)]
pub struct Calls {
    /// So many bytes a `take` gives at most.
    pub piece: usize,
    /// The `take` that fails, counted from 1.
    pub failing_take: Option<u64>,
    /// The call of the sink that fails, a `put` or a `flush`, counted from 1.
    pub failing_put: Option<u64>,
}

impl Calls {
    /// Each `take` gives so many bytes at most, and no call fails.
    pub fn of(piece: usize) -> Calls
        ensures { result.piece ≡ piece }
    {
        Calls {
            piece,
            failing_take: None,
            failing_put: None,
        }
    }

    /// The same, but that this `take` fails.
    pub fn without_take(self, number: u64) -> Calls
        ensures { result.piece ≡ self.piece }
    {
        Calls {
            failing_take: Some(number),
            ..self
        }
    }

    /// The same, but that this call of the sink fails.
    pub fn without_put(self, number: u64) -> Calls
        ensures { result.piece ≡ self.piece }
    {
        Calls {
            failing_put: Some(number),
            ..self
        }
    }
}

/// What came of a session.
#[derive(Drop)]
pub struct Outcome {
    /// How it ended.
    pub status: Status,
    /// What was written.
    pub written: Vec<u8>,
    /// How many entries there are.
    pub entries: usize,
    /// How many disks came back.
    pub disks: usize,
    /// How many entries tell what their settling changed, and that memory was wanted then.
    pub settled: usize,
}

/// A list of this number, if there is one.
fn list_of(alloc: Global, number: Option<u64>) -> Result<Vec<u64>, AllocError> {
    match number {
        Some(number) => Vec::from_slice(alloc, &[number]),
        None => Ok(Vec::new(alloc)),
    }
}

/// How many entries tell what their settling changed, and that memory was wanted then.
fn settled_in(history: &History) -> usize {
    let mut settled = 0usize;
    for index in 0..history.len() {
        let entry = history.entry(index);
        if let Reply::NoMemory = &entry.reply
            && !entry.effects.as_slice().is_empty()
        {
            settled = settled.saturating_add(1);
        }
    }
    settled
}

/// How a session ended, how many entries its history has, and how many of them tell what their settling changed and want of memory.
#[derive(Clone, Copy)]
struct Ended {
    status: Status,
    entries: usize,
    settled: usize,
}

/// Runs the session of this source over these disks with this gate, with grains of so many KiB, and answers to this sink.
fn run_between<R: Threads + Wait + Sync, D: Mdisk + Send, G: Gate>(
    rt: &R,
    alloc: Global,
    disks: &mut Vec<D>,
    gate: &G,
    grain: &str,
    source: &mut MemSource,
    sink: &mut MemSink,
) -> Ended
    requires few { vec_len disks.old < 2 ^ 30 }
    requires fresh { All IsFresh (map D.meaning disks.old.items) }
{
    let mut history = History::new(alloc);
    let words = ["run", "--grain", grain];
    let status = flashcopy_over(rt, alloc, &words, source, sink, disks, gate, &mut history);
    Ended {
        status,
        entries: history.len(),
        settled: settled_in(&history),
    }
}

/// A source of a session, with its calls.
fn source_of(alloc: Global, session: &[u8], calls: Calls) -> Result<MemSource, AllocError>
    requires { 0 < calls.piece }
{
    let bytes = Vec::from_slice(alloc, session)?;
    let failing = list_of(alloc, calls.failing_take)?;
    Ok(MemSource::new(bytes, calls.piece, failing))
}

/// Runs a session over these disks with this gate, with grains of so many KiB. The disks that the program gives back stand in the
/// list then.
pub fn run_on<R: Threads + Wait + Sync, D: Mdisk + Send, G: Gate>(
    rt: &R,
    alloc: Global,
    disks: &mut Vec<D>,
    gate: &G,
    grain: &str,
    session: &[u8],
    calls: Calls,
) -> Result<Outcome, AllocError>
    requires piece { 0 < calls.piece }
    requires few { vec_len disks.old < 2 ^ 30 }
    requires fresh { All IsFresh (map D.meaning disks.old.items) }
{
    let mut source = source_of(alloc, session, calls)?;
    let mut sink = MemSink::new(alloc, list_of(alloc, calls.failing_put)?);
    let ended = run_between(rt, alloc, disks, gate, grain, &mut source, &mut sink);
    Ok(Outcome {
        status: ended.status,
        written: Vec::from_slice(alloc, sink.bytes())?,
        entries: ended.entries,
        disks: disks.len(),
        settled: ended.settled,
    })
}

/// Runs a session over so many flat disks, with grains of so many KiB.
pub fn run_flat<R: Threads + Wait + Sync>(
    rt: &R,
    alloc: Global,
    disks: u32,
    grain: &str,
    session: &[u8],
    calls: Calls,
) -> Result<Outcome, AllocError>
    requires piece { 0 < calls.piece }
    requires few { disks < 2 ^ 30 }
{
    let mut disks = flat_disks(alloc, disks)?;
    run_on(rt, alloc, &mut disks, &FreeGate, grain, session, calls)
}

/// All lines were answered, and this was written.
pub fn expect_done(rt: &impl Abort, outcome: &Outcome, text: &[u8]) {
    assert!(rt; outcome.status == Status::Done);
    assert!(rt; outcome.written.as_slice() == text);
}
