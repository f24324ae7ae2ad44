//! A session is run over disks in memory.

ghost use Rattle.std.specs.Prelude.{◌<◌, ◌^◌, map, vec_len};
ghost use Rattle.std.specs.List.{All};
ghost use Rattle.fc_mdisk.specs.Disk.{IsFresh};

use fc_entry::history::History;
use fc_io::mem_sink::MemSink;
use fc_io::mem_source::MemSource;
use fc_mdisk::mdisk::Mdisk;
use fc_top::flashcopy::flashcopy_over;
use fc_top::gate::FreeGate;
use fc_top::status::Status;
use std::alloc::{AllocError, Global};
use std::sync::Wait;
use std::thread::Threads;

/// So many bytes are read at once.
const PIECE: usize = 4096;

/// What came of a session.
#[derive(Drop)]
pub struct Outcome {
    /// How it ended.
    pub status: Status,
    /// Its history.
    pub history: History,
    /// What was written.
    pub written: Vec<u8>,
}

/// Runs a session over these disks, as the words say.
pub fn run_over<R: Threads + Wait + Sync, D: Mdisk + Send>(
    rt: &R,
    alloc: Global,
    words: &[&str],
    session: &[u8],
    disks: &mut Vec<D>,
) -> Result<Outcome, AllocError>
    requires few { vec_len disks.old < 2 ^ 30 }
    requires fresh { All IsFresh (map D.meaning disks.old.items) }
{
    let bytes = Vec::from_slice(alloc, session)?;
    let mut source = MemSource::new(bytes, PIECE, Vec::new(alloc));
    let mut sink = MemSink::new(alloc, Vec::new(alloc));
    let mut history = History::new(alloc);
    let status = flashcopy_over(
        rt,
        alloc,
        words,
        &mut source,
        &mut sink,
        disks,
        &FreeGate,
        &mut history,
    );
    let written = Vec::from_slice(alloc, sink.bytes())?;
    Ok(Outcome {
        status,
        history,
        written,
    })
}

/// As `run_over`, over disks that nobody asks for afterwards, with grains of 64 KiB.
pub fn run_64<R: Threads + Wait + Sync, D: Mdisk + Send>(
    rt: &R,
    alloc: Global,
    session: &[u8],
    mut disks: Vec<D>,
) -> Result<Outcome, AllocError>
    requires few { vec_len disks < 2 ^ 30 }
    requires fresh { All IsFresh (map D.meaning disks.items) }
{
    run_over(rt, alloc, &["run", "--grain", "64"], session, &mut disks)
}
