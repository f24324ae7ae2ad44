//! Sessions in which one allocation is refused: `rt try --test --fail-alloc N` refuses the Nth of each test. Whichever it is,
//! each test of `refused` passes, and those of `ample` pass where their session wants fewer. docs/refused_memory.sh tries one
//! N after the other.
//!
//! In reading order: this file (a session is run), `answers` (whether it came out as it should), `refused`, `ample`.

mod ample;
mod answers;
mod refused;

use crate::sessions::{Calls, Outcome, run_flat, run_on};
use fc_top::gate::FreeGate;
use made_disks::thin_disks;
use session_texts::texts::Session;
use std::alloc::{AllocError, Global};
use std::sync::Wait;
use std::thread::Threads;

/// How many disks there are: eight for each lane.
const DISKS: u32 = 32;

/// So many bytes are read at once.
const PIECE: usize = 4_096;

/// Runs a session over flat disks.
fn over_flat<R: Threads + Wait + Sync>(
    rt: &R,
    alloc: Global,
    session: Session,
) -> Result<Outcome, AllocError> {
    let calls = Calls::of(PIECE);
    run_flat(rt, alloc, DISKS, session.grain, session.lines, calls)
}

/// Runs a session over thin disks.
fn over_thin<R: Threads + Wait + Sync>(
    rt: &R,
    alloc: Global,
    session: Session,
) -> Result<Outcome, AllocError> {
    let mut disks = thin_disks(alloc, DISKS)?;
    let Session { grain, lines, .. } = session;
    run_on(
        rt,
        alloc,
        &mut disks,
        &FreeGate,
        grain,
        lines,
        Calls::of(PIECE),
    )
}
