//! A session is run over new disks in memory, and its trace written.

use crate::running::{Outcome, run_over};
use fc_mdisk::mem::MemDisk;
use fc_mdisk::ready::make_ready;
use fc_mdisk::thin::ThinDisk;
use fc_top::flashcopy::BoxedDisk;
use std::alloc::{AllocError, Global};
use std::sync::Wait;
use std::thread::Threads;

/// The disks of each kind, fourteen for each of four lanes: fewer than a session asks for.
const DISKS: u32 = 56;

/// Runs a session over these disks, once they are made ready.
fn run_ready<R: Threads + Wait + Sync>(
    rt: &R,
    alloc: Global,
    session: &str,
    disks: &mut Vec<BoxedDisk>,
) -> Result<Outcome, AllocError> {
    if disks.len() >= 1 << 30 || !make_ready(disks) {
        return Err(AllocError);
    }
    let words = ["run", "--grain", "64", "--trace"];
    run_over(rt, alloc, &words, session.as_bytes(), disks)
}

/// Runs a session over flat disks, and as many thin ones behind them.
pub fn run_traced<R: Threads + Wait + Sync>(
    rt: &R,
    alloc: Global,
    session: &str,
) -> Result<Outcome, AllocError> {
    let mut disks: Vec<BoxedDisk> = Vec::new(alloc);
    for _ in 0..DISKS {
        let disk = Box::new(alloc, MemDisk::new(alloc))?;
        disks.push(disk)?;
    }
    for _ in 0..DISKS {
        let disk = Box::new(alloc, ThinDisk::new(alloc))?;
        disks.push(disk)?;
    }
    run_ready(rt, alloc, session, &mut disks)
}
