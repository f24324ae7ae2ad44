//! Sessions with blocks of actors, run many times over disks in memory, and each history judged.
//!
//! Actors come in another order in each run, so a history is not compared but judged (`fc_judge`). The session `together` is run 20
//! times over flat disks, and a generated session of 40 blocks of 16 actors with every role 25 times over disks of which some
//! calls fail and 25 times over thin disks with armed faults. It is printed how many of each were right, how many ended for want
//! of memory, if any did, and what the first wrong one says. `bench/together.sh` has `together` alone run as often as it asks.
//!
//! In reading order: `together` (the session), `generated` (the session of 40 blocks), `tally` (what came of some runs), `runs`, and
//! this file.

mod generated;
mod runs;
mod tally;
mod together;

use crate::blocks::generated::generated;
use crate::blocks::runs::{run_failing, run_sound, run_thin};
use crate::blocks::tally::Tally;
use crate::blocks::together::TOGETHER;
use std::alloc::Global;
use std::io;
use std::sync::Wait;
use std::thread::Threads;

/// How often `together` is run.
const RUNS: u32 = 20;

/// How often the generated session is run over each kind of disks.
const GENERATED_RUNS: u32 = 25;

/// The number of the generated session.
const NUMBER: u64 = 7;

/// Prints what came of some runs of a session.
fn print_tally<R: Print>(rt: &R, session: &str, tally: &Tally) -> io::Result<()> {
    let faults = if tally.has_faults() {
        ", with disk faults"
    } else {
        ""
    };
    println!(rt;
        "{session}: {} runs, {} right{faults}",
        tally.runs(),
        tally.right()
    )?;
    if tally.cut_short() > 0 {
        println!(rt; "{} ended for want of memory", tally.cut_short())?;
    }
    match tally.first_wrong() {
        Some(wrong) => println!(rt; "{wrong}"),
        None => Ok(()),
    }
}

/// Runs all sessions, and prints what came of them.
pub fn run_blocks<R: Threads + Wait + Sync + Print>(rt: &R, alloc: Global) -> io::Result<()> {
    let tally = run_sound(rt, alloc, TOGETHER, RUNS)?;
    print_tally(rt, "together", &tally)?;
    let session = generated(alloc, NUMBER, false)?;
    let tally = run_failing(rt, alloc, session.as_bytes(), GENERATED_RUNS)?;
    print_tally(rt, "40 blocks over failing disks", &tally)?;
    let session = generated(alloc, NUMBER, true)?;
    let tally = run_thin(rt, alloc, session.as_bytes(), GENERATED_RUNS)?;
    print_tally(rt, "40 blocks over thin disks", &tally)
}

/// Runs the session `together` so often, and prints what came of it, and how many different histories there were.
pub fn run_together<R: Threads + Wait + Sync + Print>(
    rt: &R,
    alloc: Global,
    runs: u32,
) -> io::Result<()> {
    let tally = run_sound(rt, alloc, TOGETHER, runs)?;
    print_tally(rt, "together", &tally)?;
    println!(rt; "{} different histories", tally.orders())
}
