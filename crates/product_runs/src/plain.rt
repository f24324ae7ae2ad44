//! Generated sessions, and each read of theirs compared with plain volumes.
//!
//! The sessions are those of `fc_gen`, by their numbers. Each is run twice, over disks that don't fail and over disks of which
//! some calls fail, and its history is then told to plain volumes (`fc_plain`), entry by entry: each read that gave bytes must
//! have given theirs, and each medium error must have met a grain that is lost there. A line is printed for each session that
//! says what came of it.
//!
//! In reading order: `compared` (a history is compared), and this file.

mod compared;

ghost use Rattle.std.specs.Prelude.{◌<◌, ◌^◌, map, vec_len};
ghost use Rattle.std.specs.List.{All};
ghost use Rattle.fc_mdisk.specs.Disk.{IsFresh};

use crate::plain::compared::{Compared, compare};
use crate::running::run_64;
use fc_base::size::GrainSize;
use fc_gen::session;
use fc_mdisk::mdisk::Mdisk;
use made_disks::{failing_disks, flat_disks};
use std::alloc::Global;
use std::io;
use std::sync::Wait;
use std::thread::Threads;

/// The numbers of the sessions.
const SESSIONS: u64 = 2;

/// The number of disks.
const DISKS: u32 = 64;

/// The calls of each disk that fail where some do, counted from 1.
const FAILING_CALLS: [u64; 8] = [3, 4, 11, 30, 31, 70, 150, 400];

/// Runs the session of a number over these disks, and compares its reads.
fn run<R: Threads + Wait + Sync, D: Mdisk + Send>(
    rt: &R,
    alloc: Global,
    number: u64,
    disks: Vec<D>,
) -> io::Result<Compared>
    requires few { vec_len disks < 2 ^ 30 }
    requires fresh { All IsFresh (map D.meaning disks.items) }
{
    let Ok(lines) = session(alloc, number) else {
        return Ok(Compared::without_memory());
    };
    let outcome = run_64(rt, alloc, lines.as_slice(), disks)?;
    Ok(compare(alloc, GrainSize::K64, &outcome.history))
}

/// Prints what came of a session.
fn print_compared<R: Print>(
    rt: &R,
    number: u64,
    over: &str,
    compared: &Compared,
) -> io::Result<()> {
    println!(rt; "session {number}, {over}: {}", compared.verdict())
}

/// Runs the sessions, and prints what came of them.
pub fn run_plain<R: Threads + Wait + Sync + Print>(rt: &R, alloc: Global) -> io::Result<()> {
    for number in 1..SESSIONS + 1 {
        let sound = run(rt, alloc, number, flat_disks(alloc, DISKS)?)?;
        print_compared(rt, number, "sound disks", &sound)?;
        let failing = run(
            rt,
            alloc,
            number,
            failing_disks(alloc, DISKS, &FAILING_CALLS)?,
        )?;
        print_compared(rt, number, "failing disks", &failing)?;
    }
    Ok(())
}
