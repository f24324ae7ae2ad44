//! Sessions are run, and their histories judged.

ghost use Rattle.std.specs.Prelude.{◌<◌, ◌^◌, map, vec_len};
ghost use Rattle.std.specs.List.{All};
ghost use Rattle.fc_mdisk.specs.Disk.{IsFresh};

use crate::blocks::tally::Tally;
use crate::running::run_64;
use fc_base::size::GrainSize;
use fc_judge::judge;
use fc_mdisk::mdisk::Mdisk;
use made_disks::{failing_disks, flat_disks, thin_disks};
use std::alloc::{AllocError, Global};
use std::sync::Wait;
use std::thread::Threads;

/// The disks of a session: eight for each of four lanes.
const DISKS: u32 = 32;

/// The calls of each disk that fail where some do, counted from 1.
const FAILING_CALLS: [u64; 8] = [5, 9, 30, 31, 70, 150, 151, 300];

/// Runs a session over these disks, and judges its history.
fn run<R: Threads + Wait + Sync, D: Mdisk + Send>(
    rt: &R,
    alloc: Global,
    session: &[u8],
    disks: Vec<D>,
    tally: &mut Tally,
) -> Result<(), AllocError>
    requires few { vec_len disks < 2 ^ 30 }
    requires fresh { All IsFresh (map D.meaning disks.items) }
{
    let outcome = run_64(rt, alloc, session, disks)?;
    match judge(alloc, GrainSize::K64, session, &outcome.history) {
        Ok(verdict) => tally.add(alloc, &outcome, verdict),
        Err(_) => Err(AllocError),
    }
}

/// Runs a session so often over disks that don't fail.
pub fn run_sound<R: Threads + Wait + Sync>(
    rt: &R,
    alloc: Global,
    session: &[u8],
    runs: u32,
) -> Result<Tally, AllocError> {
    let mut tally = Tally::new(alloc);
    for _ in 0..runs {
        let disks = flat_disks(alloc, DISKS)?;
        run(rt, alloc, session, disks, &mut tally)?;
    }
    Ok(tally)
}

/// Runs a session so often over disks of which some calls fail.
pub fn run_failing<R: Threads + Wait + Sync>(
    rt: &R,
    alloc: Global,
    session: &[u8],
    runs: u32,
) -> Result<Tally, AllocError> {
    let mut tally = Tally::new(alloc);
    for _ in 0..runs {
        let disks = failing_disks(alloc, DISKS, &FAILING_CALLS)?;
        run(rt, alloc, session, disks, &mut tally)?;
    }
    Ok(tally)
}

/// Runs a session so often over thin disks.
pub fn run_thin<R: Threads + Wait + Sync>(
    rt: &R,
    alloc: Global,
    session: &[u8],
    runs: u32,
) -> Result<Tally, AllocError> {
    let mut tally = Tally::new(alloc);
    for _ in 0..runs {
        let disks = thin_disks(alloc, DISKS)?;
        run(rt, alloc, session, disks, &mut tally)?;
    }
    Ok(tally)
}
