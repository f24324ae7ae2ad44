//! Sessions that come out as they do where no allocation is refused. A test that fails names by its assertion what was met.

use crate::memory::{DISKS, over_flat, over_thin};
use crate::sessions::Outcome;
use fc_top::status::Status;
use session_texts::texts::{
    COMPLETE_STOPPED, FIRST_VOLUME, INCREMENTAL, SNAPSHOTS, STARTED_AGAIN, Session, THIN_WRITTEN,
};
use std::alloc::{AllocError, Global};
use std::process::Abort;
use std::sync::Wait;
use std::thread::Threads;

/// A session came out as it does where no allocation is refused.
fn expect_ample(rt: &impl Abort, outcome: &Outcome, session: Session) {
    assert!(rt; outcome.status != Status::WriteFault);
    assert!(rt; outcome.status != Status::NoMemory);
    assert!(rt; outcome.status == Status::Done);
    assert!(rt; outcome.settled == 0);
    assert!(rt; outcome.written.as_slice() == session.text);
    assert!(rt; outcome.disks == DISKS as usize);
}

/// Runs a session over flat disks, which comes out so.
fn is_ample<R: Abort + Threads + Wait + Sync>(
    rt: &R,
    alloc: Global,
    session: Session,
) -> Result<(), AllocError> {
    let outcome = over_flat(rt, alloc, session)?;
    expect_ample(rt, &outcome, session);
    Ok(())
}

/// Runs a session over thin disks, which comes out so.
fn is_ample_thin<R: Abort + Threads + Wait + Sync>(
    rt: &R,
    alloc: Global,
    session: Session,
) -> Result<(), AllocError> {
    let outcome = over_thin(rt, alloc, session)?;
    expect_ample(rt, &outcome, session);
    Ok(())
}

#[test]
fn a_volume(rt: HostRuntime) -> Result<(), AllocError> {
    is_ample(&rt, rt.alloc(), FIRST_VOLUME)
}

#[test]
fn a_copy_that_is_stopped(rt: HostRuntime) -> Result<(), AllocError> {
    is_ample(&rt, rt.alloc(), COMPLETE_STOPPED)
}

#[test]
fn a_copy_that_is_started_again(rt: HostRuntime) -> Result<(), AllocError> {
    is_ample(&rt, rt.alloc(), STARTED_AGAIN)
}

#[test]
fn an_incremental_copy(rt: HostRuntime) -> Result<(), AllocError> {
    is_ample(&rt, rt.alloc(), INCREMENTAL)
}

#[test]
fn thin_volumes(rt: HostRuntime) -> Result<(), AllocError> {
    is_ample_thin(&rt, rt.alloc(), THIN_WRITTEN)
}

#[test]
fn snapshots(rt: HostRuntime) -> Result<(), AllocError> {
    is_ample_thin(&rt, rt.alloc(), SNAPSHOTS)
}
