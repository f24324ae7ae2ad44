//! Sessions that come out as they should, whichever allocation is refused.

use crate::memory::answers::is_right;
use crate::memory::{DISKS, over_flat, over_thin};
use crate::sessions::Outcome;
use session_texts::texts::{
    COMPLETE_STOPPED, FIRST_VOLUME, INCREMENTAL, SNAPSHOTS, STARTED_AGAIN, Session, THIN_WRITTEN,
};
use std::alloc::AllocError;
use std::process::Abort;

/// A session came out as it should, one allocation refused or not. Where making it ready was refused there is nothing to
/// say.
fn passes(rt: &impl Abort, ran: Result<Outcome, AllocError>, session: Session) {
    if let Ok(outcome) = ran {
        assert!(rt; is_right(&outcome, session, DISKS as usize));
    }
}

#[test]
fn a_volume(rt: HostRuntime) {
    passes(&rt, over_flat(&rt, rt.alloc(), FIRST_VOLUME), FIRST_VOLUME);
}

#[test]
fn a_copy_that_is_stopped(rt: HostRuntime) {
    passes(
        &rt,
        over_flat(&rt, rt.alloc(), COMPLETE_STOPPED),
        COMPLETE_STOPPED,
    );
}

#[test]
fn a_copy_that_is_started_again(rt: HostRuntime) {
    passes(
        &rt,
        over_flat(&rt, rt.alloc(), STARTED_AGAIN),
        STARTED_AGAIN,
    );
}

#[test]
fn an_incremental_copy(rt: HostRuntime) {
    passes(&rt, over_flat(&rt, rt.alloc(), INCREMENTAL), INCREMENTAL);
}

#[test]
fn thin_volumes(rt: HostRuntime) {
    passes(&rt, over_thin(&rt, rt.alloc(), THIN_WRITTEN), THIN_WRITTEN);
}

#[test]
fn snapshots(rt: HostRuntime) {
    passes(&rt, over_thin(&rt, rt.alloc(), SNAPSHOTS), SNAPSHOTS);
}
