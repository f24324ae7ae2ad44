//! A session is run with a gate.

use crate::actors::holding::HoldingGate;
use crate::sessions::{Calls, Outcome, run_on};
use fc_top::status::Status;
use made_disks::flat_disks;
use std::alloc::{AllocError, Global};
use std::process::Abort;
use std::sync::Wait;
use std::thread::Threads;

/// Runs a session with this gate over two flat disks for each of the four lanes. It is answered to its end.
pub fn run_held<R: Abort + Threads + Wait + Sync>(
    rt: &R,
    alloc: Global,
    session: &[u8],
    gate: &HoldingGate,
) -> Result<Outcome, AllocError> {
    let mut disks = flat_disks(alloc, 8)?;
    let outcome = run_on(rt, alloc, &mut disks, gate, "64", session, Calls::of(4096))?;
    assert!(rt; outcome.status == Status::Done);
    Ok(outcome)
}

/// Whether the parts stand in the text one behind the other.
fn stand_in_order(text: &str, parts: &[&str]) -> bool {
    let mut rest = text;
    for part in parts {
        match rest.split_once(*part) {
            Some((_, behind)) => rest = behind,
            None => return false,
        }
    }
    true
}

/// The parts stand in the text one behind the other.
pub fn expect_order(
    rt: &impl Abort,
    alloc: Global,
    outcome: &Outcome,
    parts: &[&str],
) -> Result<(), AllocError> {
    let text = String::from_utf8_lossy(alloc, outcome.written.as_slice())?;
    assert!(rt; stand_in_order(text.as_str(), parts));
    Ok(())
}
