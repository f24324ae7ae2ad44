//! The disks that the lanes of a store hold, with the names of their volumes.
//!
//! `all_named` takes a store apart into the disks of its lanes, each with the volume that it is of; `specs/Held` says when disks
//! match what lanes hold, and `held_law` that such disks agree with those that the lanes give back, and stay so from step to step.
#![tactic(auto)]

mod held;
mod law;

pub use held::all_named;
pub use law::held_law;
