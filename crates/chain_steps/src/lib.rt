//! Steps of the chains of a lane beside the plain sheet of the same slots: what tests of chains share.
//!
//! `drawn` draws events and grains by `draws`; `fits` and `taken` answer whether an event, a move or a write fits a sheet, by the
//! definitions; `events` does an event or a torn write that fits in both; `tally` counts what was done.
#![tactic(auto)]

pub mod drawn;
pub mod draws;
pub mod events;
pub mod fits;
pub mod taken;
pub mod tally;
