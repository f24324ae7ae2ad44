//! Actors on threads over one yard: each number once, each part with its share of what was told, whatever the
//! schedule.
//!
//! The parts are counters. An entry `p` says that the counter at `p` went up by one, or all did where there is
//! no such part.
#![tactic(auto)]

pub mod counter;
pub mod crowd;
#[cfg(test)]
mod tests;
