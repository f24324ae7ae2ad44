//! What comes before the actors of a block begin: `main` is told the block's faults, and the actors' names come.
//!
//! To read: `faults`, `names`; in `specs/`: `Telling` (what telling the faults leaves).
#![tactic(auto)]

pub mod faults;
pub mod names;
