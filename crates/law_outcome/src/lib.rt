//! One outcome of a call of the program, a law beside `flashcopy`.
//!
//! Two calls that ask for the same, over the same bytes and over disks of the same kinds in each lane, and in which nothing failed,
//! tell the same and write the same, where no block is in the bytes (`specs/OneOutcome`). Whoever has the contract of `flashcopy`
//! for two calls learns it of `outcome_law`.
#![tactic(auto)]

pub mod outcome;
