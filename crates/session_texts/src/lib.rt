//! Sessions with the histories that they must write, worked out apart from the program.
//!
//! `texts` has sessions as they stand among the examples, and `longer` one line by line.
#![tactic(auto)]

pub mod longer;
pub mod texts;
