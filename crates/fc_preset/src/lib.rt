//! Presets over a store: in place of one line others are asked, each by what the one before was
//! answered.
//!
//! `asking` asks for an object and reads what was made; `stages` has a function for each stage, the
//! volume, the mapping, its start and what undoes them; `preset` begins with the source of a
//! preset, and answers any single line. `specs/Stages` says what a stage leaves.
#![tactic(auto)]

mod asking;
mod preset;
mod stages;

pub use preset::{answer_line, run_preset};
