//! Values compared as wholes.
//!
//! `Same::is_same` answers exactly whether two values are one: of small values by `==`, of lists item by item, of names byte by
//! byte, of commands, effects, refusals and replies field by field. A judge of printed histories compares so what an entry tells
//! with what is decided, and what was asked with what a script asks. Nothing here takes memory.
//!
//! In reading order: `same` (the comparison, of small values, lists and values that may be missing), `command` (of names, references
//! and commands), `effect`, `refusal` and `reply`.
#![tactic(auto)]

pub mod command;
mod effect;
mod refusal;
mod reply;
pub mod same;
