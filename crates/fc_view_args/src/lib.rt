//! The words of the viewer: what they ask for, read by `clap`.
//!
//! `read_words` answers what the words ask for, for all lists of words: which entry is drawn, and in which form; and nothing where
//! they aren't in the grammar (`wanted_by` in `specs/Grammar`, which names nothing of `clap`'s).
//!
//! In reading order: `wanted` (what words ask for), `command` (the command as `clap` has it), `found` (what is read off the matches),
//! `reading`.
#![tactic(auto)]

mod command;
mod found;
pub mod reading;
pub mod wanted;
