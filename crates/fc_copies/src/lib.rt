//! Copies of commands.
//!
//! A command owns the names that it gives, and an entry owns its command. Whoever has lines that were read by reference alone, and
//! is to answer them, takes a copy of each command first.
#![tactic(auto)]

pub mod copy;
