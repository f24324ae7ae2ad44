//! All ways in which things may have been told after the entries of a printed history so far.
//!
//! What is told after some entries isn't always one thing: a command that had no memory, and told no effect, may have settled or
//! not. So a judge keeps all ways, mostly one. `Candidates::follow` goes on behind an entry: after it the ways are just those that
//! may be told then (`fc_legal`, `specs/Steps`); where none is left, the entry was wrong. Who keeps more beside each way begins with
//! `first_way` and goes on with `follow_way`, one way at a time.
//!
//! To read: `candidates` (all ways), `first` (the way before the first entry), `way` (one way and one entry, by its request),
//! `apart` (entries of no lane), `refused` (refused accesses and faulty lines), `command` (what commands leave) and `effects`
//! (effects behind those of the settling).
#![tactic(auto)]

mod apart;
mod candidates;
mod command;
mod effects;
mod first;
mod refused;
pub mod way;

pub use candidates::Candidates;
pub use first::first_way;
