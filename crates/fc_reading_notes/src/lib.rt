//! The lines of what an entry did, read back.
//!
//! They stand behind an entry's own line: the calls of disks, moves, a torn grain, effects, and the line `.`
//! that ends the entry. `read_told` answers what they say and their length, or the place of the first byte with
//! which no such lines go on.
//!
//! In reading order: `stop`, why a text isn't read; `between`, numbers between two bounds; `lines`, a line
//! behind its first word; `notes`, all of them.
#![tactic(auto)]

pub mod between;
pub mod lines;
pub mod notes;
pub mod stop;
