//! What is written of a disk of metadata and the disks of data that a stop left.
//!
//! `put_state` writes the rows of all mappings, as `lsfcmap -delim :` has them, and what the first block of each volume reads
//! (`fc_recovered`); or that there is no image. No line is answered of it, so nothing settles.
//!
//! In reading order: `registry` and `sheet` (an image's tables and chains, as reports ask for them) and `state`, which writes
//! them; of the definitions `specs/Text` (the rows and the reads) and `specs/Recovering` (which text it is).
#![tactic(auto)]

mod registry;
mod sheet;
mod state;

pub use state::{Unwritten, put_first_state, put_state, rows_of};
