//! The changed grains of incremental mappings as a judge of printed histories keeps them: one mark for each
//! grain, in plain lists.
//!
//! `Rows` is seen as the rows of `fc_changed`, `specs/Row`. `follow_write` and `follow_torn` note what an entry
//! of a lane tells, `follow_event` what an event of a command does (`fc_follow`, `specs/Following`), all over
//! all grains; `restart` answers with what grains a mapping would start again. There are no words of bits here,
//! and no code of what makes entries.
//!
//! To read: `row` (one mapping that is followed), `rows` (all of them), and `notes`, which has what they are
//! told.
#![tactic(auto)]

mod notes;
mod row;
mod rows;

pub use rows::Rows;
