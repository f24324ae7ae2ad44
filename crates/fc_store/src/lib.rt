//! The store: the control part and all lanes under one owner.
//!
//! `command` does a command and makes its entry, by any actor; `line` answers a line, `lines` an access grain by grain, and
//! `advance` lets seconds pass. A preset whose source names a volume is no line of the store's own: `fc_preset` asks others in its
//! place. `ready` makes the lane of a grain ready for an entry, and `stepping` makes such an entry step by step. `store_part` takes
//! a store apart into the control part and the lanes in order, and puts such parts together again; `specs/StoreParts` says which
//! parts a store has.
#![tactic(auto)]

mod advance;
mod chains;
mod command;
mod fill;
mod line;
mod lines;
mod new;
mod phases;
mod plan;
mod ready;
mod settling;
mod size;
mod stepping;
pub mod store;
pub mod store_part;
mod tables;
