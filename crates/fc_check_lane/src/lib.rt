//! Whether an entry of a lane may come next after what was told: a judge's answer, from its own plain record.
//!
//! The record, `Known`, has no chain, bitmap, lane or store of what makes entries: chains are a plain list of slots
//! (`model_slots`, `fc_model`), plain volumes have one byte for each block (`fc_check_picture`). `Known::is_next` answers exactly
//! whether the entry is a right step of a legal history (`fc_legal`, `specs/Steps`), for every read, write, copy, cleaning and
//! worker's turn. `Known::next_grain` is the grain at which background work of a mapping goes on (`specs/Seconds` there). Both ask
//! that grains have numbers below 2^32, as all have after entries that are right. Want of memory is free.
//!
//! `Known::follow` keeps what such an entry did.
//!
//! To read: `volume`, `known`, `items` and `copy` (the record), `inside` (where an access lies), `steps` (what a write or a fill
//! does), `reading`, `writing` and `filling` (what each may answer), `turn` (which grain a worker takes, and where the
//! work of a mapping goes on), `next`, which has the call, and `after` (what is kept after an entry).
#![tactic(auto)]

mod after;
mod copy;
mod filling;
mod inside;
mod items;
mod known;
mod next;
mod reading;
mod steps;
mod turn;
mod volume;
mod writing;

pub use after::done_write;
pub use items::{copy_items, push_item};
pub use known::Known;
pub use volume::VolumeSize;
