//! Where slots stand: lists of their places in the order of births, of mappings and of volumes, so that a search halves a list
//! and visits no other slot.
//!
//! A `Directory` has the three lists, and the number of volumes. Contracts see it as `specs/Directory`: `ListsSlots` says that it
//! lists these slots, and each search finds what the definition over all slots says. Only `make_room` takes memory.
//!
//! To read: `index` (one list), `mend` (such a list after an event, behind which most slots stand where they stood) and
//! `directory`. The words are in `specs/`: `Indexing` (a list of places), `Directory` and `Olds` (the old slots of a volume, in
//! the order of births).
#![tactic(auto)]

pub mod directory;
pub mod index;
pub mod mend;
