//! The chains of copies of one lane: which grain of which volume is the content of which copy, and what has
//! to be copied before a grain is overwritten.
//!
//! A `Cascade` is seen as the lane's sheet of slots (`fc_base`, `specs/Sheet`), which always has the facts
//! of `specs/SheetFacts`, with each chain in one place (`specs/Contiguous`), so that a walk ends with its chain.
//! Each call is its definition: `holder`, `needer`, `next_lacking`, `next_needed`, `held_count`, `need_count`, `direct`,
//! `unneeded` and `used` are those of `specs/Column`, `specs/Counts` and `specs/RestoreGraph`; `counts` tells both counts of a
//! mapping's slot; `plan` gives the moves of `specs/Moves` in
//! their order, each once, and needs room for one move a volume; `moved`, `written` and `torn` change the pairs
//! as `specs/SheetStep` says; `grains`, `is_live` and `held` tell what the sheet has. `reserve` makes room for the slots that the events of a command can make
//! (`specs/Room`); `apply_event` then does one event after the other, as `specs/SheetStep` says; `loop_of` tells the loop of
//! the restore graph that a trigger would leave, tried on a copy without what slots hold. Only `reserve`, `direct`,
//! `unneeded` and `loop_of` take memory. That the planned moves are safe, one after the other, is the law of
//! `fc_moves`; that every step keeps the facts is the law of `fc_sheets`.
//!
//! The parts have crates of their own: the slots and walks along chains (`fc_slots`), the directory of where they stand
//! (`fc_places`), the table of slots and the events of commands (`fc_events`), a trigger tried on a copy (`fc_loops`), and the
//! counts that are kept of each slot (`fc_tallies`). A move or a write changes the slots of its volume alone, at the places that
//! the directory lists, and counts for them and one holder. No clause speaks of this.
//!
//! To read: `plan` (what must move), `cascade`, which has the calls, and `listing` (all slots). The words are in `specs/`: `Chains`, `Planning` and `Room`.
#![tactic(auto)]

mod cascade;
mod listing;
mod plan;

pub use cascade::Cascade;
