//! A store whose metadata stand on a disk of their own, so that a stop loses nothing that was answered.
//!
//! A `Noted` owns a store and the writer of its metadata (`fc_meta`). It answers lines step by step (`make_step`): each step calls
//! either the disks of data or that of metadata, and never both. A step of data is noted by a record behind it; a write of a grain
//! that an incremental mapping follows is marked before it; a command has metadata made anew, as one image. Wherever a stop falls,
//! recovery gives what the answered entries lead to, with all, some moves, or none of the one that wasn't answered; but for one grain
//! of it, which nobody reads or which counts as changed (`fc_kept`, `law_crash`).
//!
//! To read: `fc_held` (the disks that lanes hold, with their names), `law_noted` (how far the actions of an entry came), `fc_marks` (a
//! record is put; writes that are marked); then `specs/Noted` (when a noted store stands for a history), `specs/Stopping` (what a stop
//! leaves), `noted` (the store, how it begins and ends), `step` (one step), `line` (all steps of a line), `asking` (how an entry
//! begins), `command`.
#![tactic(auto)]

mod asking;
mod command;
mod line;
mod noted;
mod step;

pub use noted::{Noted, UnderWay, first_store};
