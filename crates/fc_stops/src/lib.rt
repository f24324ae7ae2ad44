//! Decisions that stop mappings: one, or the members of a group, one after the other.
//!
//! Each `decide_..` is `decide` of `fc_books/specs/Deciding.antt` for its command. Want of memory alone is free, and
//! changes nothing.
//!
//! In reading order: `stop_effects` (what a stop of a mapping does), `background_after` (background work after stops),
//! `stopfcmap`, `stopfcconsistgrp`.
#![tactic(auto)]

mod background_after;
mod stop_effects;
mod stopfcconsistgrp;
mod stopfcmap;

pub use stopfcconsistgrp::decide_stopfcconsistgrp;
pub use stopfcmap::decide_stopfcmap;
