//! Decisions that prepare or start mappings: one, or all members of a group at once.
//!
//! Each `decide_..` is `decide` of `fc_books/specs/Deciding.antt` for its command. That of a start also names the loop of
//! restores that it found: it is asked for exactly where nothing else refuses. Want of memory alone is free, and changes
//! nothing.
//!
//! In reading order: `chosen` (which mappings a command prepares or starts), `start_refusal` (why not), `activate` (what
//! becoming active does to them), `prestartfcmap`, `trigger` (a start, with the background work that it sets),
//! `startfcmap`, `startfcconsistgrp` (groups, prepared or started).
#![tactic(auto)]

mod activate;
mod chosen;
mod prestartfcmap;
mod start_refusal;
mod startfcconsistgrp;
mod startfcmap;
mod trigger;

pub use prestartfcmap::decide_prestartfcmap;
pub use startfcconsistgrp::{decide_prestartfcconsistgrp, decide_startfcconsistgrp};
pub use startfcmap::decide_startfcmap;
