//! Decisions on objects: volumes, mappings and groups are made and removed, faults are armed, reports are given.
//!
//! Each `decide_..` is `decide` of `fc_books/specs/Deciding.antt` for its command. Want of memory alone is free, and
//! changes nothing.
//!
//! In reading order: `mkvdisk`, `rmvdisk`, `mkfcmap`, `rmfcmap`, `mkfcconsistgrp`, `rmfcconsistgrp`, `armfault`, `advance`
//! and `reports`, each of its command; last `objects` (by the kind of command).
#![tactic(auto)]

mod advance;
mod armfault;
mod mkfcconsistgrp;
mod mkfcmap;
mod mkvdisk;
mod objects;
mod reports;
mod rmfcconsistgrp;
mod rmfcmap;
mod rmvdisk;

pub use objects::{decide_object, is_object, is_report};
pub use reports::decide_report;
