//! What the events of a command do to the parts of a lane: memory is taken before any is done, and each is then applied
//! without taking any.
//!
//! The parts are the chains (`fc_chain`), the physical grains (`fc_grains`), how hosts may reach each volume (`access`), the
//! background work (`fc_pick`), and the changed grains of incremental mappings (`fc_diff`). `specs/Parts` says when they
//! stand for what is told (`fc_rules`, `specs/LaneTold`) and what an event does to those beside the chains, and
//! `specs/Events` what it needs of the chains and does to them.
//!
//! In reading order: `access` (how hosts reach the volumes), `ready` (what the new volumes and the background work
//! need), `parts` (`reserve_events` makes ready for the events of a command, `do_event` does one to the parts beside the
//! chains), and `chains` (`ready_rows` makes ready for incremental mappings that begin, `follow_event` does one event to the
//! chains and notes what it changes for incremental mappings: slots that leave are noted by the chains before they do, and
//! the new slots of a trigger begin with what was noted before it).
#![tactic(auto)]

pub mod access;
pub mod chains;
pub mod parts;
mod ready;
