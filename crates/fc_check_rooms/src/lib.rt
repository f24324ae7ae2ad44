//! Which grains of volumes occupy memory, as a judge of printed histories keeps it: one mark for each grain, in plain
//! lists.
//!
//! `Rooms` is seen as the rooms of `fc_base`, `specs/Room`. `follow_entry` notes what an entry of a lane tells
//! (`fc_rules`, `specs/Rooms`), `follow_events` what the events of a decision do, all over all grains; `used` counts. There
//! are no disks here, and no code of what makes entries.
//!
//! To read: `room` (one volume), `rooms` (all of them), and `notes`, which has what they are told.
#![tactic(auto)]

mod notes;
mod room;
mod rooms;

pub use rooms::Rooms;
