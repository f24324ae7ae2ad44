//! A session whose metadata stands on a disk that stops: what is acknowledged until then, and what is recovered behind it.
//!
//! `run_until` answers the lines of a session by a noted store (`fc_noted`), until a call of the disk of metadata fails or all are
//! answered. It writes the text of the entries that were acknowledged, how far the session came, and then what a disk that is found
//! after the stop and the disks of data say (`fc_recovery_text`).
//!
//! Blocks name no line here: the words of their lines are those of no command (`specs/Reading`).
//!
//! In reading order: `lines` (a noted store answers the lines of a session), `nowhere` (a sink for what nobody reads), `far` (how far a
//! session came), and `until`, which has the call; of the definitions `specs/Stopped` (how a call ends).
#![tactic(auto)]

mod countdown;
mod far;
mod lines;
mod nowhere;
mod until;

pub use until::{META_BYTES, run_over, run_until};
