//! An entry of a trace, read back.
//!
//! `read_entry` reads the next entry of a history from its text in the trace form: its line, what it did, the
//! rows of its report and its end. It answers the length, or the place of the first byte with which no entry of
//! that number goes on.
//!
//! In reading order: `exchanges`, what was asked and answered; `parts`, all that a text tells of an entry;
//! `entries`, the entry itself; `laws`, that each entry is read back, and that what is read next is one.
#![tactic(auto)]

pub mod entries;
pub mod exchanges;
pub mod laws;
pub mod parts;
