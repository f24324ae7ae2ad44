//! The line of a reply, read back.
//!
//! It stands behind the arrow of an entry's line. `read_reply` answers what it says and its length, or the
//! place of the first byte with which no such line goes on; `read_fault` does so for a line with a fault in its
//! words, since `limit 5` is a text of a refusal and of such a fault. The line of a report says how many rows
//! it has; the rows stand elsewhere.
//!
//! In reading order: `faults`, what is wrong with the words of a line; `refusals`, why a command was refused;
//! `data`, the bytes of a read; `replies`, all of them; `laws`, that each reply is read back, and that no line
//! of a reply begins another.
#![tactic(auto)]

pub mod data;
pub mod faults;
pub mod laws;
pub mod refusals;
pub mod replies;
pub mod rows;
