//! The text of a trace, read back.
//!
//! Reading goes from the left, piece by piece: a word that must stand, one of some words, a number. Each reader takes what it
//! reads from the front of the bytes and hands out what is behind it, or says how many bytes are left from the first one that
//! can't go on what was begun. Readers that are put one behind the other stay exact: what they take is the text of a value, each
//! text of a value is taken, and they stop at the first byte with which no such text goes on (`StopsAt`). `read_header` is made
//! of them. The texts of entries are to come.
//!
//! In reading order: `pieces`, then `header`.
#![tactic(auto)]

pub mod header;
pub mod pieces;
