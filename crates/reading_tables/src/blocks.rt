//! The reader of blocks against a table that was made by hand.
//!
//! A row is `line / line / .. | reading`: a session's lines, and what they are read as (see `rows` and `readings`).
//!
//! In reading order: `rows` (the rows of the table), `readings` (what lines are read as).

mod readings;
mod rows;

pub use rows::Row;
