//! The line grammar against a table that was made by hand.
//!
//! A row is `scope | line | answer`: where a line stands, its bytes, and what it is read as (see `rows`). A line that is read as a
//! command is read once more from its canonical form.
//!
//! In reading order: `rows` (the rows of the table), `answers` (what a line is read as).

mod answers;
mod rows;

pub use rows::Row;
