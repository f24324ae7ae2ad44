//! The readers of traces against a table that was made by hand.
//!
//! A row is `what | text | answer`: what is read, its bytes, and how it is read (see `rows` and `reading`). What was read is printed
//! once more by the printers of histories and traces, and must come out as it stood.
//!
//! In reading order: `rows` (the rows of the table), `reading` (how a text is read), `readers` (each kind of text), `entries` (whole
//! entries), `printed` (what was read, printed).

mod entries;
mod printed;
mod readers;
mod reading;
mod rows;

pub use rows::Row;
