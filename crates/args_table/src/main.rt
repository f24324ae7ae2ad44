//! The grammar of the program's words against a table that was made by hand.
//!
//! A row of standard input is `words | answer`: a list of words, and what it asks for (see `rows` and `answers`). Each row
//! whose words are read as something else is printed, with what they were read as, and last how many rows there are and how
//! many of them differ.
//!
//! In reading order: `rows` (the rows of the table), `answers` (what words ask for, in words). `tables` compares and prints.
#![tactic(auto)]

mod answers;
mod rows;

use crate::rows::Row;
use std::io;
use tables::rows::compare_rows;

fn main(rt: HostRuntime) -> io::Result<()> {
    compare_rows::<HostRuntime, Row>(&rt, rt.alloc())
}
