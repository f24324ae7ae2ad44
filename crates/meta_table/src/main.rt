//! Metadata against a table that was made by hand: stops at every call of a script of folds and batches, damaged bytes, disks of
//! few bytes.
//!
//! A row of standard input is `what | answer` (see `rows`). Each row that comes out otherwise is printed, with what came out, and
//! last how many rows there are and how many of them differ.
//!
//! In reading order: `rows` (the rows of the table), `answers` (what comes out), `found` (what a disk stands for), `script` (the
//! script's steps), `whole` (a disk on which each part of an image stands). `tables` compares and prints.
#![tactic(auto)]

mod answers;
mod found;
mod rows;
mod script;
mod whole;

use crate::rows::Row;
use std::io;
use tables::rows::compare_rows;

fn main(rt: HostRuntime) -> io::Result<()> {
    compare_rows::<HostRuntime, Row>(&rt, rt.alloc())
}
