//! The readers of lines, of blocks and of traces against tables that were made by hand.
//!
//! Standard input has one table after the other. A line `== words`, `== blocks` or `== traces` begins one, and the lines behind it are
//! its rows. Each row that is read as something else is printed, with what it was read as, and for each table how many rows there
//! are and how many of them differ.
//!
//! In reading order: `words`, `blocks` and `traces` (the tables), and this file. `tables` compares and prints.
#![tactic(auto)]

mod blocks;
mod traces;
mod words;

use std::alloc::Global;
use std::io;
use tables::rows::{Counts, NO_ROWS, compare_row};

/// The tables of standard input.
#[derive(Clone, Copy)]
enum Table {
    /// Lines.
    Words,
    /// Sessions with blocks.
    Blocks,
    /// Texts of traces.
    Traces,
}

impl Table {
    /// The table that a line begins, if it begins one.
    fn of(line: &str) -> Option<Table> {
        match line {
            "== words" => Some(Table::Words),
            "== blocks" => Some(Table::Blocks),
            "== traces" => Some(Table::Traces),
            _ => None,
        }
    }

    /// Its name.
    fn name(self) -> &'static str {
        match self {
            Table::Words => "words",
            Table::Blocks => "blocks",
            Table::Traces => "traces",
        }
    }
}

/// Compares a row of a table, as `compare_row` does. Before the first table begins there is none.
fn compare<R: Print>(
    rt: &R,
    alloc: Global,
    table: Option<Table>,
    text: &str,
    counts: Counts,
) -> io::Result<Counts> {
    match table {
        Some(Table::Words) => compare_row::<R, words::Row>(rt, alloc, text, counts),
        Some(Table::Blocks) => compare_row::<R, blocks::Row>(rt, alloc, text, counts),
        Some(Table::Traces) => compare_row::<R, traces::Row>(rt, alloc, text, counts),
        None => {
            println!(rt; "{text}: in no table")?;
            Ok(counts)
        }
    }
}

/// Prints how many rows a table has, and how many of them differ.
fn print_counts<R: Print>(rt: &R, table: Option<Table>, counts: Counts) -> io::Result<()> {
    match table {
        Some(table) => println!(rt;
            "{}: {} rows, {} differ",
            table.name(),
            counts.rows,
            counts.differ
        ),
        None => Ok(()),
    }
}

/// Compares the rows of all tables.
fn compare_tables<R: Input + Print>(rt: &R, alloc: Global) -> io::Result<()> {
    let mut table = None;
    let mut counts = NO_ROWS;
    for line in rt.lines(alloc) {
        let line = line?;
        match Table::of(line.as_str()) {
            Some(next) => {
                print_counts(rt, table, counts)?;
                table = Some(next);
                counts = NO_ROWS;
            }
            None => counts = compare(rt, alloc, table, line.as_str(), counts)?,
        }
    }
    print_counts(rt, table, counts)
}

fn main(rt: HostRuntime) -> io::Result<()> {
    compare_tables(&rt, rt.alloc())
}
