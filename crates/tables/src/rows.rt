//! The rows of a table, each compared.

use std::alloc::{AllocError, Global};
use std::io;

/// A row of a table.
pub trait TableRow: Drop {
    /// The row of a text. None where it isn't one; an error for want of memory alone.
    fn of(alloc: Global, text: &str) -> Result<Option<Self>, AllocError>;

    /// What the row is read as, where that isn't what it says. None where it is; an error for want of memory alone.
    fn differing(&self, alloc: Global) -> Result<Option<String>, AllocError>;
}

/// The three parts of a row, parted by its first two bars. None where there are fewer.
pub fn three_parts(text: &str) -> Option<(&str, &str, &str)> {
    let (first, rest) = text.split_once('|')?;
    let (second, third) = rest.split_once('|')?;
    Some((first, second, third))
}

/// How many rows of a table there were, and how many differ.
#[derive(Clone, Copy)]
pub struct Counts {
    /// The rows.
    pub rows: u64,
    /// Those that differ.
    pub differ: u64,
}

/// No rows.
pub const NO_ROWS: Counts = Counts { rows: 0, differ: 0 };

/// What a text is read as, where that isn't what it says as a row; or that it isn't one.
fn differing<T: TableRow>(alloc: Global, text: &str) -> Result<Option<String>, AllocError> {
    match T::of(alloc, text)? {
        Some(row) => row.differing(alloc),
        None => Ok(Some(String::from_str(alloc, "no row")?)),
    }
}

/// Compares a row, if the text is one: a blank line and a comment aren't. Prints it where it differs.
pub fn compare_row<R: Print, T: TableRow>(
    rt: &R,
    alloc: Global,
    text: &str,
    counts: Counts,
) -> io::Result<Counts> {
    if text.is_empty() || text.starts_with('#') {
        return Ok(counts);
    }
    let told = differing::<T>(alloc, text)?;
    if let Some(told) = &told {
        println!(rt; "{text}: {told}")?;
    }
    Ok(Counts {
        rows: counts.rows.saturating_add(1),
        differ: counts.differ.saturating_add(u64::from(told.is_some())),
    })
}

/// Compares the rows of standard input. Prints each that is read as something else, with what it was read as, and last how many
/// rows there are and how many of them differ.
pub fn compare_rows<R: Input + Print, T: TableRow>(rt: &R, alloc: Global) -> io::Result<()> {
    let mut counts = NO_ROWS;
    for line in rt.lines(alloc) {
        counts = compare_row::<R, T>(rt, alloc, line?.as_str(), counts)?;
    }
    println!(rt; "{} rows, {} differ", counts.rows, counts.differ)
}
