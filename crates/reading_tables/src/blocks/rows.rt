//! The rows of the table: `line / line / .. | reading`.
//!
//! Blanks around each line and around the reading aren't part of it. A line is written as `tables` says.

use crate::blocks::readings::reading_of;
use std::alloc::{AllocError, Global};
use tables::rows::TableRow;
use tables::written::bytes_of;

/// A row of the table.
#[derive(Drop)]
pub struct Row {
    /// The lines of a session, without their ends.
    lines: Vec<Vec<u8>>,
    /// What they are read as.
    reading: Vec<u8>,
}

impl TableRow for Row {
    fn of(alloc: Global, text: &str) -> Result<Option<Row>, AllocError> {
        let Some((session, reading)) = text.split_once('|') else {
            return Ok(None);
        };
        let mut lines = Vec::new(alloc);
        for line in session.split('/') {
            match bytes_of(alloc, line)? {
                Some(line) => lines.push(line)?,
                None => return Ok(None),
            }
        }
        let reading = Vec::from_slice(alloc, reading.trim().as_bytes())?;
        Ok(Some(Row { lines, reading }))
    }

    fn differing(&self, alloc: Global) -> Result<Option<String>, AllocError> {
        let reading = reading_of(alloc, self.lines.as_slice())?;
        if reading.as_slice() == self.reading.as_slice() {
            return Ok(None);
        }
        Ok(Some(String::from_utf8_lossy(alloc, reading.as_slice())?))
    }
}
