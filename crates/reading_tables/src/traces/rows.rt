//! The rows of the table: `what | text | answer`.
//!
//! What is read is `first line`; `notes` or `lane notes`, what an entry did that isn't of a lane or is; `request`; `reply`; `fault`,
//! the reply of a line with a fault in its words; `rows 2`, so many rows of a report; `entries 64` or `entries 256`, entries from
//! number 0 on, of a store with grains of so many KiB. Blanks around each part aren't part of it. A text is written as `tables` says.

use crate::traces::readers::{What, read};
use fc_base::size::GrainSize;
use std::alloc::{AllocError, Global};
use tables::rows::{TableRow, three_parts};
use tables::written::bytes_of;

/// A row of the table.
#[derive(Drop)]
pub struct Row {
    /// What is read.
    what: What,
    /// The bytes that are read.
    text: Vec<u8>,
    /// How they are read.
    answer: Vec<u8>,
}

/// What is read under this name.
fn what_of(name: &str) -> Option<What> {
    match name {
        "first line" => Some(What::FirstLine),
        "notes" => Some(What::Notes { in_lane: false }),
        "lane notes" => Some(What::Notes { in_lane: true }),
        "request" => Some(What::Request),
        "reply" => Some(What::Reply),
        "fault" => Some(What::Fault),
        "entries 64" => Some(What::Entries(GrainSize::K64)),
        "entries 256" => Some(What::Entries(GrainSize::K256)),
        _ => Some(What::Rows(name.strip_prefix("rows ")?.parse::<u64>().ok()?)),
    }
}

impl TableRow for Row {
    fn of(alloc: Global, text: &str) -> Result<Option<Row>, AllocError> {
        let Some((what, text, answer)) = three_parts(text) else {
            return Ok(None);
        };
        let Some(what) = what_of(what.trim()) else {
            return Ok(None);
        };
        let Some(text) = bytes_of(alloc, text)? else {
            return Ok(None);
        };
        let answer = Vec::from_slice(alloc, answer.trim().as_bytes())?;
        Ok(Some(Row { what, text, answer }))
    }

    fn differing(&self, alloc: Global) -> Result<Option<String>, AllocError> {
        let reading = read(alloc, self.what, self.text.as_slice())?;
        if reading.answer.as_bytes() != self.answer.as_slice() {
            return Ok(Some(reading.answer));
        }
        if !reading.is_printed_back(self.text.as_slice()) {
            return Ok(Some(String::from_str(alloc, "isn't printed back")?));
        }
        Ok(None)
    }
}
