//! The rows of the table: `words | answer`.
//!
//! Words are parted by blanks, and each is written as `tables` says.

use crate::answers::answer_of;
use std::alloc::{AllocError, Global};
use tables::rows::TableRow;
use tables::written::text_of;

/// A row of the table.
#[derive(Drop)]
pub struct Row {
    /// The words.
    words: Vec<String>,
    /// What they ask for.
    answer: String,
}

impl TableRow for Row {
    fn of(alloc: Global, text: &str) -> Result<Option<Row>, AllocError> {
        let Some((list, answer)) = text.split_once('|') else {
            return Ok(None);
        };
        let mut words = Vec::new(alloc);
        for part in list.split_whitespace() {
            let Some(word) = text_of(alloc, part)? else {
                return Ok(None);
            };
            words.push(word)?;
        }
        let answer = String::from_str(alloc, answer.trim())?;
        Ok(Some(Row { words, answer }))
    }

    fn differing(&self, alloc: Global) -> Result<Option<String>, AllocError> {
        let answer = answer_of(alloc, self.words.as_slice())?;
        if answer.as_str() == self.answer.as_str() {
            return Ok(None);
        }
        Ok(Some(answer))
    }
}
