//! The rows of the table: `what | answer`.
//!
//! - `stop 7`: the script is played over a disk that stops at call 7. Answered is that call, where all before it were those of the
//!   whole script and were done; then what the disk stands for, and what it stands for where a batch, a fold and a batch follow:
//!   `write 73 1: 100 2, then 200 1024` with the birth of an image and its lost grains as bits, or `nothing` where none can follow.
//! - `small 9-12`, `whole 9-12`: each byte from 9 to 12 is made 255, one at a time, of a disk with a small image, or with one
//!   that has each part. Answered is whether an image is found then, or why none is; for each of these bytes it must be the same.
//! - `room 116`: what has room on a disk of 116 bytes: nothing, the small image, an empty batch as well, a record in it.
//! - `calls 116`: how many calls are done there of two empty batches and a fold, what refuses the next, and what then stands there.
//!
//! Blanks around each part aren't part of it.

use crate::answers::{What, answer_of};
use std::alloc::{AllocError, Global};
use tables::rows::TableRow;

/// A row of the table.
#[derive(Drop)]
pub struct Row {
    /// What is tried.
    what: What,
    /// What comes out.
    answer: Vec<u8>,
}

/// The first and the last of some places; of one alone, it is both.
fn places_of(text: &str) -> Option<(u32, u32)> {
    let (first, last) = text.split_once('-').unwrap_or((text, text));
    Some((first.parse::<u32>().ok()?, last.parse::<u32>().ok()?))
}

/// What these words try.
fn what_of(words: &str) -> Option<What> {
    let (kind, rest) = words.split_once(' ')?;
    let (first, last) = places_of(rest)?;
    match kind {
        "stop" => Some(What::Stop(first)),
        "small" => Some(What::Small { first, last }),
        "whole" => Some(What::Whole { first, last }),
        "room" => Some(What::Room(first)),
        "calls" => Some(What::Calls(first)),
        _ => None,
    }
}

impl TableRow for Row {
    fn of(alloc: Global, text: &str) -> Result<Option<Row>, AllocError> {
        let Some((words, answer)) = text.split_once('|') else {
            return Ok(None);
        };
        let Some(what) = what_of(words.trim()) else {
            return Ok(None);
        };
        let answer = Vec::from_slice(alloc, answer.trim().as_bytes())?;
        Ok(Some(Row { what, answer }))
    }

    fn differing(&self, alloc: Global) -> Result<Option<String>, AllocError> {
        let answer = answer_of(alloc, self.what)?;
        if answer.as_bytes() == self.answer.as_slice() {
            return Ok(None);
        }
        Ok(Some(answer))
    }
}
