//! How a text is read: `24`, so many bytes from its front on; or `stops 24`, the place of the first byte with which no such text goes
//! on, or the end of the bytes where they end too early.

use fc_reading_notes::notes::NotTold;
use std::alloc::{AllocError, Global};

/// How a text is read.
#[derive(Drop)]
pub struct Reading {
    /// In words: how many bytes are read, or where they stop.
    pub answer: String,
    /// How many bytes were read.
    pub length: usize,
    /// What they say, printed.
    pub printed: Vec<u8>,
}

impl Reading {
    /// So many bytes are read, and what they say is printed so.
    pub fn whole(alloc: Global, length: usize, printed: Vec<u8>) -> Result<Reading, AllocError> {
        Ok(Reading {
            answer: format!(in alloc; "{length}")?,
            length,
            printed,
        })
    }

    /// The bytes stop at this place.
    pub fn stopped(alloc: Global, place: usize) -> Result<Reading, AllocError> {
        Ok(Reading {
            answer: format!(in alloc; "stops {place}")?,
            length: 0,
            printed: Vec::new(alloc),
        })
    }

    /// The bytes aren't read for this reason.
    pub fn not_told(alloc: Global, stop: NotTold) -> Result<Reading, AllocError> {
        match stop {
            NotTold::Malformed(place) => Reading::stopped(alloc, place),
            NotTold::NoMemory => Err(AllocError),
        }
    }

    /// Whether what was read of the text is printed as it stood.
    pub fn is_printed_back(&self, text: &[u8]) -> bool {
        text.len() >= self.length && &text[..self.length] == self.printed.as_slice()
    }
}
