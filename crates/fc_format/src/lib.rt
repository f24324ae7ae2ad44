//! How an image and its records stand on a disk.
//!
//! A disk has two halves. A half is a gate (1 byte), a generation (8), the length of an image (4), the image, and then
//! batches of records, each a gate, a length (4) and records, with a closed gate behind the last. A gate is open where it is 1.
//! Numbers stand with their highest byte first; a list has a count of 4 bytes before it, a name a length of 1; an absent id
//! is the greatest number of its 4 bytes.
//!
//! - What is written: `half_with` and `batch_with`, the bytes behind a gate (`specs/Bytes.antt`).
//! - What is read: `image_in`, the image of an open half with its open batches applied, or the place of the first byte that
//!   doesn't continue the format (`specs/Reading.antt`, `specs/Fields.antt`).
//! - What a whole disk stands for: `recovered` of `specs/Halves.antt`.
//!
//! To read: the four files of `specs/`, then `half`, `cursor`, `field`, `codes`, `ids`, `tables`, `chains`, `whole`, `records`, `write`, `read`.
//! `proofs/RoundTrip.antt` shows that what is written is read.
#![tactic(auto)]

mod chains;
mod codes;
mod cursor;
mod field;
mod half;
mod ids;
mod read;
mod records;
mod tables;
mod whole;
mod write;

pub use cursor::ReadError;
pub use half::Half;
pub use read::image_in;
pub use write::{batch_len, batch_with, half_with};
