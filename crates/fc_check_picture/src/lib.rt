//! Plain volumes, block by block: one value for each block of a grain, or the grain was lost.
//!
//! A `Picture` is seen as the picture of `fc_entry`, `specs/Picture`: the value of a block stands for all bytes of
//! it. What a block holds is a `Mark`: for a judge of printed histories the byte that was written, since blocks are
//! written whole and with one byte. `is_lost`, `part` and `holds` answer what a read of it may say; `write`,
//! `tear` and `apply` do what entries tell (`fc_entry`, `specs/PlainStep`). A write costs one grain, a trigger a
//! copy of each target's grains. There are no chains, bitmaps or disks here, and no code of what makes entries.
//!
//! To read: `mark` (what a block holds), `blocks`, `grain` (one grain), `volume` (one volume), `changes` (all of
//! them), `bytes` (runs of bytes), and `picture`, which has the calls.
#![tactic(auto)]

mod blocks;
mod bytes;
mod changes;
mod grain;
pub mod mark;
mod picture;
mod volume;

pub use picture::Picture;
pub use volume::block_in_grain;
