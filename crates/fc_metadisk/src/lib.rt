//! The disk that metadata lives on, and what a crash may leave of it.
//!
//! A `MetaDisk` is a row of bytes that is read, written and synced. Behind a sync that answered Ok a crash leaves what a read
//! gives; between two syncs each range that was written may hold any bytes, and the bytes outside stay. A disk tells what a
//! crash at this moment may leave and what one at some moment since an earlier one might have left, so that a contract can
//! speak of every moment inside a call (`LeavesOnly` of `specs/Disk.antt`).
//!
//! `MemMeta` is a disk in memory that never fails. `StopMeta` fails from a given write or sync on, as if the machine had
//! stopped there; `after` is the disk that is found then.
//!
//! To read: `specs/Disk.antt`, `meta_disk`, `mem`, `stop`.
#![tactic(auto)]

mod mem;
mod meta_disk;
mod stop;

pub use mem::MemMeta;
pub use meta_disk::MetaDisk;
pub use stop::StopMeta;
