//! Simulated disks: what all crates above keep their grains on.
//!
//! A disk (`Mdisk`) is a list of grains, each a list of bytes. Any read or write of a grain may fail. What each call
//! leaves is promised whatever it answers: a read never changes what the disk holds; a write changes its grain alone,
//! to the bytes where it answers Ok, to any bytes where it failed, not at all where it found no memory. Every read and
//! write is counted, and a failure comes only where the count of faults rose or stands at its end.
//!
//! `MemDisk` is flat: its reads and writes take no memory. `ThinDisk` takes memory for written grains alone, and a
//! grain never written reads as zeros. Both fail only at an armed fault. `FailDisk` is flat and fails at the calls that
//! it is told. A boxed disk is a disk, so that the crates above are generic in `D: Mdisk`.
//!
//! Files: `mdisk` (the trait; its words are in `specs/Disk.antt`), `boxed`, `disks` (several disks at their places),
//! `mem` and `thin`, which are `armed` over grains of two kinds (the trait `grains`; `flat`, `thin_grains`), `fail`,
//! `counts`, and `ready` (fresh disks, known by their calls and faults). `proofs/DiskList.antt` has what crates above cite of a list of disks in which one changed.
#![tactic(auto)]

mod armed;
pub mod boxed;
mod counts;
pub mod disks;
pub mod fail;
mod flat;
mod grains;
pub mod mdisk;
pub mod mem;
pub mod ready;
pub mod thin;
mod thin_grains;
