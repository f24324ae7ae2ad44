//! The physical grains of one lane's volumes, over simulated disks.
//!
//! `Grains` keeps for each volume its disk and which of its grains are lost, the disks for new volumes (a volume takes the
//! first one of its kind), the disks of volumes that went, one grain of bytes at hand, and the sums of all disks'
//! counts. Contracts see a record of plain data (`specs/Grains`): what each grain of each volume holds, bytes or nothing
//! that can be read, and the sums. A read gives what the grain holds; a write that failed leaves it lost, and only
//! a write that is done ends that; each call tells which calls of disks it made, and no other call changes the sums.
//! Only `new` and `reserve`, and writes of thin disks, take memory; how many grains of a volume occupy it is what its disk
//! counts. A volume is found by binary search.
//!
//! Files: `grains` (the type and what it tells), `making` (volumes come and go), `access` (reads, writes and copies),
//! `copy_error`; inside `volume_disk`, `pool`, `queues`, `sums`, `find`. The words are in `specs/`: `Volumes`, `Grains`,
//! `Calls`, `Quiet`. What crates above cite is in `proofs/Quiet` (disks that can't fail), `proofs/Calling` (a read leaves
//! what grains hold) and `proofs/Rooms` (which grains occupy memory after each call).
#![tactic(auto)]

mod access;
pub mod copy_error;
mod find;
pub mod grains;
mod making;
mod pool;
mod queues;
mod sums;
mod volume_disk;
