//! What a stopped store's metadata and disks say, without a store: its volumes, read as hosts would read them.
//!
//! `Recovered` is an image of metadata over the disks of all lanes as they came back (`specs/Recovered`). Where a volume came back
//! without a disk, it gets one with zeros when a `Recovered` is made (`specs/Readying`). A read answers what the chains, the lost
//! grains and the disks say (`specs/Showing`, `specs/Answering`); and so what plain volumes hold after what the metadata stands for,
//! with the one grain of a write that was under way (`RecoversTo`, which `Recoverable` of `fc_kept` has).
//!
//! In reading order: `named_disk` (a disk with the volume that it was of), `lane_size` (a lane among so many), `lane_disks` (the disks
//! of a lane), `chains` (who holds a volume's grain, by the image; `specs/Walk`), `lost`, `recovered` (the type) and `read`.
#![tactic(auto)]

mod chains;
mod lane_disks;
mod lane_size;
mod lost;
mod named_disk;
mod read;
mod recovered;

pub use lane_disks::LaneDisks;
pub use named_disk::NamedDisk;
pub use recovered::Recovered;
