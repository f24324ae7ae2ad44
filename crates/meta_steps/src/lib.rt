//! What programs that try metadata share: a disk that keeps account of its calls, and the first image on a disk.
//!
//! `KeptMeta` keeps account of the calls that a disk was asked for (`kept`); its `leads` says which they are. `first` has a plain
//! image, and begins with an image on a disk.
#![tactic(auto)]

pub mod first;
pub mod kept;
