//! The image: all that the metadata of a store says, as plain data.
//!
//! A `MetaImage` has the next ids, the tables, the chains of copies with what each slot holds, the lost grains of the
//! volumes, and what changed since the last triggers of the mappings that are followed. Between two images the changes are
//! told by records (`MetaRecord`), one for each step of a grain; `specs/Records.antt` says what each record makes of an image.
//!
//! Contracts see an image as the record of its fields, each list as a plain list, and words as a list of numbers below 2^64,
//! of which bit `g mod 64` of word `g / 64` is grain `g`.
//!
//! To read: `record`, `words`, `image`, `apply` (an image with records applied).
#![tactic(auto)]

mod apply;
mod image;
mod record;
mod words;

pub use apply::with_records;
pub use image::{
    ChainList, ChangesList, GroupList, LostList, MappingList, MetaChain, MetaChanges, MetaImage,
    MetaLost, MetaSlot, SlotList, VolumeList,
};
pub use record::MetaRecord;
pub use words::Words;
