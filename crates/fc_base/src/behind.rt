//! What a line asks behind its last request.

use crate::command::Preset;
use crate::name::{Name, Ref};

/// What a line asks behind its last request, by what that was answered.
#[derive(Drop)]
pub enum Behind {
    /// Nothing; and so many seconds pass if it was done.
    Passing(u32),
    /// It asked for a volume. If that was made, a mapping from this source to it is next.
    Mapping {
        source: Ref,
        preset: Preset,
        name: Option<Name>,
    },
    /// It asked for a mapping to this volume. If that was made, its start is next; if not, the volume is removed.
    Start {
        volume: u32,
    },
    /// It asked for the start of this mapping. If that wasn't done, the mapping is removed, and then the volume.
    Undo {
        map: u32,
        volume: u32,
    },
}
