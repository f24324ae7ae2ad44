//! What was asked, as its text tells it.

use fc_base::command::Command;
use fc_base::ids::{GrainNo, MapId};
use fc_base::name::Ref;

/// What was asked, as its text tells it. A host's access and a refused line of one have the same text, and a
/// line with a fault in its words has none: the reply says which it was.
#[derive(Drop)]
pub enum Asked {
    /// A line with a fault in its words.
    Unread,
    /// Blocks of a volume, from 0, are read: by a host, or by a line that was refused.
    Read {
        volume: Ref,
        block: u64,
        count: u32,
    },
    /// Blocks of a volume are written with one byte: by a host, or by a line that was refused.
    Write {
        volume: Ref,
        block: u64,
        count: u32,
        byte: u8,
    },
    /// A grain of a mapping is copied in the background.
    Copy {
        map: MapId,
        grain: GrainNo,
    },
    /// A grain that others need from a mapping's target is handed on.
    Clean {
        map: MapId,
        grain: GrainNo,
    },
    /// A copier's turn in this lane.
    CopyTurn {
        lane: u8,
    },
    /// A cleaner's turn in this lane.
    CleanTurn {
        lane: u8,
    },
    /// A command that neither reads nor writes blocks.
    Command(Command),
}
