//! Why a line or a command is refused. The texts are in docs/MANUAL.md.

use crate::ids::{GroupId, MapId, VolId};
use crate::list::List;
use crate::size::GrainSize;
use crate::state::MapState;

/// The kinds of objects that have ids and names.
#[derive(Clone, Copy, PartialEq, Eq)]
pub enum Kind {
    /// A volume.
    Vdisk,
    /// A FlashCopy mapping.
    Fcmap,
    /// A consistency group.
    Group,
}

/// An option without which its line is refused.
#[derive(Clone, Copy, PartialEq, Eq)]
pub enum RequiredOption {
    /// `-size` of `mkvdisk`.
    Size,
    /// `-seconds` of `advance`.
    Seconds,
    /// `-source` of `mkfcmap` and `mkpreset`.
    Source,
    /// `-target` of `mkfcmap`.
    Target,
    /// `-preset` of `mkpreset`.
    Preset,
}

/// A fault in the words of a line. Word numbers count from 1.
#[derive(Clone, Copy, PartialEq, Eq)]
pub enum WordFault {
    /// The first word names no line.
    UnknownCommand,
    /// This word is no option here, or one word too many.
    UnknownOption(u32),
    /// This option isn't there.
    MissingOption(RequiredOption),
    /// There is no word at this place.
    MissingWord(u32),
    /// The option at this word was given before, or contradicts one before.
    RepeatedOption(u32),
    /// The word at this place is no number, choice or byte of the wanted kind.
    BadNumber(u32),
    /// The word at this place is no name, reference or delimiter.
    BadName(u32),
    /// The line has more than 4,096 bytes.
    LongLine,
    /// In a block, before any good `actor` line.
    NoActor,
    /// The scope doesn't have this line.
    NotInBlock,
    /// More than this number of actors in one block.
    Limit(u32),
}

/// The value that a command refuses.
#[derive(Clone, Copy, PartialEq, Eq)]
pub enum ValueOf {
    /// The size of a volume.
    Size,
    /// The copy rate of a mapping.
    CopyRate,
    /// The clean rate of a mapping.
    CleanRate,
    /// The seconds of an `advance`.
    Seconds,
    /// The blocks of a read or write.
    Blocks,
    /// The grain of an `armfault`.
    Grain,
}

/// Why a command was refused.
#[derive(Drop)]
pub enum Refusal {
    /// The words of the line are faulty.
    Words(WordFault),
    /// The reference names no object of this kind.
    NoSuch(Kind),
    /// The object of that kind with this id has the name.
    NameTaken(u32),
    /// The count is at this limit, or would pass it.
    Limit(u32),
    /// Some lane's pool has no disk of the kind.
    NoDisk,
    /// A value is out of its range.
    BadValue(ValueOf),
    /// A mapping names this volume, or it is used as a source.
    InUse(VolId),
    /// The mapping or group isn't prepared.
    NotPrepared,
    /// The command isn't allowed in this state.
    NotAllowed(MapState),
    /// The mapping is in this group, and commands go to the group.
    InGroup(GroupId),
    /// The group has no mapping.
    Empty,
    /// Two mappings of the group have this target.
    TargetTwice(VolId),
    /// This volume is a source and a target in the group.
    SourceIsTarget(VolId),
    /// This source isn't online.
    SourceNotReady(VolId),
    /// Another active mapping has the target.
    TargetActive(MapId),
    /// This target is used as a source and `-restore` isn't given.
    TargetIsSource(VolId),
    /// The start would close this loop of restores.
    RestoreLoop(List<VolId>),
    /// A split of a copy that isn't complete: grains held, and all grains.
    NotComplete { held: u32, total: u32 },
    /// A stopped mapping, or a group with mappings, is removed by `-force` alone.
    NeedsForce,
    /// The grains of source and target differ.
    SizeDiffers { source: u32, target: u32 },
    /// The grain size that was asked for isn't the run's.
    GrainDiffers { asked: GrainSize, run: GrainSize },
    /// Source and target are one volume.
    SameVolume,
    /// This mapping has this source and this target.
    PairTaken(MapId),
}
