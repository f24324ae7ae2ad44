//! Requests, replies, moves and effects: what an entry of the history tells.

use crate::command::Command;
use crate::fault::{Kind, Refusal, WordFault};
use crate::ids::{GrainNo, MapId, SlotId, VolId};
use crate::list::List;
use crate::ranges::Ranges;
use crate::runs::Runs;
use crate::state::MapState;

/// Blocks of one grain of a volume that are read.
#[derive(Clone, Copy, PartialEq, Eq)]
pub struct ReadPart {
    /// The volume.
    pub volume: VolId,
    /// The first block, from 0.
    pub block: u64,
    /// How many blocks, above 0.
    pub count: u32,
}

/// Blocks of one grain of a volume that are written with one byte.
#[derive(Clone, Copy, PartialEq, Eq)]
pub struct WritePart {
    /// The volume.
    pub volume: VolId,
    /// The first block, from 0.
    pub block: u64,
    /// How many blocks, above 0.
    pub count: u32,
    /// The byte that each of them gets.
    pub byte: u8,
}

/// Which grain a worker's turn takes.
#[derive(Clone, Copy, PartialEq, Eq)]
pub enum Pick {
    /// The first mapping with work in the lane, and its least grain there.
    Any,
    /// This grain of this mapping.
    Grain { map: MapId, grain: GrainNo },
}

/// What moves are planned for.
#[derive(Clone, Copy, PartialEq, Eq)]
pub enum Planned {
    /// A slot gets its own copy of a grain.
    Fill { slot: SlotId, grain: GrainNo },
    /// A volume's grain is written.
    Write { volume: VolId, grain: GrainNo },
}

/// What was asked.
#[derive(Drop)]
pub enum Request {
    /// A command; `read`, `write` and `mkpreset` stand here only where they were refused.
    Command(Command),
    /// A line with a fault in its words.
    Unread(WordFault),
    /// A host reads.
    Read(ReadPart),
    /// A host writes.
    Write(WritePart),
    /// A grain of a mapping is copied in the background.
    Copy { map: MapId, grain: GrainNo },
    /// A grain that others need from a mapping's target is handed on.
    Clean { map: MapId, grain: GrainNo },
    /// A copier's turn in this lane: it copies the lane's next grain to copy, or is idle.
    CopyTurn { lane: u8 },
    /// A cleaner's turn in this lane: it cleans the lane's next grain to clean, or is idle.
    CleanTurn { lane: u8 },
}

/// The rows of a report, each a list of bytes without a newline.
pub type Rows = List<List<u8>>;

/// What was answered.
#[derive(Drop)]
pub enum Reply {
    /// It was done.
    Done,
    /// An object was made.
    Made { kind: Kind, id: u32 },
    /// The bytes that were read.
    Bytes(Runs),
    /// A report.
    Listed(Rows),
    /// A grain was copied or cleaned.
    Moved { map: MapId, grain: GrainNo },
    /// A worker's turn found nothing to copy or to clean.
    Idle,
    /// The volume is offline, by this mapping.
    Offline { map: MapId, state: MapState },
    /// The volume is being prepared as this mapping's target.
    NotAccessible { map: MapId },
    /// A disk failed; the moves that were made stay made.
    DiskFault,
    /// The grain was lost by a failed write, and isn't written whole.
    MediumError,
    /// Memory was wanted and not had.
    NoMemory,
    /// The request was refused.
    Refused(Refusal),
}

/// A slot got its own copy of a grain.
#[derive(Clone, Copy, Debug, PartialEq, Eq)]
pub struct Move {
    /// The slot.
    pub slot: SlotId,
    /// Its volume.
    pub volume: VolId,
    /// The grain.
    pub grain: GrainNo,
    /// The volume held the bytes already, under an older slot, so no disk was called.
    pub in_place: bool,
}

/// One pair of a trigger: the target becomes a copy of the source.
#[derive(Clone, Copy, Debug, PartialEq, Eq)]
pub struct Pair {
    /// The mapping.
    pub map: MapId,
    /// Its source.
    pub source: VolId,
    /// Its target.
    pub target: VolId,
    /// Whether the mapping is incremental.
    pub incremental: bool,
}

/// What a command changed.
#[derive(Drop)]
pub enum Effect {
    /// A volume of so many grains of zeros came.
    Make { volume: VolId, grains: u32 },
    /// The volume went.
    Remove { volume: VolId },
    /// All targets became copies of their sources at once.
    Trigger { pairs: List<Pair> },
    /// An incomplete copy ended: outside these grains the volume holds again what it held before.
    Cut { volume: VolId, kept: Ranges },
    /// The mapping came into this state.
    State { map: MapId, state: MapState },
    /// The mapping went.
    Gone { map: MapId },
}

/// Which content of a volume a failed write spoiled.
#[derive(Clone, Copy, PartialEq, Eq)]
pub enum Side {
    /// What the volume holds.
    Now,
    /// What the volume held before its last trigger as a target.
    Under,
}

/// A grain that a failed write may have left with any bytes.
#[derive(Clone, Copy, PartialEq, Eq)]
pub struct Torn {
    /// The volume.
    pub volume: VolId,
    /// The grain.
    pub grain: GrainNo,
    /// Which content of it.
    pub side: Side,
}

/// Under whose turns an entry was made.
#[derive(Clone, Copy, PartialEq, Eq)]
pub enum Place {
    /// The turn of this lane.
    Lane(u8),
    /// All turns: a command.
    Every,
    /// The turn of the control part: a refused access, a refused preset or an unread line.
    Control,
}
