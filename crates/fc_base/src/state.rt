//! States of mappings and groups, what moves them, and what they mean for a target.

use crate::ids::MapId;

/// The state of a FlashCopy mapping or of a consistency group.
#[derive(Clone, Copy, Debug, PartialEq, Eq)]
pub enum MapState {
    /// A group without mappings. No mapping has it.
    Empty,
    /// Not started, or its copy was completed.
    IdleOrCopied,
    /// Data of the source is being flushed from the cache.
    Preparing,
    /// Ready to be started.
    Prepared,
    /// Started: the target is a copy of the source as it was then.
    Copying,
    /// Stopped, but other copies still need grains of its target.
    Stopping,
    /// Stopped before its copy was complete; the target is offline.
    Stopped,
}

/// What moves a mapping from one state to the next.
#[derive(Clone, Copy, Debug, PartialEq, Eq)]
pub enum MapEvent {
    /// `prestartfcmap`.
    Prepare,
    /// `startfcmap` without `-prep`.
    Start,
    /// `startfcmap -prep`.
    StartPrep,
    /// `stopfcmap`.
    Stop,
    /// `stopfcmap -split`.
    StopSplit,
    /// `stopfcmap -force`.
    StopForce,
    /// Another mapping with the same target begins to prepare.
    Supersede,
    /// A settling finds nothing left to do for it.
    Finish,
    /// `rmfcmap`.
    Remove,
    /// `rmfcmap -force`.
    RemoveForce,
}

/// How hosts may reach a volume.
#[derive(Clone, Copy, PartialEq, Eq)]
pub enum Access {
    /// Reads and writes are done.
    Online,
    /// No read or write is done while this mapping is in this state.
    Offline { map: MapId, state: MapState },
    /// The volume is online, but being prepared as this mapping's target.
    NotAccessible { map: MapId },
}
