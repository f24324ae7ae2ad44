//! Commands, and the lines of a session.

use crate::fault::WordFault;
use crate::name::{Name, Ref};
use crate::size::GrainSize;

/// The unit of a size.
#[derive(Clone, Copy, PartialEq, Eq)]
pub enum Unit {
    /// 1,024 bytes.
    Kb,
    /// 1,024 kb.
    Mb,
    /// 1,024 mb.
    Gb,
}

/// How a mapping or group is stopped.
#[derive(Clone, Copy, PartialEq, Eq)]
pub enum StopWay {
    /// Other copies keep what they need.
    Plain,
    /// Copies that depend on it are stopped with it.
    Force,
    /// A complete copy takes the copies that depend on it along.
    Split,
}

/// What the copy that `mkpreset` makes is for.
#[derive(Clone, Copy, PartialEq, Eq)]
pub enum Preset {
    /// A thin copy that takes only what others write over.
    Snapshot,
    /// A whole copy, whose mapping goes when it is complete.
    Clone,
    /// A whole copy, which a later start brings up to date by what changed.
    Backup,
}

/// A line that is answered by one entry or more. An option is None where it wasn't given.
#[derive(Drop)]
pub enum Command {
    /// Makes a volume.
    Mkvdisk {
        name: Option<Name>,
        size: u32,
        unit: Option<Unit>,
        thin: bool,
    },
    /// Removes a volume.
    Rmvdisk {
        volume: Ref,
    },
    /// Writes blocks with one byte.
    Write {
        volume: Ref,
        block: u32,
        count: u32,
        byte: u8,
    },
    /// Reads blocks.
    Read {
        volume: Ref,
        block: u32,
        count: u32,
    },
    /// Lets a coming call of a disk fail.
    Armfault {
        volume: Ref,
        grain: u32,
        calls: u32,
    },
    /// Lets background work go on for some seconds.
    Advance {
        seconds: u32,
    },
    /// Makes a mapping.
    Mkfcmap {
        source: Ref,
        target: Ref,
        name: Option<Name>,
        group: Option<Ref>,
        copy_rate: Option<u32>,
        clean_rate: Option<u32>,
        grain_size: Option<GrainSize>,
        incremental: bool,
        autodelete: bool,
    },
    /// Prepares a mapping.
    Prestartfcmap {
        map: Ref,
        restore: bool,
    },
    /// Starts a mapping.
    Startfcmap {
        map: Ref,
        prep: bool,
        restore: bool,
    },
    /// Stops a mapping.
    Stopfcmap {
        map: Ref,
        way: StopWay,
    },
    /// Removes a mapping.
    Rmfcmap {
        map: Ref,
        force: bool,
    },
    /// Makes a consistency group.
    Mkfcconsistgrp {
        name: Option<Name>,
    },
    /// Prepares all mappings of a group.
    Prestartfcconsistgrp {
        group: Ref,
        restore: bool,
    },
    /// Starts all mappings of a group at once.
    Startfcconsistgrp {
        group: Ref,
        prep: bool,
        restore: bool,
    },
    /// Stops the mappings of a group.
    Stopfcconsistgrp {
        group: Ref,
        way: StopWay,
    },
    /// Removes a group.
    Rmfcconsistgrp {
        group: Ref,
        force: bool,
    },
    /// Lists mappings, or shows one.
    Lsfcmap {
        map: Option<Ref>,
        delim: Option<u8>,
    },
    /// Lists groups, or shows one.
    Lsfcconsistgrp {
        group: Option<Ref>,
        delim: Option<u8>,
    },
    /// Lists volumes.
    Lsvdisk {
        delim: Option<u8>,
    },
    /// Shows the progress of a mapping.
    Lsfcmapprogress {
        map: Ref,
        delim: Option<u8>,
    },
    /// Lists the mappings that depend on a mapping's target.
    Lsfcmapdependentmaps {
        map: Ref,
        delim: Option<u8>,
    },
    /// Makes a volume as large as the source and a mapping to it, and starts that, each asked as a line of its own. It
    /// stands in an entry itself only where its source names no volume.
    Mkpreset {
        source: Ref,
        preset: Preset,
        name: Option<Name>,
    },
    /// Lists volumes, each with the grains that occupy memory.
    Lsvdiskroom {
        delim: Option<u8>,
    },
}

/// What an actor of a block does.
#[derive(Clone, Copy, PartialEq, Eq)]
pub enum Role {
    /// Reads and writes.
    Host,
    /// Gives commands on mappings and groups.
    Admin,
    /// Takes so many turns of background copying.
    Copier(u32),
    /// Takes so many turns of cleaning.
    Cleaner(u32),
}

/// Where a line stands, which decides what lines there are.
#[derive(Clone, Copy, PartialEq, Eq)]
pub enum Scope {
    /// Outside a block.
    Free,
    /// In a block, under a host.
    Host,
    /// In a block, under an administrator.
    Admin,
    /// In a block, under a copier or cleaner.
    Worker,
    /// In a block, without an actor.
    NoActor,
}

/// A line of a session, as it was read.
#[derive(Drop)]
pub enum Line {
    /// No words, or a comment. It gives no entry.
    Blank,
    /// A command.
    Command(Command),
    /// A block begins.
    Together,
    /// An actor of a block, and its role.
    Actor { name: Name, role: Role },
    /// A block ends.
    End,
}

/// A line under an actor of a block.
#[derive(Drop)]
pub enum ScriptLine {
    /// A line that was read.
    Read(Line),
    /// A faulty line.
    Unread(WordFault),
}
