//! A copy of a command, name by name.

ghost use Rattle.std.specs.Prelude.{◌≡◌, IfOk};

use fc_base::command::Command;
use fc_base::name::{Name, Ref};
use fc_base::outcome::NoMemory;
use std::alloc::Global;

/// A copy of a reference.
pub fn copy_ref(alloc: Global, object: &Ref) -> Result<Ref, NoMemory>
    ensures { IfOk result (λ copy. copy ≡ object.now) }
{
    match object {
        Ref::Id(id) => Ok(Ref::Id(*id)),
        Ref::Name(name) => match name.copy(alloc) {
            Ok(name) => Ok(Ref::Name(name)),
            Err(NoMemory) => Err(NoMemory),
        },
    }
}

/// A copy of a reference that may be left out.
fn copy_some_ref(alloc: Global, object: &Option<Ref>) -> Result<Option<Ref>, NoMemory>
    ensures { IfOk result (λ copy. copy ≡ object.now) }
{
    match object {
        Some(object) => match copy_ref(alloc, object) {
            Ok(copy) => Ok(Some(copy)),
            Err(NoMemory) => Err(NoMemory),
        },
        None => Ok(None),
    }
}

/// A copy of a name that may be left out.
pub fn copy_some_name(alloc: Global, name: &Option<Name>) -> Result<Option<Name>, NoMemory>
    ensures { IfOk result (λ copy. copy ≡ name.now) }
{
    match name {
        Some(name) => match name.copy(alloc) {
            Ok(copy) => Ok(Some(copy)),
            Err(NoMemory) => Err(NoMemory),
        },
        None => Ok(None),
    }
}

/// A copy of a command.
pub fn copy_command(alloc: Global, command: &Command) -> Result<Command, NoMemory>
    ensures { IfOk result (λ copy. copy ≡ command.now) }
{
    match command {
        Command::Mkvdisk {
            name,
            size,
            unit,
            thin,
        } => Ok(Command::Mkvdisk {
            name: copy_some_name(alloc, name)?,
            size: *size,
            unit: *unit,
            thin: *thin,
        }),
        Command::Rmvdisk { volume } => Ok(Command::Rmvdisk {
            volume: copy_ref(alloc, volume)?,
        }),
        Command::Write {
            volume,
            block,
            count,
            byte,
        } => Ok(Command::Write {
            volume: copy_ref(alloc, volume)?,
            block: *block,
            count: *count,
            byte: *byte,
        }),
        Command::Read {
            volume,
            block,
            count,
        } => Ok(Command::Read {
            volume: copy_ref(alloc, volume)?,
            block: *block,
            count: *count,
        }),
        Command::Armfault {
            volume,
            grain,
            calls,
        } => Ok(Command::Armfault {
            volume: copy_ref(alloc, volume)?,
            grain: *grain,
            calls: *calls,
        }),
        Command::Advance { seconds } => Ok(Command::Advance { seconds: *seconds }),
        Command::Mkfcmap {
            source,
            target,
            name,
            group,
            copy_rate,
            clean_rate,
            grain_size,
            incremental,
            autodelete,
        } => Ok(Command::Mkfcmap {
            source: copy_ref(alloc, source)?,
            target: copy_ref(alloc, target)?,
            name: copy_some_name(alloc, name)?,
            group: copy_some_ref(alloc, group)?,
            copy_rate: *copy_rate,
            clean_rate: *clean_rate,
            grain_size: *grain_size,
            incremental: *incremental,
            autodelete: *autodelete,
        }),
        Command::Prestartfcmap { map, restore } => Ok(Command::Prestartfcmap {
            map: copy_ref(alloc, map)?,
            restore: *restore,
        }),
        Command::Startfcmap { map, prep, restore } => Ok(Command::Startfcmap {
            map: copy_ref(alloc, map)?,
            prep: *prep,
            restore: *restore,
        }),
        Command::Stopfcmap { map, way } => Ok(Command::Stopfcmap {
            map: copy_ref(alloc, map)?,
            way: *way,
        }),
        Command::Rmfcmap { map, force } => Ok(Command::Rmfcmap {
            map: copy_ref(alloc, map)?,
            force: *force,
        }),
        Command::Mkfcconsistgrp { name } => Ok(Command::Mkfcconsistgrp {
            name: copy_some_name(alloc, name)?,
        }),
        Command::Prestartfcconsistgrp { group, restore } => Ok(Command::Prestartfcconsistgrp {
            group: copy_ref(alloc, group)?,
            restore: *restore,
        }),
        Command::Startfcconsistgrp {
            group,
            prep,
            restore,
        } => Ok(Command::Startfcconsistgrp {
            group: copy_ref(alloc, group)?,
            prep: *prep,
            restore: *restore,
        }),
        Command::Stopfcconsistgrp { group, way } => Ok(Command::Stopfcconsistgrp {
            group: copy_ref(alloc, group)?,
            way: *way,
        }),
        Command::Rmfcconsistgrp { group, force } => Ok(Command::Rmfcconsistgrp {
            group: copy_ref(alloc, group)?,
            force: *force,
        }),
        Command::Lsfcmap { map, delim } => Ok(Command::Lsfcmap {
            map: copy_some_ref(alloc, map)?,
            delim: *delim,
        }),
        Command::Lsfcconsistgrp { group, delim } => Ok(Command::Lsfcconsistgrp {
            group: copy_some_ref(alloc, group)?,
            delim: *delim,
        }),
        Command::Lsvdisk { delim } => Ok(Command::Lsvdisk { delim: *delim }),
        Command::Lsfcmapprogress { map, delim } => Ok(Command::Lsfcmapprogress {
            map: copy_ref(alloc, map)?,
            delim: *delim,
        }),
        Command::Lsfcmapdependentmaps { map, delim } => Ok(Command::Lsfcmapdependentmaps {
            map: copy_ref(alloc, map)?,
            delim: *delim,
        }),
        Command::Mkpreset {
            source,
            preset,
            name,
        } => Ok(Command::Mkpreset {
            source: copy_ref(alloc, source)?,
            preset: *preset,
            name: copy_some_name(alloc, name)?,
        }),
        Command::Lsvdiskroom { delim } => Ok(Command::Lsvdiskroom { delim: *delim }),
    }
}
