//! What is decided of a command that makes or removes an object, or arms a fault; or of an `advance`.

ghost use Rattle.std.specs.Prelude.{◌≡◌, ◌<◌, IfOk, None, IsTrue, length};
ghost use Rattle.fc_books.specs.Deciding.{decide};
ghost use Rattle.fc_books.specs.Sound.{AreSound};
ghost use Rattle.fc_desk.specs.Control.{books_of};
ghost use Rattle.fc_objects.specs.Objects.{is_report, is_object, makes_mapping};

use crate::advance::decide_advance;
use crate::armfault::decide_armfault;
use crate::mkfcconsistgrp::decide_mkfcconsistgrp;
use crate::mkfcmap::{MappingOptions, decide_mkfcmap};
use crate::mkvdisk::decide_mkvdisk;
use crate::rmfcconsistgrp::decide_rmfcconsistgrp;
use crate::rmfcmap::decide_rmfcmap;
use crate::rmvdisk::decide_rmvdisk;
use fc_base::command::Command;
use fc_base::decision::Decision;
use fc_base::outcome::NoMemory;
use fc_base::sheet::Sheet;
use fc_desk::Control;
use std::alloc::Global;

/// What is decided of a command that makes or removes an object, or arms a fault; or of an `advance`.
pub fn decide_object<S: Sheet>(
    alloc: Global,
    control: &Control,
    command: &Command,
    sheet: &S,
) -> Result<Decision, NoMemory>
    requires sound { AreSound (books_of control.now (S.meaning sheet.now)) }
    requires lanes { 0 < length (S.meaning sheet.now).pools }
    requires object { IsTrue (is_object command.now) }
    ensures { IfOk result (λ decision. decision ≡ decide (S.meaning sheet.now).restarts control.now.grain (books_of control.now (S.meaning sheet.now)) command.now None) }
{
    match command {
        Command::Mkvdisk {
            name,
            size,
            unit,
            thin,
        } => decide_mkvdisk(alloc, control, sheet, name, *size, *unit, *thin),
        Command::Mkfcmap { .. } => decide_new_mapping(alloc, control, command, sheet),
        Command::Rmvdisk { volume } => decide_rmvdisk(alloc, control, sheet, volume),
        Command::Armfault {
            volume,
            grain,
            calls,
        } => decide_armfault(alloc, control, sheet, volume, *grain, *calls),
        Command::Advance { seconds } => decide_advance(alloc, control, sheet, *seconds),
        Command::Rmfcmap { map, force } => decide_rmfcmap(alloc, control, sheet, map, *force),
        Command::Mkfcconsistgrp { name } => decide_mkfcconsistgrp(alloc, control, sheet, name),
        Command::Rmfcconsistgrp { group, force } => {
            decide_rmfcconsistgrp(alloc, control, sheet, group, *force)
        }
        _ => unreachable!(),
    }
}

/// What is decided of a command that makes a mapping.
fn decide_new_mapping<S: Sheet>(
    alloc: Global,
    control: &Control,
    command: &Command,
    sheet: &S,
) -> Result<Decision, NoMemory>
    requires sound { AreSound (books_of control.now (S.meaning sheet.now)) }
    requires makes { IsTrue (makes_mapping command.now) }
    ensures { IfOk result (λ decision. decision ≡ decide (S.meaning sheet.now).restarts control.now.grain (books_of control.now (S.meaning sheet.now)) command.now None) }
{
    match command {
        Command::Mkfcmap {
            source,
            target,
            name,
            group,
            copy_rate,
            clean_rate,
            grain_size,
            incremental,
            autodelete,
        } => {
            let options = MappingOptions {
                copy_rate: *copy_rate,
                clean_rate: *clean_rate,
                grain_size: *grain_size,
                incremental: *incremental,
                autodelete: *autodelete,
            };
            decide_mkfcmap(alloc, control, sheet, source, target, name, group, options)
        }
        _ => unreachable!(),
    }
}

/// Whether it is a report.
pub fn is_report(command: &Command) -> bool
    ensures { result ≡ is_report command.now }
{
    matches!(
        command,
        Command::Lsfcmap { .. }
            | Command::Lsfcconsistgrp { .. }
            | Command::Lsvdisk { .. }
            | Command::Lsfcmapprogress { .. }
            | Command::Lsfcmapdependentmaps { .. }
            | Command::Lsvdiskroom { .. }
    )
}

/// Whether it makes or removes an object, or arms a fault, but for the making of a mapping; or is an `advance`.
pub fn is_object(command: &Command) -> bool
    ensures { result ≡ is_object command.now }
{
    matches!(
        command,
        Command::Mkvdisk { .. }
            | Command::Mkfcmap { .. }
            | Command::Rmvdisk { .. }
            | Command::Armfault { .. }
            | Command::Advance { .. }
            | Command::Rmfcmap { .. }
            | Command::Mkfcconsistgrp { .. }
            | Command::Rmfcconsistgrp { .. }
    )
}
