//! What is decided of a command, whichever it is.

ghost use Rattle.std.specs.Prelude.{◌≡◌, ◌<◌, IfOk, None, IsTrue, length, false, Option, List};
ghost use Rattle.fc_base.specs.declared.ids.VolId.{VolId};
ghost use Rattle.fc_books.specs.Deciding.{decide, IsLoopOf};
ghost use Rattle.fc_books.specs.Sound.{AreSound};
ghost use Rattle.fc_desk.specs.Control.{books_of};
ghost use Rattle.fc_control.specs.Dispatch.{is_on_mappings, is_start, is_decided};
ghost use Rattle.fc_starts.specs.Starts.{HaveRoom};

use fc_base::command::Command;
use fc_base::decision::Decision;
use fc_base::outcome::NoMemory;
use fc_base::sheet::Sheet;
use fc_desk::Control;
use fc_objects::{decide_object, decide_report, is_object, is_report};
use fc_starts::{
    decide_prestartfcconsistgrp, decide_prestartfcmap, decide_startfcconsistgrp, decide_startfcmap,
};
use fc_stops::{decide_stopfcconsistgrp, decide_stopfcmap};
use std::alloc::Global;

/// What is decided of a command on settled books: refused for the first reason that holds, last that a start would
/// close a loop of restores, or done.
pub fn decide<S: Sheet>(
    alloc: Global,
    control: &Control,
    command: &Command,
    sheet: &S,
) -> Result<Decision, NoMemory>
    requires sound { AreSound (books_of control.now (S.meaning sheet.now)) }
    requires lanes { 0 < length (S.meaning sheet.now).pools }
    requires room { HaveRoom (books_of control.now (S.meaning sheet.now)) (S.meaning sheet.now).restarts }
    requires decided { IsTrue (is_decided command.now) }
    ensures { IfOk result (λ decision. (loop : Option (List VolId)) × IsLoopOf control.now.grain (books_of control.now (S.meaning sheet.now)) command.now loop × (decision ≡ decide (S.meaning sheet.now).restarts control.now.grain (books_of control.now (S.meaning sheet.now)) command.now loop)) }
{
    if is_start(command) {
        decide_start(alloc, control, command, sheet)
    } else {
        let decision = decide_unlooped(alloc, control, command, sheet)?;
        Ok(decision)
    }
}

/// What is decided of a command that starts no mapping, for which no loop of restores is asked.
fn decide_unlooped<S: Sheet>(
    alloc: Global,
    control: &Control,
    command: &Command,
    sheet: &S,
) -> Result<Decision, NoMemory>
    requires sound { AreSound (books_of control.now (S.meaning sheet.now)) }
    requires lanes { 0 < length (S.meaning sheet.now).pools }
    requires decided { IsTrue (is_decided command.now) }
    requires unlooped { is_start command.now ≡ false }
    ensures { IfOk result (λ decision. decision ≡ decide (S.meaning sheet.now).restarts control.now.grain (books_of control.now (S.meaning sheet.now)) command.now None) }
{
    if is_report(command) {
        decide_report(alloc, control, command, sheet)
    } else if is_object(command) {
        decide_object(alloc, control, command, sheet)
    } else {
        decide_on_mappings(alloc, control, command, sheet)
    }
}

/// What is decided of a command that prepares or stops mappings.
fn decide_on_mappings<S: Sheet>(
    alloc: Global,
    control: &Control,
    command: &Command,
    sheet: &S,
) -> Result<Decision, NoMemory>
    requires sound { AreSound (books_of control.now (S.meaning sheet.now)) }
    requires on_mappings { IsTrue (is_on_mappings command.now) }
    ensures { IfOk result (λ decision. decision ≡ decide (S.meaning sheet.now).restarts control.now.grain (books_of control.now (S.meaning sheet.now)) command.now None) }
{
    match command {
        Command::Prestartfcmap { map, restore } => {
            decide_prestartfcmap(alloc, control, sheet, map, *restore)
        }
        Command::Stopfcmap { map, way } => decide_stopfcmap(alloc, control, sheet, map, *way),
        Command::Prestartfcconsistgrp { group, restore } => {
            decide_prestartfcconsistgrp(alloc, control, sheet, group, *restore)
        }
        Command::Stopfcconsistgrp { group, way } => {
            decide_stopfcconsistgrp(alloc, control, sheet, group, *way)
        }
        _ => unreachable!(),
    }
}

/// What is decided of a command that starts mappings, by the loop of restores that it would close.
fn decide_start<S: Sheet>(
    alloc: Global,
    control: &Control,
    command: &Command,
    sheet: &S,
) -> Result<Decision, NoMemory>
    requires sound { AreSound (books_of control.now (S.meaning sheet.now)) }
    requires room { HaveRoom (books_of control.now (S.meaning sheet.now)) (S.meaning sheet.now).restarts }
    requires starts { IsTrue (is_start command.now) }
    ensures { IfOk result (λ decision. (loop : Option (List VolId)) × IsLoopOf control.now.grain (books_of control.now (S.meaning sheet.now)) command.now loop × (decision ≡ decide (S.meaning sheet.now).restarts control.now.grain (books_of control.now (S.meaning sheet.now)) command.now loop)) }
{
    match command {
        Command::Startfcmap { map, prep, restore } => {
            decide_startfcmap(alloc, control, sheet, map, *prep, *restore)
        }
        Command::Startfcconsistgrp {
            group,
            prep,
            restore,
        } => decide_startfcconsistgrp(alloc, control, sheet, group, *prep, *restore),
        _ => unreachable!(),
    }
}

/// Whether it starts mappings.
fn is_start(command: &Command) -> bool
    ensures { result ≡ is_start command.now }
{
    matches!(
        command,
        Command::Startfcmap { .. } | Command::Startfcconsistgrp { .. }
    )
}
