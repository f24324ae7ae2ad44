//! Decisions on reports: their rows are the reply.

ghost use Rattle.std.specs.Prelude.{◌≡◌, IfOk, None, IsTrue};
ghost use Rattle.fc_base.specs.SheetView.{SheetView};
ghost use Rattle.fc_books.specs.Deciding.{decide, refused};
ghost use Rattle.fc_books.specs.Refused.{of_mapping, of_group};
ghost use Rattle.fc_books.specs.Sound.{AreSound};
ghost use Rattle.fc_desk.specs.Control.{books_of};
ghost use Rattle.fc_objects.specs.Objects.{is_report};

use fc_base::command::Command;
use fc_base::decision::Decision;
use fc_base::fault::{Kind, Refusal};
use fc_base::name::Ref;
use fc_base::outcome::NoMemory;
use fc_base::request::Reply;
use fc_base::sheet::Sheet;
use fc_desk::{Control, Draft};
use fc_report::report;
use std::alloc::Global;

/// What is decided of a report: NoSuch where it names what isn't there; else its rows are told.
pub fn decide_report<S: Sheet>(
    alloc: Global,
    control: &Control,
    command: &Command,
    sheet: &S,
) -> Result<Decision, NoMemory>
    requires sound { AreSound (books_of control.now (S.meaning sheet.now)) }
    requires report { IsTrue (is_report command.now) }
    ensures { IfOk result (λ decision. decision ≡ decide (S.meaning sheet.now).restarts control.now.grain (books_of control.now (S.meaning sheet.now)) command.now None) }
{
    match report_refusal(control, command) {
        Some(refusal) => control.refuse(alloc, sheet, refusal),
        None => {
            let rows = report(alloc, command, control.grain(), control.registry(), sheet)?;
            control.conclude(sheet, Draft::new(alloc), Reply::Listed(rows))
        }
    }
}

/// Why a report is refused, if it is.
fn report_refusal(control: &Control, command: &Command) -> Option<Refusal>
    requires report { IsTrue (is_report command.now) }
    ensures { (view : SheetView) → result ≡ refused control.now.grain (books_of control.now view) command.now }
{
    match command {
        Command::Lsfcmap { map, .. } => match map {
            None => None,
            Some(map) => missing_mapping(control, map),
        },
        Command::Lsfcconsistgrp { group, .. } => match group {
            None => None,
            Some(group) => missing_group(control, group),
        },
        Command::Lsvdisk { .. } => None,
        Command::Lsfcmapprogress { map, .. } => missing_mapping(control, map),
        Command::Lsfcmapdependentmaps { map, .. } => missing_mapping(control, map),
        Command::Lsvdiskroom { .. } => None,
        _ => unreachable!(),
    }
}

/// NoSuch where the reference names no mapping.
fn missing_mapping(control: &Control, map: &Ref) -> Option<Refusal>
    ensures { (view : SheetView) → result ≡ of_mapping (books_of control.now view) map.now (λ found. None) }
{
    match control.registry().mapping(map) {
        None => Some(Refusal::NoSuch(Kind::Fcmap)),
        Some(_) => None,
    }
}

/// NoSuch where the reference names no group.
fn missing_group(control: &Control, group: &Ref) -> Option<Refusal>
    ensures { (view : SheetView) → result ≡ of_group (books_of control.now view) group.now (λ found. None) }
{
    match control.registry().group(group) {
        None => Some(Refusal::NoSuch(Kind::Group)),
        Some(_) => None,
    }
}
