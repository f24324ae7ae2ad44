//! The rows of a report.

ghost use Rattle.std.specs.Prelude.{◌≡◌, IfOk, Some, None};
ghost use Rattle.fc_base.specs.declared.size.GrainSize.{GrainSize};
ghost use Rattle.fc_base.specs.SheetFacts.{HasSizes};
ghost use Rattle.fc_base.specs.SheetView.{SheetView};
ghost use Rattle.fc_base.specs.declared.command.Command.{Command};
ghost use Rattle.fc_books.specs.Reports.{report_rows};
ghost use Rattle.fc_report.specs.Asked.{asked};

use crate::layout::{beside, laid_out};
use crate::mappings::{
    dependent_table, mapping_fields, mapping_headings, mapping_table, progress_table,
};
use crate::objects::{group_fields, group_headings, group_table, volume_table};
use crate::room::room_table;
use fc_base::command::Command;
use fc_base::list::List;
use fc_base::name::Ref;
use fc_base::outcome::NoMemory;
use fc_base::request::Rows;
use fc_base::sheet::Sheet;
use fc_base::size::GrainSize;
use fc_registry::Registry;
use std::alloc::Global;

/// The rows of a report. A command that isn't one has none, nor has one that names nothing.
pub fn report<S: Sheet>(
    alloc: Global,
    command: &Command,
    grain: GrainSize,
    registry: &Registry,
    sheet: &S,
) -> Result<Rows, NoMemory>
    requires sizes { HasSizes (S.meaning sheet.now).sheet.slots }
    ensures { IfOk result (λ rows. rows ≡ report_rows grain (asked registry.now.tables (S.meaning sheet.now)) command.now) }
{
    match command {
        Command::Lsfcmap { map, delim } => match map {
            None => all_mappings(alloc, *delim, registry, sheet),
            Some(map) => one_mapping(alloc, map, *delim, registry, sheet),
        },
        Command::Lsfcconsistgrp { group, delim } => match group {
            None => all_groups(alloc, *delim, registry),
            Some(group) => one_group(alloc, group, *delim, registry),
        },
        Command::Lsvdisk { delim } => all_volumes(alloc, *delim, grain, registry),
        Command::Lsfcmapprogress { map, delim } => {
            mapping_progress(alloc, map, *delim, registry, sheet)
        }
        Command::Lsfcmapdependentmaps { map, delim } => {
            mapping_dependents(alloc, map, *delim, registry, sheet)
        }
        Command::Lsvdiskroom { delim } => volumes_room(alloc, *delim, registry, sheet),
        _ => Ok(List::new(alloc)),
    }
}

/// All mappings.
#[tactic(auto, unfolding(fc_books::specs::Reports::report_rows))]
fn all_mappings<S: Sheet>(
    alloc: Global,
    delim: Option<u8>,
    registry: &Registry,
    sheet: &S,
) -> Result<Rows, NoMemory>
    ensures { (grain : GrainSize) → IfOk result (λ rows. rows ≡ report_rows grain (asked registry.now.tables (S.meaning sheet.now)) (Command.Lsfcmap None delim)) }
{
    let table = mapping_table(alloc, registry, sheet)?;
    laid_out(alloc, delim, table.as_slice())
}

/// One mapping, column by column.
#[tactic(auto, unfolding(fc_books::specs::Reports::report_rows))]
fn one_mapping<S: Sheet>(
    alloc: Global,
    map: &Ref,
    delim: Option<u8>,
    registry: &Registry,
    sheet: &S,
) -> Result<Rows, NoMemory>
    ensures { (grain : GrainSize) → IfOk result (λ rows. rows ≡ report_rows grain (asked registry.now.tables (S.meaning sheet.now)) (Command.Lsfcmap (Some map.now) delim)) }
{
    match registry.mapping(map) {
        None => Ok(List::new(alloc)),
        Some(mapping) => {
            let headings = mapping_headings(alloc)?;
            let fields = mapping_fields(alloc, registry, sheet, mapping)?;
            beside(alloc, delim, headings.as_slice(), fields.as_slice())
        }
    }
}

/// All groups.
#[tactic(auto, unfolding(fc_books::specs::Reports::report_rows))]
fn all_groups(alloc: Global, delim: Option<u8>, registry: &Registry) -> Result<Rows, NoMemory>
    ensures { (grain : GrainSize) (view : SheetView) → IfOk result (λ rows. rows ≡ report_rows grain (asked registry.now.tables view) (Command.Lsfcconsistgrp None delim)) }
{
    let table = group_table(alloc, registry)?;
    laid_out(alloc, delim, table.as_slice())
}

/// One group, column by column.
#[tactic(auto, unfolding(fc_books::specs::Reports::report_rows))]
fn one_group(
    alloc: Global,
    group: &Ref,
    delim: Option<u8>,
    registry: &Registry,
) -> Result<Rows, NoMemory>
    ensures { (grain : GrainSize) (view : SheetView) → IfOk result (λ rows. rows ≡ report_rows grain (asked registry.now.tables view) (Command.Lsfcconsistgrp (Some group.now) delim)) }
{
    match registry.group(group) {
        None => Ok(List::new(alloc)),
        Some(group) => {
            let headings = group_headings(alloc)?;
            let fields = group_fields(alloc, registry, group)?;
            beside(alloc, delim, headings.as_slice(), fields.as_slice())
        }
    }
}

/// All volumes.
#[tactic(auto, unfolding(fc_books::specs::Reports::report_rows))]
fn all_volumes(
    alloc: Global,
    delim: Option<u8>,
    grain: GrainSize,
    registry: &Registry,
) -> Result<Rows, NoMemory>
    ensures { (view : SheetView) → IfOk result (λ rows. rows ≡ report_rows grain (asked registry.now.tables view) (Command.Lsvdisk delim)) }
{
    let table = volume_table(alloc, grain, registry)?;
    laid_out(alloc, delim, table.as_slice())
}

/// A mapping's progress.
#[tactic(auto, unfolding(fc_books::specs::Reports::report_rows))]
fn mapping_progress<S: Sheet>(
    alloc: Global,
    map: &Ref,
    delim: Option<u8>,
    registry: &Registry,
    sheet: &S,
) -> Result<Rows, NoMemory>
    ensures { (grain : GrainSize) → IfOk result (λ rows. rows ≡ report_rows grain (asked registry.now.tables (S.meaning sheet.now)) (Command.Lsfcmapprogress map.now delim)) }
{
    match registry.mapping(map) {
        None => Ok(List::new(alloc)),
        Some(mapping) => {
            let table = progress_table(alloc, registry, sheet, mapping)?;
            laid_out(alloc, delim, table.as_slice())
        }
    }
}

/// The mappings that depend on a mapping's target.
#[tactic(auto, unfolding(fc_books::specs::Reports::report_rows))]
fn mapping_dependents<S: Sheet>(
    alloc: Global,
    map: &Ref,
    delim: Option<u8>,
    registry: &Registry,
    sheet: &S,
) -> Result<Rows, NoMemory>
    requires sizes { HasSizes (S.meaning sheet.now).sheet.slots }
    ensures { (grain : GrainSize) → IfOk result (λ rows. rows ≡ report_rows grain (asked registry.now.tables (S.meaning sheet.now)) (Command.Lsfcmapdependentmaps map.now delim)) }
{
    match registry.mapping(map) {
        None => Ok(List::new(alloc)),
        Some(mapping) => {
            let ids = sheet.dependents(alloc, mapping.id)?;
            let table = dependent_table(alloc, registry.all_mappings(), ids.as_slice())?;
            laid_out(alloc, delim, table.as_slice())
        }
    }
}

/// All volumes, each with how many of its grains occupy memory.
#[tactic(auto, unfolding(fc_books::specs::Reports::report_rows))]
fn volumes_room<S: Sheet>(
    alloc: Global,
    delim: Option<u8>,
    registry: &Registry,
    sheet: &S,
) -> Result<Rows, NoMemory>
    ensures { (grain : GrainSize) → IfOk result (λ rows. rows ≡ report_rows grain (asked registry.now.tables (S.meaning sheet.now)) (Command.Lsvdiskroom delim)) }
{
    let table = room_table(alloc, registry, sheet)?;
    laid_out(alloc, delim, table.as_slice())
}
