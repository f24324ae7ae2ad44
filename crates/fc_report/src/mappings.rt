//! The fields of mappings.

ghost use Rattle.std.specs.Prelude.{◌≡◌, [], ◌∷◌, ◌++◌, cond, codes, decimal, map, filter, Option, IfOk, OnOk};
ghost use Rattle.fc_base.specs.Tables.{partner_of, mapping_with};
ghost use Rattle.fc_base.specs.declared.ids.GroupId.{GroupId};
ghost use Rattle.fc_base.specs.declared.ids.MapId.{MapId};
ghost use Rattle.fc_books.specs.Books.{Books};
ghost use Rattle.fc_books.specs.Columns.{text_or_none, progress, cleaned_in, name_of_volume, name_of_group, name_of_mapping, mapping_columns, progress_columns, dependent_columns};
ghost use Rattle.fc_books.specs.Layout.{headings, fields, table};
ghost use Rattle.fc_entry.specs.Text.{state_text};
ghost use Rattle.fc_books.proofs.DependentMaps.{has_id_among};
ghost use Rattle.fc_report.specs.Asked.{asked};

use crate::fields::{Fields, Table, headed, put_named, put_number, put_numbers, put_text, row_of};
use crate::figures::{cleaned, progress};
use fc_base::ids::{GroupId, MapId, VolId};
use fc_base::list::List;
use fc_base::outcome::NoMemory;
use fc_base::sheet::Sheet;
use fc_base::volume::Mapping;
use fc_entry::refusal_text::state_word;
use fc_registry::Registry;
use std::alloc::Global;

/// The headings of mappings.
pub fn mapping_headings(alloc: Global) -> Result<Fields, NoMemory>
    ensures { (books : Books) → IfOk result (λ row. row ≡ headings (mapping_columns books)) }
{
    row_of(
        alloc,
        &[
            b"id",
            b"name",
            b"source_vdisk_id",
            b"source_vdisk_name",
            b"target_vdisk_id",
            b"target_vdisk_name",
            b"group_id",
            b"group_name",
            b"status",
            b"progress",
            b"copy_rate",
            b"clean_progress",
            b"incremental",
            b"partner_FC_id",
            b"partner_FC_name",
            b"restoring",
        ],
    )
}

/// The fields of a mapping.
pub fn mapping_fields<S: Sheet>(
    alloc: Global,
    registry: &Registry,
    sheet: &S,
    mapping: &Mapping,
) -> Result<Fields, NoMemory>
    ensures { IfOk result (λ row. row ≡ fields (mapping_columns (asked registry.now.tables (S.meaning sheet.now))) mapping.now) }
{
    let mut row = List::new(alloc);
    put_volumes(alloc, registry, mapping, &mut row)?;
    put_group(alloc, registry, mapping.group, &mut row)?;
    put_figures(alloc, registry, sheet, mapping, &mut row)?;
    put_partner(alloc, registry, mapping.id, &mut row)?;
    put_text(alloc, &mut row, choice(mapping.restoring, b"yes", b"no"))?;
    Ok(row)
}

/// Puts a mapping's id and name, and those of its source and target.
fn put_volumes(
    alloc: Global,
    registry: &Registry,
    mapping: &Mapping,
    row: &mut Fields,
) -> Result<(), NoMemory>
    ensures { OnOk result (row.new ≡ row.old ++ decimal mapping.now.id.0 ∷ mapping.now.name ∷ decimal mapping.now.source.0 ∷ name_of_volume registry.now.tables mapping.now.source ∷ decimal mapping.now.target.0 ∷ name_of_volume registry.now.tables mapping.now.target ∷ []) }
{
    let source = mapping.source;
    let target = mapping.target;
    put_named(alloc, row, mapping.id.0, mapping.name.as_bytes())?;
    put_named(alloc, row, source.0, volume_name(registry, source))?;
    put_named(alloc, row, target.0, volume_name(registry, target))
}

/// The name of a volume.
fn volume_name(registry: &Registry, volume: VolId) -> &[u8]
    ensures { result.now ≡ name_of_volume registry.now.tables volume }
{
    match registry.volume_with(volume) {
        Some(volume) => volume.name.as_bytes(),
        None => b"",
    }
}

/// Puts the id and the name of a mapping's group, empty where it is in none.
fn put_group(
    alloc: Global,
    registry: &Registry,
    group: Option<GroupId>,
    row: &mut Fields,
) -> Result<(), NoMemory>
    ensures { OnOk result (row.new ≡ row.old ++ text_or_none (λ (g : GroupId). decimal g.0) group ∷ name_of_group registry.now.tables group ∷ []) }
{
    match group {
        None => put_none(alloc, row),
        Some(group) => put_named(alloc, row, group.0, group_name(registry, group)),
    }
}

/// The name of a group.
fn group_name(registry: &Registry, group: GroupId) -> &[u8]
    ensures { result.now ≡ name_of_group registry.now.tables (Some group) }
{
    match registry.group_with(group) {
        Some(group) => group.name.as_bytes(),
        None => b"",
    }
}

/// Puts an empty id and an empty name.
fn put_none(alloc: Global, row: &mut Fields) -> Result<(), NoMemory>
    ensures { OnOk result (row.new ≡ row.old ++ [] ∷ [] ∷ []) }
{
    put_text(alloc, row, b"")?;
    put_text(alloc, row, b"")
}

/// Puts a mapping's state, how far it is copied and cleaned, its copy rate, and whether it is incremental.
fn put_figures<S: Sheet>(
    alloc: Global,
    registry: &Registry,
    sheet: &S,
    mapping: &Mapping,
    row: &mut Fields,
) -> Result<(), NoMemory>
    ensures { OnOk result (row.new ≡ row.old ++ state_text mapping.now.state ∷ decimal (progress (asked registry.now.tables (S.meaning sheet.now)) mapping.now) ∷ decimal mapping.now.copy_rate ∷ decimal (cleaned_in mapping.now.state (asked registry.now.tables (S.meaning sheet.now)) mapping.now) ∷ cond mapping.now.incremental (codes "on") (codes "off") ∷ []) }
{
    let copied = progress(registry, sheet, mapping);
    put_text(alloc, row, state_word(mapping.state))?;
    put_numbers(alloc, row, copied, u64::from(mapping.copy_rate))?;
    put_number(alloc, row, cleaned(registry, sheet, mapping))?;
    put_text(alloc, row, choice(mapping.incremental, b"on", b"off"))
}

/// The one text or the other.
fn choice<'a>(which: bool, yes: &'a [u8], no: &'a [u8]) -> &'a [u8]
    ensures { result.now ≡ cond which yes.now no.now }
{
    if which { yes } else { no }
}

/// Puts the id and the name of a mapping's partner, empty where it has none.
fn put_partner(
    alloc: Global,
    registry: &Registry,
    map: MapId,
    row: &mut Fields,
) -> Result<(), NoMemory>
    ensures { OnOk result (row.new ≡ row.old ++ text_or_none (λ (p : MapId). decimal p.0) (partner_of registry.now.tables map) ∷ name_of_mapping registry.now.tables (partner_of registry.now.tables map) ∷ []) }
{
    match registry.partner(map) {
        None => put_none(alloc, row),
        Some(partner) => put_named(alloc, row, partner.0, mapping_name(registry, partner)),
    }
}

/// The name of a mapping.
fn mapping_name(registry: &Registry, map: MapId) -> &[u8]
    ensures { result.now ≡ name_of_mapping registry.now.tables (Some map) }
{
    match registry.mapping_with(map) {
        Some(mapping) => mapping.name.as_bytes(),
        None => b"",
    }
}

/// All mappings under their headings.
pub fn mapping_table<S: Sheet>(
    alloc: Global,
    registry: &Registry,
    sheet: &S,
) -> Result<Table, NoMemory>
    ensures { IfOk result (λ rows. rows ≡ table (mapping_columns (asked registry.now.tables (S.meaning sheet.now))) registry.now.tables.mappings) }
{
    let headings = mapping_headings(alloc)?;
    let mut rows = headed(alloc, headings)?;
    let mappings = registry.all_mappings();
    for mapping in mappings {
        put_row(alloc, registry, sheet, mapping, &mut rows)?;
    }
    Ok(rows)
}

/// Puts the row of a mapping.
fn put_row<S: Sheet>(
    alloc: Global,
    registry: &Registry,
    sheet: &S,
    mapping: &Mapping,
    rows: &mut Table,
) -> Result<(), NoMemory>
    ensures { OnOk result (rows.new ≡ rows.old ++ fields (mapping_columns (asked registry.now.tables (S.meaning sheet.now))) mapping.now ∷ []) }
{
    let row = mapping_fields(alloc, registry, sheet, mapping)?;
    rows.push(row)
}

/// A mapping's progress under its headings.
pub fn progress_table<S: Sheet>(
    alloc: Global,
    registry: &Registry,
    sheet: &S,
    mapping: &Mapping,
) -> Result<Table, NoMemory>
    ensures { IfOk result (λ rows. rows ≡ table (progress_columns (asked registry.now.tables (S.meaning sheet.now))) (mapping.now ∷ [])) }
{
    let headings = row_of(alloc, &[b"id", b"progress"])?;
    let mut rows = headed(alloc, headings)?;
    put_progress(alloc, registry, sheet, mapping, &mut rows)?;
    Ok(rows)
}

/// Puts the row of a mapping's progress.
fn put_progress<S: Sheet>(
    alloc: Global,
    registry: &Registry,
    sheet: &S,
    mapping: &Mapping,
    rows: &mut Table,
) -> Result<(), NoMemory>
    ensures { OnOk result (rows.new ≡ rows.old ++ fields (progress_columns (asked registry.now.tables (S.meaning sheet.now))) mapping.now ∷ []) }
{
    let copied = progress(registry, sheet, mapping);
    let mut row = List::new(alloc);
    put_numbers(alloc, &mut row, u64::from(mapping.id.0), copied)?;
    rows.push(row)
}

/// Of the mappings those with these ids, under their headings.
pub fn dependent_table(
    alloc: Global,
    mappings: &[Mapping],
    ids: &[MapId],
) -> Result<Table, NoMemory>
    ensures { IfOk result (λ rows. rows ≡ table dependent_columns (filter (has_id_among ids.now) mappings.now)) }
{
    let headings = row_of(alloc, &[b"fc_id", b"fc_name"])?;
    let mut rows = headed(alloc, headings)?;
    for mapping in mappings {
        put_dependent(alloc, ids, mapping, &mut rows)?;
    }
    Ok(rows)
}

/// Puts the row of a mapping whose id is among these; of another one none.
fn put_dependent(
    alloc: Global,
    ids: &[MapId],
    mapping: &Mapping,
    rows: &mut Table,
) -> Result<(), NoMemory>
    ensures { OnOk result (rows.new ≡ rows.old ++ map (fields dependent_columns) (cond (has_id_among ids.now mapping.now) (mapping.now ∷ []) [])) }
{
    if !has_id_among(mapping, ids) {
        return Ok(());
    }
    let row = dependent_fields(alloc, mapping)?;
    rows.push(row)
}

/// Whether the mapping's id is among these.
fn has_id_among(mapping: &Mapping, ids: &[MapId]) -> bool
    ensures { result ≡ has_id_among ids.now mapping.now }
{
    ids.iter().any(|id| id.0 == mapping.id.0)
}

/// The id and the name of a mapping.
fn dependent_fields(alloc: Global, mapping: &Mapping) -> Result<Fields, NoMemory>
    ensures { IfOk result (λ row. row ≡ fields dependent_columns mapping.now) }
{
    let mut row = List::new(alloc);
    put_named(alloc, &mut row, mapping.id.0, mapping.name.as_bytes())?;
    Ok(row)
}
