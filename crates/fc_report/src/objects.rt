//! The fields of groups and volumes.

ghost use Rattle.std.specs.Prelude.{◌≡◌, [], ◌∷◌, ◌++◌, ◌*◌, IfOk, OnOk};
ghost use Rattle.fc_base.specs.Grain.{grain_bytes};
ghost use Rattle.fc_base.specs.Tables.{Tables};
ghost use Rattle.fc_books.specs.Columns.{access_text, group_columns, volume_columns};
ghost use Rattle.fc_books.specs.Layout.{headings, fields, table};

use crate::fields::{Fields, Table, headed, put_named, put_numbers, put_text, row_of};
use crate::figures::mappings_of;
use fc_base::list::List;
use fc_base::outcome::NoMemory;
use fc_base::size::GrainSize;
use fc_base::state::Access;
use fc_base::volume::{Group, Volume};
use fc_entry::refusal_text::state_word;
use fc_group::{access_in, group_state};
use fc_registry::Registry;
use std::alloc::Global;

/// The headings of groups.
pub fn group_headings(alloc: Global) -> Result<Fields, NoMemory>
    ensures { (tables : Tables) → IfOk result (λ row. row ≡ headings (group_columns tables)) }
{
    row_of(alloc, &[b"id", b"name", b"status"])
}

/// The fields of a group.
pub fn group_fields(alloc: Global, registry: &Registry, group: &Group) -> Result<Fields, NoMemory>
    ensures { IfOk result (λ row. row ≡ fields (group_columns registry.now.tables) group.now) }
{
    let state = group_state(registry, group.id);
    let mut row = List::new(alloc);
    put_named(alloc, &mut row, group.id.0, group.name.as_bytes())?;
    put_text(alloc, &mut row, state_word(state))?;
    Ok(row)
}

/// All groups under their headings.
pub fn group_table(alloc: Global, registry: &Registry) -> Result<Table, NoMemory>
    ensures { IfOk result (λ rows. rows ≡ table (group_columns registry.now.tables) registry.now.tables.groups) }
{
    let headings = group_headings(alloc)?;
    let mut rows = headed(alloc, headings)?;
    let groups = registry.all_groups();
    for group in groups {
        put_group(alloc, registry, group, &mut rows)?;
    }
    Ok(rows)
}

/// Puts the row of a group.
fn put_group(
    alloc: Global,
    registry: &Registry,
    group: &Group,
    rows: &mut Table,
) -> Result<(), NoMemory>
    ensures { OnOk result (rows.new ≡ rows.old ++ fields (group_columns registry.now.tables) group.now ∷ []) }
{
    let row = group_fields(alloc, registry, group)?;
    rows.push(row)
}

/// All volumes under their headings.
pub fn volume_table(alloc: Global, grain: GrainSize, registry: &Registry) -> Result<Table, NoMemory>
    ensures { IfOk result (λ rows. rows ≡ table (volume_columns grain registry.now.tables) registry.now.tables.volumes) }
{
    let headings = volume_headings(alloc)?;
    let mut rows = headed(alloc, headings)?;
    let volumes = registry.all_volumes();
    for volume in volumes {
        put_volume(alloc, grain, registry, volume, &mut rows)?;
    }
    Ok(rows)
}

/// Puts the row of a volume.
fn put_volume(
    alloc: Global,
    grain: GrainSize,
    registry: &Registry,
    volume: &Volume,
    rows: &mut Table,
) -> Result<(), NoMemory>
    ensures { OnOk result (rows.new ≡ rows.old ++ fields (volume_columns grain registry.now.tables) volume.now ∷ []) }
{
    let row = volume_fields(alloc, grain, registry, volume)?;
    rows.push(row)
}

/// The headings of volumes.
fn volume_headings(alloc: Global) -> Result<Fields, NoMemory>
    ensures { (grain : GrainSize) (tables : Tables) → IfOk result (λ row. row ≡ headings (volume_columns grain tables)) }
{
    row_of(
        alloc,
        &[b"id", b"name", b"status", b"capacity", b"fc_map_count"],
    )
}

/// The fields of a volume.
fn volume_fields(
    alloc: Global,
    grain: GrainSize,
    registry: &Registry,
    volume: &Volume,
) -> Result<Fields, NoMemory>
    ensures { IfOk result (λ row. row ≡ fields (volume_columns grain registry.now.tables) volume.now) }
{
    let mappings = registry.all_mappings();
    let status = access_status(access_in(mappings, volume.id));
    let mut row = List::new(alloc);
    put_named(alloc, &mut row, volume.id.0, volume.name.as_bytes())?;
    put_text(alloc, &mut row, status)?;
    put_numbers(
        alloc,
        &mut row,
        capacity(volume.grains, grain),
        mappings_of(mappings, volume.id),
    )?;
    Ok(row)
}

/// How many bytes so many grains have.
fn capacity(grains: u32, grain: GrainSize) -> u64
    ensures { result ≡ grains * grain_bytes grain }
{
    u64::from(grains) * u64::from(grain.bytes())
}

/// Whether hosts reach a volume at all.
fn access_status(access: Access) -> &'static [u8]
    ensures { result.now ≡ access_text access }
{
    match access {
        Access::Offline { .. } => b"offline",
        Access::Online | Access::NotAccessible { .. } => b"online",
    }
}
