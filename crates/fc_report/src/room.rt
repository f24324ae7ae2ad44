//! The fields of volumes' room: how many of their grains occupy memory.

ghost use Rattle.std.specs.Prelude.{◌≡◌, List, [], ◌∷◌, ◌++◌, IfOk, OnOk};
ghost use Rattle.fc_base.specs.Room.{Room};
ghost use Rattle.fc_books.specs.Columns.{disk_kind_text, room_columns};
ghost use Rattle.fc_books.specs.Layout.{headings, fields, table};

use crate::fields::{Fields, Table, headed, put_named, put_numbers, put_text, row_of};
use fc_base::disk::DiskKind;
use fc_base::list::List;
use fc_base::outcome::NoMemory;
use fc_base::sheet::Sheet;
use fc_base::volume::Volume;
use fc_registry::Registry;
use std::alloc::Global;

/// All volumes under their headings, each with how many of its grains occupy memory.
pub fn room_table<S: Sheet>(
    alloc: Global,
    registry: &Registry,
    sheet: &S,
) -> Result<Table, NoMemory>
    ensures { IfOk result (λ rows. rows ≡ table (room_columns (S.meaning sheet.now).rooms) registry.now.tables.volumes) }
{
    let headings = room_headings(alloc)?;
    let mut rows = headed(alloc, headings)?;
    let volumes = registry.all_volumes();
    for volume in volumes {
        put_room(alloc, sheet, volume, &mut rows)?;
    }
    Ok(rows)
}

/// Puts the row of a volume's room.
fn put_room<S: Sheet>(
    alloc: Global,
    sheet: &S,
    volume: &Volume,
    rows: &mut Table,
) -> Result<(), NoMemory>
    ensures { OnOk result (rows.new ≡ rows.old ++ fields (room_columns (S.meaning sheet.now).rooms) volume.now ∷ []) }
{
    let row = room_fields(alloc, sheet, volume)?;
    rows.push(row)
}

/// The headings of volumes' room.
fn room_headings(alloc: Global) -> Result<Fields, NoMemory>
    ensures { (rooms : List Room) → IfOk result (λ row. row ≡ headings (room_columns rooms)) }
{
    row_of(alloc, &[b"id", b"name", b"kind", b"used", b"grains"])
}

/// The fields of a volume's room.
fn room_fields<S: Sheet>(alloc: Global, sheet: &S, volume: &Volume) -> Result<Fields, NoMemory>
    ensures { IfOk result (λ row. row ≡ fields (room_columns (S.meaning sheet.now).rooms) volume.now) }
{
    let used = sheet.room(volume.id);
    let mut row = List::new(alloc);
    put_named(alloc, &mut row, volume.id.0, volume.name.as_bytes())?;
    put_text(alloc, &mut row, kind_word(volume.kind))?;
    put_numbers(alloc, &mut row, used, u64::from(volume.grains))?;
    Ok(row)
}

/// The word for the disks of a volume.
fn kind_word(kind: DiskKind) -> &'static [u8]
    ensures { result.now ≡ disk_kind_text kind }
{
    match kind {
        DiskKind::Flat => b"flat",
        DiskKind::Thin => b"thin",
    }
}
