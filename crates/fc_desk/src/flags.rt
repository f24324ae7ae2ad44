//! The mappings with background work, kept in order of id.

ghost use Rattle.std.specs.Prelude.{◌≡◌, ◌+◌, ◌-◌, ◌<◌, ◌≤◌, vec_len, vec_capacity};
ghost use Rattle.fc_desk.specs.Telling.{row_of};
ghost use Rattle.fc_pick.specs.Flags.{with_flags, with_row, without_flags, AreByMapping, is_flagged};

use fc_base::ids::MapId;
use fc_base::volume::Mapping;
use fc_pick::{WorkFlags, is_at, place_of};

/// The flags of the mapping, if it has any.
pub fn row_of(rows: &[WorkFlags], mapping: &Mapping) -> Option<WorkFlags>
    requires { AreByMapping rows.now }
    ensures { result ≡ row_of rows.now mapping.now }
{
    let place = place_of(rows, mapping.id);
    if is_at(rows, place, mapping.id) {
        Some(rows[place])
    } else {
        None
    }
}

/// The flags of the mapping are those of the row. There has to be room for one row. Takes no memory.
pub fn set_flags(flags: &mut Vec<WorkFlags>, row: WorkFlags)
    requires rising { AreByMapping flags.old.items }
    requires room { vec_len flags.old < vec_capacity flags.old }
    ensures items { flags.new.items ≡ with_flags row flags.old.items }
    ensures room { vec_capacity flags.old - vec_len flags.old ≤ (vec_capacity flags.new - vec_len flags.new) + 1 }
{
    if has_flag(&row) {
        put_row(flags, row);
    } else {
        clear_flags(flags, row.map);
    }
}

/// Whether the row has a flag.
fn has_flag(row: &WorkFlags) -> bool
    ensures { result ≡ is_flagged row.now }
{
    row.copies || row.cleans
}

/// Puts the row at its place by id, for the one that its mapping had.
fn put_row(flags: &mut Vec<WorkFlags>, row: WorkFlags)
    requires rising { AreByMapping flags.old.items }
    requires room { vec_len flags.old < vec_capacity flags.old }
    ensures items { flags.new.items ≡ with_row row flags.old.items }
    ensures room { vec_capacity flags.old - vec_len flags.old ≤ (vec_capacity flags.new - vec_len flags.new) + 1 }
{
    let place = place_of(flags, row.map);
    if is_at(flags, place, row.map) {
        flags[place] = row;
        return;
    }
    flags.insert(place, row).unwrap();
}

/// The mapping has no flag. Takes no memory.
pub fn clear_flags(flags: &mut Vec<WorkFlags>, map: MapId)
    requires { AreByMapping flags.old.items }
    ensures items { flags.new.items ≡ without_flags map flags.old.items }
    ensures room { vec_capacity flags.old - vec_len flags.old ≤ vec_capacity flags.new - vec_len flags.new }
{
    let place = place_of(flags, map);
    if is_at(flags, place, map) {
        let _ = flags.remove(place);
    }
}
