//! Background work, as it is set at the end of a command.

ghost use Rattle.std.specs.Prelude.{◌≡◌, ◌&&◌, ◌++◌, OnOk, IfOk, ◌==◌, nat_lt, false, option_copied};
ghost use Rattle.std.specs.Option.{option_map_or};
ghost use Rattle.fc_books.specs.Accesses.{is_copying};
ghost use Rattle.fc_books.specs.Books.{◌then◌, told, all_deeds};
ghost use Rattle.fc_books.specs.Copies.{is_whole};
ghost use Rattle.fc_books.specs.Ending.{in_state};
ghost use Rattle.fc_books.specs.Work.{are_same};
ghost use Rattle.fc_desk.specs.Control.{books_of};
ghost use Rattle.fc_desk.specs.Background.{copies_as, cleans_as, work_as};
ghost use Rattle.fc_desk.specs.Telling.{stays, told_flags, work_told, row_of};

use crate::control::Control;
use crate::draft::Draft;
use crate::flags::row_of;
use fc_base::decision::LaneEvent;
use fc_base::ids::MapId;
use fc_base::outcome::NoMemory;
use fc_base::sheet::Sheet;
use fc_base::state::MapState;
use fc_base::volume::Mapping;
use fc_group::has_state;
use fc_pick::WorkFlags;

impl Control {
    /// Lanes are told of the background work that changes, of all mappings but one that goes.
    pub fn tell_work<S: Sheet>(
        &self,
        sheet: &S,
        mut draft: Draft,
        gone: Option<MapId>,
    ) -> Result<Draft, NoMemory>
        ensures { IfOk result (λ whole. whole ≡ (draft then all_deeds (λ m. told (work_told (books_of self.now (S.meaning sheet.now)) gone m)) self.now.tables.mappings)) }
    {
        for mapping in self.registry().all_mappings() {
            self.tell_work_of(sheet, &mut draft, gone, mapping)?;
        }
        Ok(draft)
    }

    /// Lanes are told of the background work of a mapping, where it changes and the mapping doesn't go.
    pub fn tell_work_of<S: Sheet>(
        &self,
        sheet: &S,
        draft: &mut Draft,
        gone: Option<MapId>,
        mapping: &Mapping,
    ) -> Result<(), NoMemory>
        ensures { OnOk result (draft.new ≡ (draft.old then told (work_told (books_of self.now (S.meaning sheet.now)) gone mapping.now))) }
    {
        if does_stay(gone, mapping) {
            tell_flags(draft, self.work_of(sheet, mapping))
        } else {
            Ok(())
        }
    }

    /// The flags of a mapping, where they change.
    pub fn work_of<S: Sheet>(&self, sheet: &S, mapping: &Mapping) -> Option<WorkFlags>
        ensures { told_flags result ≡ work_told (books_of self.now (S.meaning sheet.now)) None mapping.now }
    {
        let whole = self.is_filled(sheet, mapping);
        self.work_in(mapping.state, mapping, whole)
    }

    /// Whether the mapping's copy, which is to be filled in the background, is whole already. Without copies in the
    /// background its work doesn't depend on that, and it isn't asked.
    fn is_filled<S: Sheet>(&self, sheet: &S, mapping: &Mapping) -> bool
        ensures { result ≡ (is_copying mapping.now.state && (nat_lt 0 mapping.now.copy_rate && is_whole (books_of self.now (S.meaning sheet.now)) mapping.now)) }
    {
        has_state(MapState::Copying, mapping.state)
            && (0 < mapping.copy_rate && self.is_whole(sheet, mapping))
    }

    /// The flags of a mapping in a state, where they change; its copy may be whole.
    pub fn work_in(&self, state: MapState, mapping: &Mapping, whole: bool) -> Option<WorkFlags>
        ensures { told_flags result ≡ work_as self.now.flags whole (in_state state mapping.now) }
    {
        let before = self.flags_of(mapping);
        let after = flags_in(state, mapping, whole);
        if are_same(after.copies, before.copies) && are_same(after.cleans, before.cleans) {
            None
        } else {
            Some(after)
        }
    }

    /// The flags of a mapping as they stand.
    fn flags_of(&self, mapping: &Mapping) -> WorkFlags
        ensures copies { result.copies ≡ option_map_or (λ row. row.copies) (row_of self.now.flags mapping.now) false }
        ensures cleans { result.cleans ≡ option_map_or (λ row. row.cleans) (row_of self.now.flags mapping.now) false }
    {
        match row_of(self.flags.as_slice(), mapping) {
            Some(row) => row,
            None => WorkFlags {
                map: mapping.id,
                copies: false,
                cleans: false,
            },
        }
    }
}

/// Lanes are told these flags, if there are any.
pub fn tell_flags(draft: &mut Draft, flags: Option<WorkFlags>) -> Result<(), NoMemory>
    ensures { OnOk result (draft.new ≡ record draft.old { events = draft.old.events ++ told_flags flags }) }
{
    match flags {
        Some(row) => draft.tell(LaneEvent::Work {
            map: row.map,
            copies: row.copies,
            cleans: row.cleans,
        }),
        None => Ok(()),
    }
}

/// The flags that a mapping in this state is to have; its copy may be whole.
fn flags_in(state: MapState, mapping: &Mapping, whole: bool) -> WorkFlags
    ensures { result ≡ record { map = mapping.now.id; copies = copies_as whole (in_state state mapping.now); cleans = cleans_as whole (in_state state mapping.now) } }
{
    let is_copying = has_state(MapState::Copying, state);
    let is_stopping = has_state(MapState::Stopping, state);
    WorkFlags {
        map: mapping.id,
        copies: is_copying && (!whole && 0 < mapping.copy_rate),
        cleans: 0 < mapping.clean_rate
            && (is_stopping || (is_copying && (mapping.copy_rate == 0 || whole))),
    }
}

/// Whether the mapping's copy is being filled in the background, by rows in any order.
pub fn has_copies(rows: &[WorkFlags], mapping: &Mapping) -> bool
    ensures { result ≡ option_map_or (λ row. row.copies) (row_of rows.now mapping.now) false }
{
    match find_row(rows, mapping) {
        Some(row) => row.copies,
        None => false,
    }
}

/// Whether the grains that others need of the mapping's copy are being handed on in the background, by rows in any order.
pub fn has_cleans(rows: &[WorkFlags], mapping: &Mapping) -> bool
    ensures { result ≡ option_map_or (λ row. row.cleans) (row_of rows.now mapping.now) false }
{
    match find_row(rows, mapping) {
        Some(row) => row.cleans,
        None => false,
    }
}

/// The flags of the mapping, if it has any, among rows in any order.
fn find_row<'a>(rows: &'a [WorkFlags], mapping: &Mapping) -> Option<&'a WorkFlags>
    ensures { option_copied result ≡ row_of rows.now mapping.now }
{
    rows.iter().find(|row| is_row_of(row, mapping))
}

/// Whether these are the flags of the mapping.
fn is_row_of(row: &WorkFlags, mapping: &Mapping) -> bool
    ensures { result ≡ (row.now.map.0 == mapping.now.id.0) }
{
    row.map.0 == mapping.id.0
}

/// Whether both are true, or none.
fn are_same(a: bool, b: bool) -> bool
    ensures { result ≡ are_same a b }
{
    if a { b } else { !b }
}

/// Whether the mapping isn't the one that goes.
fn does_stay(gone: Option<MapId>, mapping: &Mapping) -> bool
    ensures { result ≡ stays gone mapping.now }
{
    match gone {
        Some(map) => map.0 != mapping.id.0,
        None => true,
    }
}
