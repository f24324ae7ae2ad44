//! Background work, as it is set after stops.

ghost use Rattle.std.specs.Prelude.{◌≡◌, ◌++◌, flat_map, OnOk, IfOk, option_copied};
ghost use Rattle.fc_desk.specs.Control.{books_of};
ghost use Rattle.fc_stops.specs.Stops.{mapping_after, set_by, set_next, told_after};
ghost use Rattle.fc_desk.specs.Telling.{told_flags};

use fc_base::outcome::NoMemory;
use fc_base::sheet::Sheet;
use fc_base::volume::{Change, Mapping};
use fc_desk::{Control, Draft, tell_flags};
use fc_pick::WorkFlags;

/// Lanes are told of the background work that changes, of all mappings as they are after the draft's changes. No slot
/// of a mapping that is still copying has changed.
pub fn tell_work_after<S: Sheet>(
    control: &Control,
    sheet: &S,
    mut draft: Draft,
) -> Result<Draft, NoMemory>
    ensures { IfOk result (λ whole. whole ≡ record draft { events = draft.events ++ flat_map (told_after (books_of control.now (S.meaning sheet.now)) draft.changes) control.now.tables.mappings }) }
{
    for mapping in control.registry().all_mappings() {
        tell_after(control, sheet, &mut draft, mapping)?;
    }
    Ok(draft)
}

/// Lanes are told of the background work of a mapping as it is after the draft's changes, where it changes.
fn tell_after<S: Sheet>(
    control: &Control,
    sheet: &S,
    draft: &mut Draft,
    mapping: &Mapping,
) -> Result<(), NoMemory>
    ensures { OnOk result (draft.new ≡ record draft.old { events = draft.old.events ++ told_after (books_of control.now (S.meaning sheet.now)) draft.old.changes mapping.now }) }
{
    let flags = work_after(control, sheet, draft.changes(), mapping);
    tell_flags(draft, flags)
}

/// The flags of a mapping as it is after changes, where they change.
fn work_after<S: Sheet>(
    control: &Control,
    sheet: &S,
    changes: &[Change],
    mapping: &Mapping,
) -> Option<WorkFlags>
    ensures { told_flags result ≡ told_after (books_of control.now (S.meaning sheet.now)) changes.now mapping.now }
{
    match mapping_after(changes, mapping) {
        Some(mapping) => control.work_of(sheet, mapping),
        None => None,
    }
}

/// The mapping as it is after changes; None where it went.
pub fn mapping_after<'a>(changes: &'a [Change], mapping: &'a Mapping) -> Option<&'a Mapping>
    ensures { option_copied result ≡ mapping_after changes.now mapping.now }
{
    let mut current = Some(mapping);
    for change in changes {
        current = set_next(change, current);
    }
    current
}

/// The mapping as it is after one more change.
fn set_next<'a>(change: &'a Change, current: Option<&'a Mapping>) -> Option<&'a Mapping>
    ensures { option_copied result ≡ set_next change.now (option_copied current.entry) }
{
    match current {
        Some(mapping) => set_by(change, mapping),
        None => None,
    }
}

/// What a change makes of the mapping.
fn set_by<'a>(change: &'a Change, mapping: &'a Mapping) -> Option<&'a Mapping>
    ensures { option_copied result ≡ set_by change.now mapping.now }
{
    match change {
        Change::SetMapping(set) if set.id.0 == mapping.id.0 => Some(set),
        Change::RemoveMapping(id) if id.0 == mapping.id.0 => None,
        _ => Some(mapping),
    }
}
