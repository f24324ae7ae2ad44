//! Decisions on `rmvdisk`.

ghost use Rattle.std.specs.Prelude.{◌≡◌, ◌||◌, IfOk, None, false};
ghost use Rattle.std.specs.List.{list_any};
ghost use Rattle.fc_base.specs.declared.command.Command.{Command};
ghost use Rattle.fc_books.specs.Copies.{is_used};
ghost use Rattle.fc_books.specs.Deciding.{with_work, decide};
ghost use Rattle.fc_books.specs.Making.{remove_volume};
ghost use Rattle.fc_books.specs.Refused.{names_volume};
ghost use Rattle.fc_books.specs.Sound.{AreSound};
ghost use Rattle.fc_desk.specs.Control.{books_of};

use fc_base::decision::{Decision, LaneEvent};
use fc_base::fault::{Kind, Refusal};
use fc_base::name::Ref;
use fc_base::outcome::NoMemory;
use fc_base::request::{Effect, Reply};
use fc_base::sheet::Sheet;
use fc_base::volume::{Change, Mapping, Volume};
use fc_desk::{Control, Draft, is_used};
use std::alloc::Global;

/// What is decided of a `rmvdisk`: NoSuch without the volume; InUse where a mapping names it or it is used as a
/// source; else it goes.
pub fn decide_rmvdisk<S: Sheet>(
    alloc: Global,
    control: &Control,
    sheet: &S,
    volume: &Ref,
) -> Result<Decision, NoMemory>
    requires sound { AreSound (books_of control.now (S.meaning sheet.now)) }
    ensures { IfOk result (λ decision. decision ≡ decide (S.meaning sheet.now).restarts control.now.grain (books_of control.now (S.meaning sheet.now)) (Command.Rmvdisk volume.now) None) }
{
    match control.registry().volume(volume) {
        None => control.refuse(alloc, sheet, Refusal::NoSuch(Kind::Vdisk)),
        Some(found) => {
            if is_in_use(control.registry().all_mappings(), sheet, found) {
                let decision = control.refuse(alloc, sheet, Refusal::InUse(found.id))?;
                Ok(decision)
            } else {
                let decision = remove_volume(alloc, control, sheet, found)?;
                Ok(decision)
            }
        }
    }
}

/// A volume goes.
fn remove_volume<S: Sheet>(
    alloc: Global,
    control: &Control,
    sheet: &S,
    volume: &Volume,
) -> Result<Decision, NoMemory>
    requires sound { AreSound (books_of control.now (S.meaning sheet.now)) }
    requires unnamed { list_any (names_volume volume.now) control.now.tables.mappings ≡ false }
    ensures { IfOk result (λ decision. decision ≡ with_work (S.meaning sheet.now).restarts (books_of control.now (S.meaning sheet.now)) Reply.Done (remove_volume volume.now)) }
{
    let draft = draft_removal(alloc, volume)?;
    let decision = control.conclude(sheet, draft, Reply::Done)?;
    Ok(decision)
}

/// Whether a mapping names the volume, or it is used as a source.
fn is_in_use<S: Sheet>(mappings: &[Mapping], sheet: &S, volume: &Volume) -> bool
    ensures { result ≡ (list_any (names_volume volume.now) mappings.now || is_used (S.meaning sheet.now).sheet.slots volume.now.id) }
{
    is_named(mappings, volume) || is_used(sheet, volume.id)
}

/// Whether a mapping has the volume as source or target.
fn is_named(mappings: &[Mapping], volume: &Volume) -> bool
    ensures { result ≡ list_any (names_volume volume.now) mappings.now }
{
    mappings.iter().any(|mapping| names_volume(mapping, volume))
}

/// Whether the mapping has the volume as source or target.
fn names_volume(mapping: &Mapping, volume: &Volume) -> bool
    ensures { result ≡ names_volume volume.now mapping.now }
{
    mapping.source.0 == volume.id.0 || mapping.target.0 == volume.id.0
}

/// What removing a volume does.
fn draft_removal(alloc: Global, volume: &Volume) -> Result<Draft, NoMemory>
    ensures { IfOk result (λ draft. draft ≡ remove_volume volume.now) }
{
    let mut draft = Draft::new(alloc);
    draft.affect(Effect::Remove { volume: volume.id })?;
    draft.tell(LaneEvent::Remove { volume: volume.id })?;
    draft.change(Change::RemoveVolume(volume.id))?;
    Ok(draft)
}
