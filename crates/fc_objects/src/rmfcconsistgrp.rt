//! Decisions on `rmfcconsistgrp`.

ghost use Rattle.std.specs.Prelude.{◌≡◌, IfOk, OnOk, None};
ghost use Rattle.fc_base.specs.declared.command.Command.{Command};
ghost use Rattle.fc_books.specs.Books.{◌then◌, all_deeds};
ghost use Rattle.fc_books.specs.Deciding.{with_work, decide};
ghost use Rattle.fc_books.specs.Groups.{is_member};
ghost use Rattle.fc_books.specs.Making.{remove_group};
ghost use Rattle.fc_desk.specs.Control.{books_of};
ghost use Rattle.fc_objects.specs.Leaving.{leaves_group};
ghost use Rattle.fc_desk.specs.ForChosen.{for_chosen};

use fc_base::decision::Decision;
use fc_base::fault::{Kind, Refusal};
use fc_base::ids::GroupId;
use fc_base::name::Ref;
use fc_base::outcome::NoMemory;
use fc_base::request::Reply;
use fc_base::sheet::Sheet;
use fc_base::volume::{Change, Mapping};
use fc_desk::{Control, Draft, copy_mapping, has_member};
use fc_group::is_member;
use std::alloc::Global;

/// What is decided of a `rmfcconsistgrp`: NoSuch without the group; NeedsForce where it has members, without
/// `-force`; else it goes, and its members stay as single mappings.
pub fn decide_rmfcconsistgrp<S: Sheet>(
    alloc: Global,
    control: &Control,
    sheet: &S,
    group: &Ref,
    force: bool,
) -> Result<Decision, NoMemory>
    ensures { IfOk result (λ decision. decision ≡ decide (S.meaning sheet.now).restarts control.now.grain (books_of control.now (S.meaning sheet.now)) (Command.Rmfcconsistgrp group.now force) None) }
{
    match control.registry().group(group) {
        None => control.refuse(alloc, sheet, Refusal::NoSuch(Kind::Group)),
        Some(found) => {
            if !force && has_member(control.registry().all_mappings(), found.id) {
                let decision = control.refuse(alloc, sheet, Refusal::NeedsForce)?;
                Ok(decision)
            } else {
                let decision = remove_group(alloc, control, sheet, found.id)?;
                Ok(decision)
            }
        }
    }
}

/// A group goes.
fn remove_group<S: Sheet>(
    alloc: Global,
    control: &Control,
    sheet: &S,
    group: GroupId,
) -> Result<Decision, NoMemory>
    ensures { IfOk result (λ decision. decision ≡ with_work (S.meaning sheet.now).restarts (books_of control.now (S.meaning sheet.now)) Reply.Done (remove_group control.now.tables group)) }
{
    let mappings = control.registry().all_mappings();
    let mut draft = draft_leaving(alloc, mappings, group)?;
    draft.change(Change::RemoveGroup(group))?;
    let decision = control.conclude(sheet, draft, Reply::Done)?;
    Ok(decision)
}

/// The members of the group leave it.
fn draft_leaving(alloc: Global, mappings: &[Mapping], group: GroupId) -> Result<Draft, NoMemory>
    ensures { IfOk result (λ draft. draft ≡ all_deeds (for_chosen (is_member group) leaves_group) mappings.now) }
{
    let mut draft = Draft::new(alloc);
    for mapping in mappings {
        leave_group(alloc, &mut draft, mapping, group)?;
    }
    Ok(draft)
}

/// A member of the group leaves it.
fn leave_group(
    alloc: Global,
    draft: &mut Draft,
    mapping: &Mapping,
    group: GroupId,
) -> Result<(), NoMemory>
    ensures { OnOk result (draft.new ≡ (draft.old then for_chosen (is_member group) leaves_group mapping.now)) }
{
    if is_member(mapping, group) {
        let copy = copy_mapping(alloc, mapping)?;
        draft.change(Change::SetMapping(Mapping {
            group: None,
            ..copy
        }))
    } else {
        Ok(())
    }
}
