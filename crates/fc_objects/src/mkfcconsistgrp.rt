//! Decisions on `mkfcconsistgrp`.

ghost use Rattle.std.specs.Prelude.{◌≡◌, IfOk, Some, None};
ghost use Rattle.fc_books.specs.Deciding.{with_work, decide};
ghost use Rattle.fc_books.specs.Refused.{mkfcconsistgrp_refused};
ghost use Rattle.fc_books.specs.Making.{make_group};
ghost use Rattle.fc_base.specs.SheetView.{SheetView};
ghost use Rattle.fc_base.specs.declared.command.Command.{Command};
ghost use Rattle.fc_books.specs.Work.{work_events};
ghost use Rattle.fc_desk.specs.Control.{books_of};

use fc_base::decision::Decision;
use fc_base::fault::{Kind, Refusal};
use fc_base::ids::GroupId;
use fc_base::name::Name;
use fc_base::outcome::NoMemory;
use fc_base::request::Reply;
use fc_base::sheet::Sheet;
use fc_base::volume::{Change, Group};
use fc_desk::{Control, Draft, name_or};
use std::alloc::Global;

/// What is decided of a `mkfcconsistgrp`: Limit for 64 groups; NameTaken; else the group is made.
pub fn decide_mkfcconsistgrp<S: Sheet>(
    alloc: Global,
    control: &Control,
    sheet: &S,
    name: &Option<Name>,
) -> Result<Decision, NoMemory>
    ensures { IfOk result (λ decision. decision ≡ decide (S.meaning sheet.now).restarts control.now.grain (books_of control.now (S.meaning sheet.now)) (Command.Mkfcconsistgrp name.now) None) }
{
    let name = name_or(alloc, name, b"fccstgrp", control.next_group())?;
    match group_refusal(control, &name) {
        Some(refusal) => {
            let decision = control.refuse(alloc, sheet, refusal)?;
            Ok(decision)
        }
        None => {
            let decision = make_group(alloc, control, sheet, name)?;
            Ok(decision)
        }
    }
}

/// Why a group with this name isn't made, if it is refused.
fn group_refusal(control: &Control, name: &Name) -> Option<Refusal>
    ensures { (view : SheetView) → result ≡ mkfcconsistgrp_refused (books_of control.now view) (Some name.now) }
{
    if control.registry().groups() >= 64 {
        return Some(Refusal::Limit(64));
    }
    match control.registry().check_name(Kind::Group, name) {
        Ok(()) => None,
        Err(refusal) => Some(refusal),
    }
}

/// A group is made.
#[tactic(auto, unfolding(fc_books::specs::Work::work_events))]
fn make_group<S: Sheet>(
    alloc: Global,
    control: &Control,
    sheet: &S,
    name: Name,
) -> Result<Decision, NoMemory>
    ensures { IfOk result (λ decision. decision ≡ with_work (S.meaning sheet.now).restarts (books_of control.now (S.meaning sheet.now)) (Reply.Made Kind.Group control.now.next_group) (make_group record { id = record { 0 = control.now.next_group }; name = name })) }
{
    let id = control.next_group();
    let mut draft = Draft::new(alloc);
    draft.change(Change::AddGroup(Group {
        id: GroupId(id),
        name,
    }))?;
    let reply = Reply::Made {
        kind: Kind::Group,
        id,
    };
    let decision = control.conclude(sheet, draft, reply)?;
    Ok(decision)
}
