//! Decisions on `armfault`.

ghost use Rattle.std.specs.Prelude.{◌≡◌, IfOk, Some, None};
ghost use Rattle.fc_books.specs.Deciding.{decide};
ghost use Rattle.fc_base.specs.declared.command.Command.{Command};
ghost use Rattle.fc_desk.specs.Control.{books_of};

use fc_base::decision::{Decision, LaneEvent};
use fc_base::fault::{Kind, Refusal, ValueOf};
use fc_base::ids::GrainNo;
use fc_base::name::Ref;
use fc_base::outcome::NoMemory;
use fc_base::request::Reply;
use fc_base::sheet::Sheet;
use fc_desk::{Control, Draft};
use std::alloc::Global;

/// What is decided of an `armfault`: NoSuch without such a volume; BadValue for a grain past its end; else the lanes
/// are told.
pub fn decide_armfault<S: Sheet>(
    alloc: Global,
    control: &Control,
    sheet: &S,
    volume: &Ref,
    grain: u32,
    calls: u32,
) -> Result<Decision, NoMemory>
    ensures { IfOk result (λ decision. decision ≡ decide (S.meaning sheet.now).restarts control.now.grain (books_of control.now (S.meaning sheet.now)) (Command.Armfault volume.now grain calls) None) }
{
    match control.registry().volume(volume) {
        None => control.refuse(alloc, sheet, Refusal::NoSuch(Kind::Vdisk)),
        Some(found) if found.grains <= grain => {
            control.refuse(alloc, sheet, Refusal::BadValue(ValueOf::Grain))
        }
        Some(found) => {
            let mut draft = Draft::new(alloc);
            draft.tell(LaneEvent::Arm {
                volume: found.id,
                grain: GrainNo(grain),
                calls,
            })?;
            control.conclude(sheet, draft, Reply::Done)
        }
    }
}
