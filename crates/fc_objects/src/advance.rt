//! Decisions on `advance`.

ghost use Rattle.std.specs.Prelude.{◌≡◌, IfOk, Some, None};
ghost use Rattle.fc_books.specs.Deciding.{decide};
ghost use Rattle.fc_books.specs.Refused.{advance_refused};
ghost use Rattle.fc_base.specs.declared.command.Command.{Command};
ghost use Rattle.fc_desk.specs.Control.{books_of};

use fc_base::decision::Decision;
use fc_base::fault::{Refusal, ValueOf};
use fc_base::limits::MAX_SECONDS;
use fc_base::outcome::NoMemory;
use fc_base::request::Reply;
use fc_base::sheet::Sheet;
use fc_desk::{Control, Draft};
use std::alloc::Global;

/// What is decided of an `advance`: BadValue for no seconds, or more than 3,600; else the flags are set.
pub fn decide_advance<S: Sheet>(
    alloc: Global,
    control: &Control,
    sheet: &S,
    seconds: u32,
) -> Result<Decision, NoMemory>
    ensures { IfOk result (λ decision. decision ≡ decide (S.meaning sheet.now).restarts control.now.grain (books_of control.now (S.meaning sheet.now)) (Command.Advance seconds) None) }
{
    match advance_refusal(seconds) {
        Some(refusal) => control.refuse(alloc, sheet, refusal),
        None => control.conclude(sheet, Draft::new(alloc), Reply::Done),
    }
}

/// Why an `advance` is refused, if it is.
fn advance_refusal(seconds: u32) -> Option<Refusal>
    ensures { result ≡ advance_refused seconds }
{
    if seconds == 0 || seconds > MAX_SECONDS {
        Some(Refusal::BadValue(ValueOf::Seconds))
    } else {
        None
    }
}
