//! The end of a decision: the flags of background work are set, and it has its reply.

ghost use Rattle.std.specs.Prelude.{◌≡◌, ◌++◌, IfOk, None};
ghost use Rattle.fc_books.specs.Books.{nothing};
ghost use Rattle.fc_books.specs.Deciding.{with_work};
ghost use Rattle.fc_books.specs.Work.{work_events};
ghost use Rattle.fc_desk.specs.Control.{books_of};

use crate::control::Control;
use crate::draft::Draft;
use fc_base::decision::Decision;
use fc_base::fault::Refusal;
use fc_base::outcome::NoMemory;
use fc_base::request::Reply;
use fc_base::sheet::Sheet;
use std::alloc::Global;

impl Control {
    /// The decision that a draft has come to, which changes no mapping's copy: the flags of background work are set.
    pub fn conclude<S: Sheet>(
        &self,
        sheet: &S,
        draft: Draft,
        reply: Reply,
    ) -> Result<Decision, NoMemory>
        ensures { IfOk result (λ decision. decision ≡ record { reply = reply; effects = draft.effects; events = draft.events ++ work_events (books_of self.now (S.meaning sheet.now)); changes = draft.changes }) }
    {
        let draft = self.tell_work(sheet, draft, None)?;
        Ok(draft.into_decision(reply))
    }

    /// A refused command changes the flags of background work alone.
    pub fn refuse<S: Sheet>(
        &self,
        alloc: Global,
        sheet: &S,
        refusal: Refusal,
    ) -> Result<Decision, NoMemory>
        ensures { IfOk result (λ decision. decision ≡ with_work (S.meaning sheet.now).restarts (books_of self.now (S.meaning sheet.now)) (Reply.Refused refusal) nothing) }
    {
        self.conclude(sheet, Draft::new(alloc), Reply::Refused(refusal))
    }
}
