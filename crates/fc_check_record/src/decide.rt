//! What the books decide.

ghost use Rattle.std.specs.Prelude.{◌≡◌, ◌<◌, IfOk, IsTrue, List, Option, length};
ghost use Rattle.fc_base.specs.declared.ids.VolId.{VolId};
ghost use Rattle.fc_books.specs.Deciding.{IsLoopOf, settle};
ghost use Rattle.fc_books.specs.Sound.{AreSound};
ghost use Rattle.fc_check_sheet.specs.View.{IsSmall};
ghost use Rattle.fc_control.specs.Dispatch.{is_decided};
ghost use Rattle.fc_follow.specs.Following.{restarts};
ghost use Rattle.fc_legal.specs.Steps.{decided_on};
ghost use Rattle.fc_starts.specs.Starts.{HaveRoom};

use crate::record::Record;
use fc_base::command::Command;
use fc_base::decision::Decision;
use fc_base::outcome::NoMemory;
use fc_check_sheet::PlainView;
use fc_control::decide;
use std::alloc::Global;

impl Record {
    /// What decisions see of chains, incremental mappings, disks, and the memory that grains occupy.
    fn view(&self) -> PlainView<'_>
        requires sound { AreSound self.now.whole.books }
        requires small { IsSmall self.now.whole.books.sheet.slots self.now.whole.rows }
        ensures { result ≡ record { sheet = self.now.whole.books.sheet; rows = self.now.whole.rows; pools = self.now.whole.books.pools; rooms = self.now.whole.books.rooms } }
    {
        let known = &self.kept.known;
        let mappings = self.kept.control.registry().all_mappings();
        PlainView::new(
            &known.sheet,
            mappings,
            &self.kept.rows,
            self.kept.pools.as_slice(),
            &self.kept.rooms,
        )
    }

    /// What every command does first. Refused for want of memory alone.
    pub fn settle(&self, alloc: Global) -> Result<Decision, NoMemory>
        requires sound { AreSound self.now.whole.books }
        requires small { IsSmall self.now.whole.books.sheet.slots self.now.whole.rows }
        ensures { IfOk result (λ decision. decision ≡ settle self.now.whole.books) }
    {
        let view = self.view();
        self.kept.control.settle(alloc, &view)
    }

    /// What is decided of a command after that. Refused for want of memory alone.
    pub fn decide(&self, alloc: Global, command: &Command) -> Result<Decision, NoMemory>
        requires sound { AreSound self.now.whole.books }
        requires lanes { 0 < length self.now.whole.books.pools }
        requires room { HaveRoom self.now.whole.books (restarts self.now.whole.rows) }
        requires small { IsSmall self.now.whole.books.sheet.slots self.now.whole.rows }
        requires decided { IsTrue (is_decided command.now) }
        ensures { IfOk result (λ decision. (loop : Option (List VolId)) × IsLoopOf self.now.grain self.now.whole.books command.now loop × (decision ≡ decided_on self.now.grain self.now.whole command.now loop)) }
    {
        let view = self.view();
        decide(alloc, &self.kept.control, command, &view)
    }
}
