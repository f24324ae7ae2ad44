//! The script of an actor, as a yard's actor does it.

ghost use Rattle.std.specs.Prelude.{◌≡◌, ℕ, List, length, OnOk};

use crate::part::Told;
use crate::script::{ActorScript, Item, Left};
use crate::whole::command_over;
use fc_base::command::Command;
use fc_base::outcome::NoMemory;
use fc_entry::entry::Entry;
use fc_mdisk::mdisk::Mdisk;
use fc_store::store_part::StorePart;
use fc_tasks::script::{Needs, Script};
use std::mem;

impl<D: Mdisk + Send> Script<Told, Entry, StorePart<D>> for ActorScript<D> {
    ghost use Rattle.std.specs.Prelude.{length};
    ghost use Rattle.fc_actors.specs.Scripts.{Goes, HasRoom, Suits, left_of, needs_of};

    ghost needed = { needs_of };

    ghost suits = { λ s parts limit. Suits s parts limit };

    ghost has_room = { λ s part. HasRoom part };

    ghost goes = { λ s entry next. Goes s entry next };

    ghost most = { λ s. length (left_of s) };

    fn needs(&self) -> Needs {
        self.next_needs()
    }

    fn actor(&self) -> u32 {
        self.number()
    }

    fn make_room(&self, part: &mut StorePart<D>) -> Result<(), NoMemory> {
        match part {
            StorePart::Lane(lane) => lane.make_room(self.alloc),
            StorePart::Control(_) => Ok(()),
        }
    }

    fn act(&mut self, part: &mut StorePart<D>) -> Entry {
        match part {
            StorePart::Lane(lane) => self.act_in(lane),
            StorePart::Control(_) => self.refuse(),
        }
    }

    fn act_over(&mut self, parts: &mut Vec<StorePart<D>>) -> Entry {
        let command = self.take_command();
        let tray = mem::replace(&mut self.tray, Vec::new(self.alloc));
        let (entry, tray) = command_over(self.alloc, self.actor, command, parts, tray);
        self.tray = tray;
        entry
    }
}
