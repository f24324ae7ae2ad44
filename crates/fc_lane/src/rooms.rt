//! Room for the moves of the next entry.

ghost use Rattle.std.specs.Prelude.{◌≡◌, ◌≤◌, OnOk};
ghost use Rattle.fc_lane.specs.Lane.{IsReady};

use crate::lane::Lane;
use fc_base::outcome::NoMemory;
use fc_mdisk::mdisk::Mdisk;
use fc_steps::roomy::{widen, widen_spare};
use std::alloc::Global;

/// No lane has so many volumes, since it begins with fewer disks.
const TOO_MANY: usize = 1_073_741_824;

impl<D: Mdisk> Lane<D> {
    /// Makes room for one move per volume in the next plan and in the next entry, so that this entry takes no memory.
    /// Where there is room nothing is done. Refused, there may be some more room.
    pub fn make_room(&mut self, alloc: Global) -> Result<(), NoMemory>
        ensures ok { OnOk result (IsReady self.new) }
        ensures same { self.new ≡ record self.old { plan_room = self.new.plan_room; entry_room = self.new.entry_room } }
        ensures plan_room { self.old.plan_room ≤ self.new.plan_room }
        ensures entry_room { self.old.entry_room ≤ self.new.entry_room }
    {
        let volumes = self.body.cascade.volumes();
        if volumes >= TOO_MANY {
            return Err(NoMemory);
        }
        match widen(alloc, &mut self.plan, volumes) {
            Ok(()) => widen_spare(alloc, &mut self.spare, volumes),
            Err(NoMemory) => Err(NoMemory),
        }
    }
}
