//! The phases of a command: what is decided is made ready, and then done.

ghost use Rattle.std.specs.Prelude.{◌≡◌, ◌≤◌, filter, length, OnOk};
ghost use Rattle.fc_control.specs.Changes.{adds, CanApply};
ghost use Rattle.fc_lanes.specs.AllLanes.{CanAllDo, EachLane, IsLaneAfter, IsLaneReady};
ghost use Rattle.fc_stands.specs.Phase.{CanControlDo, CanPrepare, IsControlAfter, IsDecidedAt, IsDone, IsReadyFor, IsReserved};

use crate::store::Store;
use fc_base::decision::Decision;
use fc_base::outcome::NoMemory;
use fc_lanes::phases::{apply_lanes, reserve_lanes};
use fc_mdisk::mdisk::Mdisk;

impl<D: Mdisk> Store<D> {
    /// Makes the control part ready for a decision. What is told stays.
    fn reserve_in_control(&mut self, decision: &Decision) -> Result<(), NoMemory>
        requires one { length (filter adds decision.now.changes) ≤ 1 }
        ensures ok { OnOk result (CanApply self.new.control decision.now) }
        ensures control { self.new.control ≡ record self.old.control { reserved = self.new.control.reserved; room = self.new.control.room } }
        ensures lanes { self.new.lanes ≡ self.old.lanes }
    {
        self.control.reserve(self.alloc, decision)
    }

    /// Makes the lanes ready for a decision. What is told stays.
    fn reserve_in_lanes(&mut self, decision: &Decision) -> Result<(), NoMemory>
        requires decided { IsDecidedAt self.old decision.now }
        ensures ok { OnOk result (CanAllDo self.new.lanes decision.now.events) }
        ensures ready { EachLane IsLaneReady self.old.lanes self.new.lanes }
        ensures control { self.new.control ≡ self.old.control }
    {
        reserve_lanes(self.lanes.as_mut_slice(), &decision.events)
    }

    /// Makes all ready for a decision, so that `apply_all` of it takes no memory. What is told stays.
    pub fn reserve_all(&mut self, decision: &Decision) -> Result<(), NoMemory>
        requires can { CanPrepare self.old decision.now }
        ensures ok { OnOk result (IsReadyFor self.new decision.now) }
        ensures reserved { IsReserved self.old self.new }
    {
        match self.reserve_in_control(decision) {
            Ok(()) => self.reserve_in_lanes(decision),
            Err(NoMemory) => Err(NoMemory),
        }
    }

    /// The lanes do what is decided. Takes no memory.
    fn apply_in_lanes(&mut self, decision: &Decision)
        requires decided { IsDecidedAt self.old decision.now }
        requires ready { CanAllDo self.old.lanes decision.now.events }
        ensures lanes { EachLane (IsLaneAfter decision.now.events) self.old.lanes self.new.lanes }
        ensures control { self.new.control ≡ self.old.control }
    {
        apply_lanes(self.lanes.as_mut_slice(), &decision.events)
    }

    /// The control part does what is decided. Takes no memory.
    fn apply_in_control(&mut self, decision: &Decision)
        requires can { CanControlDo self.old.control decision.now }
        ensures control { IsControlAfter self.old.control self.new.control decision.now }
        ensures lanes { self.new.lanes ≡ self.old.lanes }
    {
        self.control.apply(decision)
    }

    /// Does what is decided, in the lanes and then in the tables. Takes no memory.
    pub fn apply_all(&mut self, decision: &Decision)
        requires ready { IsReadyFor self.old decision.now }
        ensures done { IsDone decision.now self.old self.new }
    {
        self.apply_in_lanes(decision);
        self.apply_in_control(decision);
    }
}
