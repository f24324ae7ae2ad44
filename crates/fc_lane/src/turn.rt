//! Background work: a worker's turn.

ghost use Rattle.std.specs.Prelude.{◌≡◌};
ghost use Rattle.fc_base.specs.declared.request.Pick.TheVariants.{Any};
ghost use Rattle.fc_lane.specs.Entering.{HasEntered};
ghost use Rattle.fc_lane.specs.Lane.{IsLaneOf, IsReady, of};
ghost use Rattle.fc_lane.specs.Turns.{CanPick};
ghost use Rattle.fc_lane.specs.Workers.{filled_slot, next_of, pick_of};
ghost use Rattle.fc_rules.specs.LaneTold.{LaneTold};
ghost use Rattle.fc_rules.specs.LaneTurn.{cleaned_slot, copied_slot, least_grain, next_clean, next_copy};

use crate::lane::Lane;
use crate::worker::{Worker, turn_of};
use fc_base::ids::{GrainNo, MapId};
use fc_base::request::{Pick, Reply, Request};
use fc_entry::entry::Entry;
use fc_mdisk::mdisk::Mdisk;
use fc_pick::Grid;
use std::alloc::Global;

/// The entry of a turn: what was done, which this entry tells, was asked by this request.
pub(crate) fn turned(mut entry: Entry, request: Request) -> Entry
    ensures { result ≡ record entry { request = request } }
{
    entry.request = request;
    entry
}

impl<D: Mdisk> Lane<D> {
    /// The least grain of the lane that the mapping's slot lacks: the one that a copy would fill. None exactly where it lacks
    /// none.
    pub fn lacking(&self, map: MapId) -> Option<GrainNo>
        requires { (told : LaneTold) × IsLaneOf self.now told }
        ensures { result ≡ least_grain (of self.now) self.now.chains.sheet.slots (copied_slot self.now.chains.sheet.slots map.0) map.0 }
    {
        self.body.lacking(map)
    }

    /// The least grain of the lane that another slot needs from the mapping's slot: the one that a cleaning would hand on.
    /// None exactly where there is none.
    pub fn needed(&self, map: MapId) -> Option<GrainNo>
        requires { (told : LaneTold) × IsLaneOf self.now told }
        ensures { result ≡ least_grain (of self.now) self.now.chains.sheet.slots (cleaned_slot self.now.chains.sheet.slots map.0) map.0 }
    {
        self.body.needed(map)
    }

    /// The first mapping by id that copies and lacks a grain of the lane, and the least such grain.
    fn next_copy(&self) -> Option<(MapId, GrainNo)>
        ensures { (told : LaneTold) → IsLaneOf self.now told → result ≡ next_copy (of self.now) told }
    {
        self.work.next_copy(&self.body)
    }

    /// The first mapping by id that cleans and is needed at a grain of the lane, and the least such grain.
    fn next_clean(&self) -> Option<(MapId, GrainNo)>
        ensures { (told : LaneTold) → IsLaneOf self.now told → result ≡ next_clean (of self.now) told }
    {
        self.work.next_clean(&self.body)
    }

    /// The first mapping by id that has work for the worker in the lane, and the least grain of it.
    pub(crate) fn next_of(&self, worker: Worker) -> Option<(MapId, GrainNo)>
        ensures { (told : LaneTold) → IsLaneOf self.now told → result ≡ next_of worker (of self.now) told }
    {
        match worker {
            Worker::Copier => self.next_copy(),
            Worker::Cleaner => self.next_clean(),
        }
    }

    /// The next piece of the worker's work in the lane. Idle exactly where there is none.
    fn work_next(&mut self, alloc: Global, number: u64, actor: u32, worker: Worker) -> Entry
        requires stands { (told : LaneTold) × IsLaneOf self.old told }
        requires ready { IsReady self.old }
        ensures { HasEntered self.old (λ told. CanPick (of self.old) (filled_slot worker told.sheet.slots) Any) number actor (pick_of worker self.old.lane Any) result self.new }
    {
        let request = turn_of(worker, self.lane);
        match self.next_of(worker) {
            Some((map, grain)) => turned(
                self.fill_told(alloc, number, actor, worker, map, grain),
                request,
            ),
            None => self.untouched(alloc, number, actor, request, Reply::Idle),
        }
    }

    /// A worker's turn: the next piece of its work in the lane, and Idle exactly where there is none; or the grain of a mapping
    /// that is named. It stops at the first call of a disk that fails; what was done before stays done.
    pub(crate) fn turn_told(
        &mut self,
        alloc: Global,
        number: u64,
        actor: u32,
        worker: Worker,
        pick: Pick,
    ) -> Entry
        requires can { (told : LaneTold) × IsLaneOf self.old told × CanPick (of self.old) (filled_slot worker told.sheet.slots) pick }
        requires ready { IsReady self.old }
        ensures { HasEntered self.old (λ told. CanPick (of self.old) (filled_slot worker told.sheet.slots) pick) number actor (pick_of worker self.old.lane pick) result self.new }
    {
        match pick {
            Pick::Any => self.work_next(alloc, number, actor, worker),
            Pick::Grain { map, grain } => {
                self.fill_told(alloc, number, actor, worker, map, grain)
            }
        }
    }
}
