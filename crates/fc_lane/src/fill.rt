//! Copies and cleanings of one grain: fills of a slot.

ghost use Rattle.std.specs.Prelude.{◌≡◌, ℕ, ◌%◌, IsSome};
ghost use Rattle.fc_lane.specs.Entering.{HasEntered, HasFilled, IsFill};
ghost use Rattle.fc_lane.specs.Lane.{IsLaneOf, IsReady, of};
ghost use Rattle.fc_lane.specs.Workers.{IsFilled, ask_of, filled_slot};
ghost use Rattle.fc_rules.specs.LaneTold.{LaneTold, place_of};
ghost use Rattle.fc_steps.specs.Asking.{request_of};

use crate::lane::Lane;
use crate::worker::{Worker, ask_of};
use fc_base::ids::{GrainNo, MapId, SlotId};
use fc_base::list::List;
use fc_base::request::{Move, Planned};
use fc_entry::entry::Entry;
use fc_mdisk::mdisk::Mdisk;
use fc_steps::body::StepEnd;
use fc_steps::roomy::room_for;
use std::alloc::Global;

/// A fill: its moves that were made, and how they ended.
#[derive(Drop)]
struct Filled {
    moves: List<Move>,
    end: StepEnd,
}

impl<D: Mdisk> Lane<D> {
    /// Gives a slot its own copy of a grain, with all moves that it asks for before.
    fn fill(&mut self, alloc: Global, slot: SlotId, grain: GrainNo) -> Filled
        requires can { (told : LaneTold) × (k : ℕ) × IsLaneOf self.old told × IsFill (of self.old) told slot.0 grain.0 k }
        requires ready { IsReady self.old }
        ensures { HasFilled self.old slot.0 grain.0 result.moves result.end.calls result.end.stop self.new }
    {
        let place = grain.0 / self.lanes as u32;
        self.plan
            .plan(&self.body.cascade, Planned::Fill { slot, grain });
        let plan = self.plan.as_slice();
        let mut made = room_for(alloc, plan.len(), &mut self.spare);
        let end = self.body.make_moves(plan, place, &mut made);
        Filled {
            moves: made.into_moves(),
            end,
        }
    }

    /// The slot that a worker fills for a mapping.
    pub(crate) fn filled_slot(&self, worker: Worker, map: MapId, grain: GrainNo) -> SlotId
        requires can { (told : LaneTold) × IsLaneOf self.now told × IsSome (filled_slot worker told.sheet.slots map.0 (place_of (of self.now) grain.0)) }
        requires of_lane { grain.0 % self.now.lanes ≡ self.now.lane }
        ensures { IsFilled self.now worker map grain result.0 }
    {
        let Some(slot) = self.body.cascade.slot(map) else {
            unreachable!()
        };
        match worker {
            Worker::Copier => slot,
            Worker::Cleaner => match self.body.cascade.needer(slot, grain.0) {
                Some(needer) => needer,
                None => unreachable!(),
            },
        }
    }

    /// What a worker does of a grain of a mapping: a slot gets its own copy, after all moves that this asks for. It stops at
    /// the first call of a disk that fails; what was done before stays done.
    pub(crate) fn fill_told(
        &mut self,
        alloc: Global,
        number: u64,
        actor: u32,
        worker: Worker,
        map: MapId,
        grain: GrainNo,
    ) -> Entry
        requires can { (told : LaneTold) × IsLaneOf self.old told × IsSome (filled_slot worker told.sheet.slots map.0 (place_of (of self.old) grain.0)) }
        requires of_lane { grain.0 % self.old.lanes ≡ self.old.lane }
        requires ready { IsReady self.old }
        ensures { HasEntered self.old (λ told. IsSome (filled_slot worker told.sheet.slots map.0 (place_of (of self.old) grain.0))) number actor (request_of (ask_of worker map grain)) result self.new }
    {
        let slot = self.filled_slot(worker, map, grain);
        let before = self.body.grains.faults();
        let filled = self.fill(alloc, slot, grain);
        let ask = ask_of(worker, map, grain);
        self.ended(alloc, number, actor, ask, before, filled.moves, filled.end)
    }
}
