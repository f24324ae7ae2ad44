//! Writes of blocks of one grain.

ghost use Rattle.std.specs.Prelude.{◌≡◌, ◌<◌, ◌^◌, ◌/◌, false};
ghost use Rattle.fc_base.specs.declared.request.Request.TheVariants.{Write};
ghost use Rattle.fc_base.specs.declared.state.Access.TheVariants.{Online};
ghost use Rattle.fc_entry.specs.Picture.{grain_of_block};
ghost use Rattle.fc_lane.specs.Entering.{HasEntered};
ghost use Rattle.fc_lane.specs.Lane.{IsLaneOf, IsReady, of};
ghost use Rattle.fc_steps.specs.WriteStep.{spot_of};
ghost use Rattle.fc_rules.specs.GrainAnswers.{cannot_write};
ghost use Rattle.fc_rules.specs.LaneFits.{FitsPart};
ghost use Rattle.fc_rules.specs.LaneTold.{LaneTold, lane_access};

use crate::lane::Lane;
use fc_base::ids::GrainNo;
use fc_base::request::{Planned, Reply, Request, WritePart};
use fc_base::state::Access;
use fc_entry::entry::Entry;
use fc_mdisk::mdisk::Mdisk;
use fc_steps::ask::Ask;
use fc_steps::roomy::room_for;
use std::alloc::Global;

impl<D: Mdisk> Lane<D> {
    /// Writes blocks of one grain that can be written, at this place among the lane's, with the moves that this owes.
    fn write_grain(
        &mut self,
        alloc: Global,
        number: u64,
        actor: u32,
        part: WritePart,
        grain: GrainNo,
        place: u32,
    ) -> Entry
        requires can { (told : LaneTold) × IsLaneOf self.old told × FitsPart (of self.old) told part.volume part.block part.count }
        requires writable { (told : LaneTold) → IsLaneOf self.old told → FitsPart (of self.old) told part.volume part.block part.count → cannot_write self.old.grains.grain (spot_of (of self.old) told part) part ≡ false }
        requires ready { IsReady self.old }
        requires online { lane_access self.old.accesses.volumes part.volume ≡ Online }
        requires number { grain.0 ≡ grain_of_block self.old.grains.grain part.block }
        requires place { place ≡ grain.0 / self.old.lanes }
        ensures { HasEntered self.old (λ told. FitsPart (of self.old) told part.volume part.block part.count) number actor (Write part) result self.new }
    {
        let before = self.body.grains.faults();
        let write = Planned::Write {
            volume: part.volume,
            grain,
        };
        self.plan.plan(&self.body.cascade, write);
        let plan = self.plan.as_slice();
        let mut made = room_for(alloc, plan.len(), &mut self.spare);
        let end = self.body.write_all(plan, part, grain, place, &mut made);
        self.ended(
            alloc,
            number,
            actor,
            Ask::Write(part),
            before,
            made.into_moves(),
            end,
        )
    }

    /// Writes blocks of one grain of a volume that is online.
    fn write_online(&mut self, alloc: Global, number: u64, actor: u32, part: WritePart) -> Entry
        requires can { (told : LaneTold) × IsLaneOf self.old told × FitsPart (of self.old) told part.volume part.block part.count }
        requires number { grain_of_block self.old.grains.grain part.block < 2 ^ 32 }
        requires ready { IsReady self.old }
        requires online { lane_access self.old.accesses.volumes part.volume ≡ Online }
        ensures { HasEntered self.old (λ told. FitsPart (of self.old) told part.volume part.block part.count) number actor (Write part) result self.new }
    {
        let blocks = self.body.grains.grain().blocks() as u64;
        let grain = (part.block / blocks) as u32;
        let place = grain / self.lanes as u32;
        if !self.body.can_write(part, grain, place) {
            return self.untouched(
                alloc,
                number,
                actor,
                Request::Write(part),
                Reply::MediumError,
            );
        }
        self.write_grain(alloc, number, actor, part, GrainNo(grain), place)
    }

    /// Writes blocks of one grain of a volume, after the moves that this owes, so that every copy keeps what it shows. A
    /// volume that isn't online answers how it may be reached, a part of a lost grain a medium error. It stops at the
    /// first call of a disk that fails; what was done before stays done.
    pub(crate) fn write_told(
        &mut self,
        alloc: Global,
        number: u64,
        actor: u32,
        part: WritePart,
    ) -> Entry
        requires can { (told : LaneTold) × IsLaneOf self.old told × FitsPart (of self.old) told part.volume part.block part.count }
        requires number { grain_of_block self.old.grains.grain part.block < 2 ^ 32 }
        requires ready { IsReady self.old }
        ensures { HasEntered self.old (λ told. FitsPart (of self.old) told part.volume part.block part.count) number actor (Write part) result self.new }
    {
        match self.accesses.access(part.volume) {
            Access::Online => self.write_online(alloc, number, actor, part),
            Access::Offline { map, state } => {
                let reply = Reply::Offline { map, state };
                self.untouched(alloc, number, actor, Request::Write(part), reply)
            }
            Access::NotAccessible { map } => {
                let reply = Reply::NotAccessible { map };
                self.untouched(alloc, number, actor, Request::Write(part), reply)
            }
        }
    }
}
