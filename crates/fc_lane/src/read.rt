//! Reads of blocks of one grain.

ghost use Rattle.std.specs.Prelude.{◌≡◌, ◌<◌, ◌^◌, ◌/◌};
ghost use Rattle.fc_base.specs.declared.request.Request.TheVariants.{Read};
ghost use Rattle.fc_base.specs.declared.state.Access.TheVariants.{Online};
ghost use Rattle.fc_entry.specs.Picture.{grain_of_block};
ghost use Rattle.fc_lane.specs.Lane.{IsLaneOf, of};
ghost use Rattle.fc_lane.specs.Entering.{HasEntered};
ghost use Rattle.fc_rules.specs.LaneFits.{FitsPart};
ghost use Rattle.fc_rules.specs.LaneTold.{LaneTold, lane_access};

use crate::lane::Lane;
use fc_base::outcome::NoMemory;
use fc_base::request::{ReadPart, Reply, Request};
use fc_base::state::Access;
use fc_entry::entry::Entry;
use fc_mdisk::mdisk::Mdisk;
use fc_steps::read::{GrainRead, runs_of};
use std::alloc::Global;

impl<D: Mdisk> Lane<D> {
    /// Reads blocks of one grain of a volume that is online.
    fn read_online(&mut self, alloc: Global, number: u64, actor: u32, part: ReadPart) -> Entry
        requires can { (told : LaneTold) × IsLaneOf self.old told × FitsPart (of self.old) told part.volume part.block part.count }
        requires number { grain_of_block self.old.grains.grain part.block < 2 ^ 32 }
        requires online { lane_access self.old.accesses.volumes part.volume ≡ Online }
        ensures entered { HasEntered self.old (λ told. FitsPart (of self.old) told part.volume part.block part.count) number actor (Read part) result self.new }
        ensures entry_room { self.new.entry_room ≡ self.old.entry_room }
    {
        let before = self.body.grains.faults();
        let blocks = self.body.grains.grain().blocks() as u64;
        let grain = (part.block / blocks) as u32;
        let place = grain / self.lanes as u32;
        let read = Request::Read(part);
        match self.body.read_shown(part.volume, grain, place) {
            GrainRead::IsLost => {
                self.answered(alloc, number, actor, read, Reply::MediumError, before, 0)
            }
            GrainRead::Failed => {
                self.answered(alloc, number, actor, read, Reply::DiskFault, before, 1)
            }
            GrainRead::Done => match runs_of(&self.body.grains, alloc, &part) {
                Ok(runs) => {
                    self.answered(alloc, number, actor, read, Reply::Bytes(runs), before, 1)
                }
                Err(NoMemory) => {
                    self.answered(alloc, number, actor, read, Reply::NoMemory, before, 1)
                }
            },
        }
    }

    /// Reads blocks of one grain of a volume: the bytes that the volume's holder has there. A volume that isn't online
    /// answers how it may be reached, and a lost grain a medium error.
    pub(crate) fn read_told(
        &mut self,
        alloc: Global,
        number: u64,
        actor: u32,
        part: ReadPart,
    ) -> Entry
        requires can { (told : LaneTold) × IsLaneOf self.old told × FitsPart (of self.old) told part.volume part.block part.count }
        requires number { grain_of_block self.old.grains.grain part.block < 2 ^ 32 }
        ensures entered { HasEntered self.old (λ told. FitsPart (of self.old) told part.volume part.block part.count) number actor (Read part) result self.new }
        ensures entry_room { self.new.entry_room ≡ self.old.entry_room }
    {
        match self.accesses.access(part.volume) {
            Access::Online => self.read_online(alloc, number, actor, part),
            Access::Offline { map, state } => {
                let reply = Reply::Offline { map, state };
                self.untouched(alloc, number, actor, Request::Read(part), reply)
            }
            Access::NotAccessible { map } => {
                let reply = Reply::NotAccessible { map };
                self.untouched(alloc, number, actor, Request::Read(part), reply)
            }
        }
    }
}
