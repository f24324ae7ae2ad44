//! What a copy or a cleaning may answer.

ghost use Rattle.std.specs.Prelude.{◌≡◌, ◌↔◌, IsTrue, IfOk};
ghost use Rattle.fc_base.specs.declared.request.Reply.TheVariants.{Moved, DiskFault, NoMemory as WantsMemory};
ghost use Rattle.fc_rules.specs.GrainAnswers.{FillAnswers};
ghost use Rattle.fc_check_lane.specs.Known.{spot_in};
ghost use Rattle.fc_check_lane.specs.Turns.{filled_in};
ghost use Rattle.fc_check_lane.specs.Answers.{FillIn};

use crate::known::Known;
use crate::turn::Work;
use fc_base::ids::{GrainNo, MapId};
use fc_base::outcome::NoMemory;
use fc_base::request::Reply;
use fc_check_steps::{Step, has_done, has_failed, has_no_memory};
use fc_entry::entry::Entry;
use std::alloc::Global;

impl Known {
    /// Whether an entry moved the grain that it tells, with all that a fill of the slot at a place owes.
    fn moved_fits(
        &self,
        alloc: Global,
        map: MapId,
        number: u32,
        place: usize,
        entry: &Entry,
        told: (MapId, GrainNo),
    ) -> Result<bool, NoMemory>
        ensures { IfOk result (λ yes. IsTrue yes ↔ FillAnswers (spot_in self.now number) map.0 place entry.now (Moved told.0 told.1)) }
    {
        if told.0.0 != map.0 || told.1.0 != number {
            return Ok(false);
        }
        let steps = self.fill_steps(alloc, place, number)?;
        has_done(alloc, steps.as_slice(), entry)
    }

    /// Whether a call failed among those that a fill of the slot at a place makes.
    fn fault_of_fill_fits(
        &self,
        alloc: Global,
        map: MapId,
        number: u32,
        place: usize,
        entry: &Entry,
    ) -> Result<bool, NoMemory>
        ensures { IfOk result (λ yes. IsTrue yes ↔ FillAnswers (spot_in self.now number) map.0 place entry.now DiskFault) }
    {
        let steps = self.fill_steps(alloc, place, number)?;
        has_failed(alloc, number, steps.as_slice(), entry)
    }

    /// Whether a thin disk among those that a fill of the slot at a place is made on wanted memory.
    fn want_of_fill_fits(
        &self,
        alloc: Global,
        map: MapId,
        number: u32,
        place: usize,
        entry: &Entry,
    ) -> Result<bool, NoMemory>
        ensures { IfOk result (λ yes. IsTrue yes ↔ FillAnswers (spot_in self.now number) map.0 place entry.now WantsMemory) }
    {
        let steps = self.fill_steps(alloc, place, number)?;
        has_no_memory(alloc, self.lane_volumes(), steps.as_slice(), entry)
    }

    /// Whether a reply is a right answer of a fill of the slot at a place.
    fn fill_fits(
        &self,
        alloc: Global,
        map: MapId,
        number: u32,
        place: usize,
        entry: &Entry,
        reply: &Reply,
    ) -> Result<bool, NoMemory>
        ensures { IfOk result (λ yes. IsTrue yes ↔ FillAnswers (spot_in self.now number) map.0 place entry.now reply.now) }
    {
        match reply {
            Reply::Moved { map: own, grain } => {
                self.moved_fits(alloc, map, number, place, entry, (*own, *grain))
            }
            Reply::DiskFault => self.fault_of_fill_fits(alloc, map, number, place, entry),
            Reply::NoMemory => self.want_of_fill_fits(alloc, map, number, place, entry),
            _ => Ok(false),
        }
    }

    /// Whether an entry answers rightly as a copy or a cleaning of a mapping at a grain; none does where it isn't possible.
    pub(crate) fn fill_answers(
        &self,
        alloc: Global,
        work: Work,
        map: MapId,
        grain: GrainNo,
        entry: &Entry,
    ) -> Result<bool, NoMemory>
        ensures { IfOk result (λ yes. IsTrue yes ↔ FillIn work self.now map grain entry.now) }
    {
        match self.filled(work, map, grain.0 as usize) {
            Some(place) => self.fill_fits(alloc, map, grain.0, place, entry, &entry.reply),
            None => Ok(false),
        }
    }
}
