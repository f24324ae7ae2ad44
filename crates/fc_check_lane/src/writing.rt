//! What a write may answer.

ghost use Rattle.std.specs.Prelude.{◌≡◌, ◌↔◌, IsTrue, IfOk};
ghost use Rattle.fc_base.specs.Sheet.{live_place};
ghost use Rattle.fc_base.specs.declared.request.Reply.TheVariants.{MediumError};
ghost use Rattle.fc_entry.specs.Picture.{grain_of_block};
ghost use Rattle.fc_rules.specs.GrainAnswers.{WriteAnswers, cannot_write};
ghost use Rattle.fc_rules.specs.Steps.{HasDoneNothing};
ghost use Rattle.fc_check_lane.specs.Known.{spot_in};
ghost use Rattle.fc_check_lane.specs.Steps.{CanWrite, CanWriteTo};
ghost use Rattle.fc_check_lane.specs.Answers.{VolumeWriteIn, WriteIn};

use crate::known::Known;
use crate::reading::{is_not_accessible, is_offline};
use crate::steps::covers_grain;
use fc_base::outcome::NoMemory;
use fc_base::request::{Reply, WritePart};
use fc_base::state::Access;
use fc_check_steps::{access_of, has_done, has_done_nothing, has_failed, has_no_memory};
use fc_entry::entry::Entry;
use std::alloc::Global;

/// Whether a reply is a medium error, and its entry did nothing.
fn is_medium_error(entry: &Entry, reply: &Reply) -> bool
    ensures { IsTrue result ↔ ((reply.now ≡ MediumError) × HasDoneNothing entry.now) }
{
    match reply {
        Reply::MediumError => has_done_nothing(entry),
        _ => false,
    }
}

impl Known {
    /// Whether a write covers a part of a lost grain.
    fn cannot_write(&self, part: WritePart, number: u32) -> bool
        ensures { result ≡ cannot_write self.now.grain (spot_in self.now number) part }
    {
        self.is_lost(part.volume, number) && !covers_grain(self.grain_size(), part)
    }

    /// Whether a reply is a right answer of a write to the volume of a live slot, which is online.
    fn write_fits(
        &self,
        alloc: Global,
        part: WritePart,
        live: usize,
        number: u32,
        entry: &Entry,
        reply: &Reply,
    ) -> Result<bool, NoMemory>
        ensures { IfOk result (λ yes. CanWrite self.now number live → IsTrue yes ↔ WriteAnswers self.now.grain (spot_in self.now number) part live entry.now reply.now) }
    {
        let cannot = self.cannot_write(part, number);
        if cannot {
            return Ok(is_medium_error(entry, reply));
        }
        let steps = self.write_steps(alloc, part, live, number)?;
        match reply {
            Reply::Done => has_done(alloc, steps.as_slice(), entry),
            Reply::DiskFault => has_failed(alloc, number, steps.as_slice(), entry),
            Reply::NoMemory => has_no_memory(alloc, self.lane_volumes(), steps.as_slice(), entry),
            _ => Ok(false),
        }
    }

    /// Whether an entry answers rightly as a write of a volume that is online.
    fn volume_write_fits(
        &self,
        alloc: Global,
        part: WritePart,
        number: u32,
        entry: &Entry,
    ) -> Result<bool, NoMemory>
        requires { number ≡ grain_of_block self.now.grain part.block }
        ensures { IfOk result (λ yes. CanWriteTo self.now part.volume.0 number → IsTrue yes ↔ VolumeWriteIn self.now part (live_place self.now.sheet.slots part.volume.0) entry.now) }
    {
        match self.chains().live_place(part.volume) {
            Some(live) => self.write_fits(alloc, part, live, number, entry, &entry.reply),
            None => Ok(false),
        }
    }

    /// Whether an entry answers rightly as a write of a grain.
    pub(crate) fn write_answers(
        &self,
        alloc: Global,
        part: WritePart,
        number: u32,
        entry: &Entry,
    ) -> Result<bool, NoMemory>
        requires { number ≡ grain_of_block self.now.grain part.block }
        ensures { IfOk result (λ yes. CanWriteTo self.now part.volume.0 number → IsTrue yes ↔ WriteIn self.now part entry.now) }
    {
        match access_of(self.lane_volumes(), part.volume) {
            Access::Online => self.volume_write_fits(alloc, part, number, entry),
            Access::Offline { map, state } => Ok(is_offline(entry, map, state)),
            Access::NotAccessible { map } => Ok(is_not_accessible(entry, map)),
        }
    }
}
