//! What a read may answer.

ghost use Rattle.std.specs.Prelude.{◌≡◌, ◌↔◌, ◌≤◌, ℕ, IsTrue, IfOk};
ghost use Rattle.fc_base.specs.declared.request.Reply.TheVariants.{Offline, NotAccessible, Bytes, MediumError, DiskFault, NoMemory as WantsMemory};
ghost use Rattle.fc_entry.specs.Picture.{grain_of_block, is_lost, now_at, volume_in};
ghost use Rattle.fc_rules.specs.GrainAnswers.{ByAccess, HasRead, ReadAnswers};
ghost use Rattle.fc_rules.specs.Steps.{HasDoneNothing};
ghost use Rattle.fc_check_lane.specs.Known.{spot_in};
ghost use Rattle.fc_check_lane.specs.Answers.{ReadIn};

use crate::inside::block_in_grain;
use crate::known::Known;
use fc_base::ids::{MapId, VolId};
use fc_base::outcome::NoMemory;
use fc_base::request::{ReadPart, Reply};
use fc_base::runs::Runs;
use fc_base::state::{Access, MapState};
use fc_check_steps::{access_of, has_done_nothing, has_risen};
use fc_entry::entry::Entry;
use std::alloc::Global;

/// Whether a reply says that the volume is offline by this mapping in this state.
fn says_offline(reply: &Reply, map: MapId, state: MapState) -> bool
    ensures { IsTrue result ↔ (reply.now ≡ Offline map state) }
{
    match reply {
        Reply::Offline {
            map: own,
            state: told,
        } => own.0 == map.0 && *told == state,
        _ => false,
    }
}

/// Whether a reply says that the volume is being prepared as this mapping's target.
fn says_not_accessible(reply: &Reply, map: MapId) -> bool
    ensures { IsTrue result ↔ (reply.now ≡ NotAccessible map) }
{
    match reply {
        Reply::NotAccessible { map: own } => own.0 == map.0,
        _ => false,
    }
}

/// Whether an entry says that the volume is offline, and did nothing.
pub(crate) fn is_offline(entry: &Entry, map: MapId, state: MapState) -> bool
    ensures { IsTrue result ↔ ((entry.now.reply ≡ Offline map state) × HasDoneNothing entry.now) }
{
    says_offline(&entry.reply, map, state) && has_done_nothing(entry)
}

/// Whether an entry says that the volume is being prepared, and did nothing.
pub(crate) fn is_not_accessible(entry: &Entry, map: MapId) -> bool
    ensures { IsTrue result ↔ ((entry.now.reply ≡ NotAccessible map) × HasDoneNothing entry.now) }
{
    says_not_accessible(&entry.reply, map) && has_done_nothing(entry)
}

/// Whether an entry moved and tore nothing, and made so many calls.
fn has_read(entry: &Entry, calls: u32) -> bool
    ensures { IsTrue result ↔ HasRead calls entry.now }
{
    entry.moves.as_slice().is_empty() && entry.torn.is_none() && entry.calls == calls
}

/// Whether an entry moved and tore nothing, and made one call or none.
fn has_tried(entry: &Entry) -> bool
    ensures { IsTrue result ↔ ((calls : ℕ) × (calls ≤ 1) × HasRead calls entry.now) }
{
    entry.calls <= 1 && has_read(entry, entry.calls)
}

impl Known {
    /// Whether a grain of a volume is lost.
    pub(crate) fn is_lost(&self, volume: VolId, number: u32) -> bool
        ensures { result ≡ is_lost (now_at (volume_in self.now.picture volume) number) }
    {
        self.plain().is_lost(volume, number as usize)
    }

    /// Whether these bytes are a right answer of a read of a grain.
    fn bytes_fit(
        &self,
        alloc: Global,
        part: ReadPart,
        number: u32,
        entry: &Entry,
        runs: &Runs,
    ) -> Result<bool, NoMemory>
        ensures { IfOk result (λ yes. IsTrue yes ↔ ReadAnswers self.now.grain (spot_in self.now number) part entry.now (Bytes runs.now)) }
    {
        let from = block_in_grain(self.grain_size(), part.block);
        let picture = self.plain();
        let hold = picture.holds(alloc, part.volume, number as usize, from, part.count, runs)?;
        Ok(hold && has_read(entry, 1))
    }

    /// Whether a medium error is a right answer of a read of a grain.
    fn medium_error_fits(&self, part: ReadPart, number: u32, entry: &Entry) -> bool
        ensures { IsTrue result ↔ ReadAnswers self.now.grain (spot_in self.now number) part entry.now MediumError }
    {
        self.is_lost(part.volume, number) && has_read(entry, 0)
    }

    /// Whether a disk fault is a right answer of a read of a grain.
    fn disk_fault_fits(&self, part: ReadPart, number: u32, entry: &Entry) -> bool
        ensures { IsTrue result ↔ ReadAnswers self.now.grain (spot_in self.now number) part entry.now DiskFault }
    {
        !self.is_lost(part.volume, number)
            && has_read(entry, 1)
            && has_risen(entry.faults_before, entry.faults_after)
    }

    /// Whether want of memory is a right answer of a read of a grain.
    fn no_memory_fits(&self, part: ReadPart, number: u32, entry: &Entry) -> bool
        ensures { IsTrue result ↔ ReadAnswers self.now.grain (spot_in self.now number) part entry.now WantsMemory }
    {
        !self.is_lost(part.volume, number) && has_tried(entry)
    }

    /// Whether a reply is a right answer of a read of a grain of a volume that is online.
    fn read_fits(
        &self,
        alloc: Global,
        part: ReadPart,
        number: u32,
        entry: &Entry,
        reply: &Reply,
    ) -> Result<bool, NoMemory>
        ensures { IfOk result (λ yes. IsTrue yes ↔ ReadAnswers self.now.grain (spot_in self.now number) part entry.now reply.now) }
    {
        match reply {
            Reply::Bytes(runs) => self.bytes_fit(alloc, part, number, entry, runs),
            Reply::MediumError => Ok(self.medium_error_fits(part, number, entry)),
            Reply::DiskFault => Ok(self.disk_fault_fits(part, number, entry)),
            Reply::NoMemory => Ok(self.no_memory_fits(part, number, entry)),
            _ => Ok(false),
        }
    }

    /// Whether an entry answers rightly as a read of a grain.
    pub(crate) fn read_answers(
        &self,
        alloc: Global,
        part: ReadPart,
        number: u32,
        entry: &Entry,
    ) -> Result<bool, NoMemory>
        requires { number ≡ grain_of_block self.now.grain part.block }
        ensures { IfOk result (λ yes. IsTrue yes ↔ ReadIn self.now part entry.now) }
    {
        match access_of(self.lane_volumes(), part.volume) {
            Access::Online => self.read_fits(alloc, part, number, entry, &entry.reply),
            Access::Offline { map, state } => Ok(is_offline(entry, map, state)),
            Access::NotAccessible { map } => Ok(is_not_accessible(entry, map)),
        }
    }
}
