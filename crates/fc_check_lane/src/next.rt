//! Whether an entry of a lane may come next.

ghost use Rattle.std.specs.Prelude.{◌≡◌, ◌↔◌, ◌<◌, IsTrue, IfOk, length};
ghost use Rattle.fc_base.specs.declared.request.Reply.TheVariants.{Idle};
ghost use Rattle.fc_base.specs.declared.request.Request.TheVariants.{Read, Write};
ghost use Rattle.fc_base.specs.declared.size.GrainSize.{GrainSize};
ghost use Rattle.fc_books.specs.Sound.{AreSound};
ghost use Rattle.fc_entry.specs.Picture.{grain_of_block};
ghost use Rattle.fc_legal.specs.Whole.{Whole};
ghost use Rattle.fc_rules.specs.Steps.{HasDoneNothing};
ghost use Rattle.fc_check_lane.specs.Known.{known_of};
ghost use Rattle.fc_check_lane.specs.Steps.{CanWriteTo};
ghost use Rattle.fc_check_lane.specs.Answers.{IsOfGrain, IsOfLane, ReadIn, WriteIn, FillIn, TurnIn, RequestIn, IsNextIn, CanBeWritten};
ghost use Rattle.fc_check_lane.specs.Next.{IsNext};
ghost use Rattle.fc_check_lane.specs.Turns.{HasFewGrains};

use crate::known::Known;
use crate::turn::Work;
use fc_base::ids::{GrainNo, MapId};
use fc_base::outcome::NoMemory;
use fc_base::request::{ReadPart, Reply, Request, WritePart};
use fc_check_steps::has_done_nothing;
use fc_entry::entry::Entry;
use std::alloc::Global;

/// Whether a reply says that there was nothing to do.
fn says_idle(reply: &Reply) -> bool
    ensures { IsTrue result ↔ (reply.now ≡ Idle) }
{
    match reply {
        Reply::Idle => true,
        _ => false,
    }
}

/// Whether an entry says that there was nothing to do, and did nothing.
fn is_idle(entry: &Entry) -> bool
    ensures { IsTrue result ↔ ((entry.now.reply ≡ Idle) × HasDoneNothing entry.now) }
{
    says_idle(&entry.reply) && has_done_nothing(entry)
}

impl Known {
    /// Whether an entry may be that of this read, of a grain that is there.
    fn read_at(
        &self,
        alloc: Global,
        part: ReadPart,
        number: u32,
        entry: &Entry,
    ) -> Result<bool, NoMemory>
        requires { number ≡ grain_of_block self.now.grain part.block }
        ensures { IfOk result (λ yes. IsTrue yes ↔ (IsOfGrain self.now number entry.now × ReadIn self.now part entry.now)) }
    {
        let here = self.is_of_grain(number, entry);
        if here {
            self.read_answers(alloc, part, number, entry)
        } else {
            Ok(false)
        }
    }

    /// Whether an entry may be that of this read.
    fn read_is_next(&self, alloc: Global, part: ReadPart, entry: &Entry) -> Result<bool, NoMemory>
        ensures { IfOk result (λ yes. IsTrue yes ↔ RequestIn self.now (Read part) entry.now) }
    {
        match self.grain_inside(part.volume, part.block, part.count) {
            Some(number) => self.read_at(alloc, part, number, entry),
            None => Ok(false),
        }
    }

    /// Whether an entry may be that of this write, of a grain that is there.
    fn write_at(
        &self,
        alloc: Global,
        part: WritePart,
        number: u32,
        entry: &Entry,
    ) -> Result<bool, NoMemory>
        requires { number ≡ grain_of_block self.now.grain part.block }
        ensures { IfOk result (λ yes. CanWriteTo self.now part.volume.0 number → IsTrue yes ↔ (IsOfGrain self.now number entry.now × WriteIn self.now part entry.now)) }
    {
        let here = self.is_of_grain(number, entry);
        if here {
            self.write_answers(alloc, part, number, entry)
        } else {
            Ok(false)
        }
    }

    /// Whether an entry may be that of this write.
    fn write_is_next(&self, alloc: Global, part: WritePart, entry: &Entry) -> Result<bool, NoMemory>
        ensures { IfOk result (λ yes. CanBeWritten self.now → IsTrue yes ↔ RequestIn self.now (Write part) entry.now) }
    {
        match self.grain_inside(part.volume, part.block, part.count) {
            Some(number) => self.write_at(alloc, part, number, entry),
            None => Ok(false),
        }
    }

    /// Whether an entry may be that of a copy or a cleaning of a mapping at a grain.
    fn fill_is_next(
        &self,
        alloc: Global,
        work: Work,
        map: MapId,
        grain: GrainNo,
        entry: &Entry,
    ) -> Result<bool, NoMemory>
        ensures { IfOk result (λ yes. IsTrue yes ↔ (IsOfGrain self.now grain.0 entry.now × FillIn work self.now map grain entry.now)) }
    {
        let here = self.is_of_grain(grain.0, entry);
        if here {
            self.fill_answers(alloc, work, map, grain, entry)
        } else {
            Ok(false)
        }
    }

    /// Whether an entry answers rightly as a worker's turn in a lane.
    fn turn_answers(
        &self,
        alloc: Global,
        work: Work,
        lane: usize,
        entry: &Entry,
    ) -> Result<bool, NoMemory>
        requires lane { lane < length self.now.faults }
        requires few { HasFewGrains self.now }
        ensures { IfOk result (λ yes. IsTrue yes ↔ TurnIn work self.now lane entry.now) }
    {
        let next = self.next_work(work, lane);
        match next {
            Some((map, grain)) => self.fill_answers(alloc, work, map, grain, entry),
            None => Ok(is_idle(entry)),
        }
    }

    /// Whether an entry may be that of a worker's turn in a lane.
    fn turn_is_next(
        &self,
        alloc: Global,
        work: Work,
        lane: usize,
        entry: &Entry,
    ) -> Result<bool, NoMemory>
        requires { HasFewGrains self.now }
        ensures { IfOk result (λ yes. IsTrue yes ↔ ((lane < length self.now.faults) × IsOfLane self.now lane entry.now × TurnIn work self.now lane entry.now)) }
    {
        if lane >= self.lanes() {
            return Ok(false);
        }
        let here = self.is_of_lane(lane, entry);
        if here {
            self.turn_answers(alloc, work, lane, entry)
        } else {
            Ok(false)
        }
    }

    /// Whether an entry may be that of this request; none of a lane is that of a command or a faulty line.
    fn request_is_next(
        &self,
        alloc: Global,
        request: &Request,
        entry: &Entry,
    ) -> Result<bool, NoMemory>
        requires { HasFewGrains self.now }
        ensures { IfOk result (λ yes. CanBeWritten self.now → IsTrue yes ↔ RequestIn self.now request.now entry.now) }
    {
        match request {
            Request::Read(part) => self.read_is_next(alloc, *part, entry),
            Request::Write(part) => self.write_is_next(alloc, *part, entry),
            Request::Copy { map, grain } => {
                self.fill_is_next(alloc, Work::Copying, *map, *grain, entry)
            }
            Request::Clean { map, grain } => {
                self.fill_is_next(alloc, Work::Cleaning, *map, *grain, entry)
            }
            Request::CopyTurn { lane } => {
                self.turn_is_next(alloc, Work::Copying, usize::from(*lane), entry)
            }
            Request::CleanTurn { lane } => {
                self.turn_is_next(alloc, Work::Cleaning, usize::from(*lane), entry)
            }
            _ => Ok(false),
        }
    }

    /// Whether an entry may come next, by what is kept.
    fn comes_next(&self, alloc: Global, entry: &Entry) -> Result<bool, NoMemory>
        requires { HasFewGrains self.now }
        ensures { IfOk result (λ yes. CanBeWritten self.now → IsTrue yes ↔ IsNextIn self.now entry.now) }
    {
        if entry.number == self.entry_count() {
            self.request_is_next(alloc, &entry.request, entry)
        } else {
            Ok(false)
        }
    }

    /// Whether an entry of a lane may come next after a legal history of which all this was told: it is a right step. The answer
    /// is no for every command and every faulty line. Refused for want of memory alone.
    pub fn is_next(&self, alloc: Global, entry: &Entry) -> Result<bool, NoMemory>
        requires { HasFewGrains self.now }
        ensures { IfOk result (λ yes. (grain : GrainSize) (w : Whole) → AreSound w.books → self.now ≡ known_of grain w → IsTrue yes ↔ IsNext grain w entry.now) }
    {
        self.comes_next(alloc, entry)
    }
}
