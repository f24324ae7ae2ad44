//! Writes, copies and cleanings of a lane, step by step: a caller may do other work between the steps of one entry.

ghost use Rattle.std.specs.Prelude.{◌≡◌, ◌≢◌, ◌<◌, ◌≤◌, ◌^◌, ◌%◌, ◌/◌, IsSome, length};
ghost use Rattle.fc_base.specs.declared.request.Move.{Move};
ghost use Rattle.fc_base.specs.declared.ids.GrainNo.{GrainNo};
ghost use Rattle.fc_base.specs.declared.ids.MapId.{MapId};
ghost use Rattle.fc_base.specs.declared.request.Pick.TheVariants.{Any};
ghost use Rattle.fc_base.specs.declared.request.WritePart.{WritePart};
ghost use Rattle.fc_base.specs.declared.state.Access.TheVariants.{Online};
ghost use Rattle.fc_chain.specs.Planning.{CanPlan, planned_moves, volume_count};
ghost use Rattle.fc_entry.specs.Picture.{grain_of_block};
ghost use Rattle.fc_follow.specs.Following.{Followed};
ghost use Rattle.fc_grains.specs.Volumes.{stored};
ghost use Rattle.fc_lane.specs.Doing.{FitsAsk, HasBegun, HasBegunAs, HasBegunTurn, IsNextWork, IsUnderWay, entry_over};
ghost use Rattle.fc_lane.specs.Entering.{HasEntered, HasFollowed};
ghost use Rattle.fc_lane.specs.Lane.{IsFollowing, IsLaneOf, IsReady, LaneView, of};
ghost use Rattle.fc_lane.specs.Turns.{CanPick};
ghost use Rattle.fc_lane.specs.Workers.{ask_of, filled_slot, turn_of};
ghost use Rattle.fc_rules.specs.LaneFits.{FitsPart};
ghost use Rattle.fc_rules.specs.LaneTold.{LaneTold, lane_access, place_of};
ghost use Rattle.fc_steps.specs.Asking.{request_of};
ghost use Rattle.fc_steps.specs.UnderWay.{MoveStored, OwnStored, after_step, first_steps, next_of};
ghost use Rattle.fc_steps.specs.declared.ask.Ask.TheVariants.{Write};
ghost use Rattle.fc_steps.specs.declared.stepping.Next.TheVariants.{Move as NextMove, Own, Over};

use crate::lane::Lane;
use crate::turn::turned;
use crate::worker::{Worker, ask_of, turn_of};
use fc_base::ids::{GrainNo, MapId};
use fc_base::request::{Planned, Reply, Request, WritePart};
use fc_base::state::Access;
use fc_entry::entry::Entry;
use fc_mdisk::mdisk::Mdisk;
use fc_steps::ask::Ask;
use fc_steps::body::StepEnd;
use fc_steps::stepping::{Next, Steps};
use std::alloc::Global;

/// An entry of a lane that is under way.
#[derive(Drop)]
pub struct Doing {
    /// The number that the entry gets.
    pub number: u64,
    /// Who asked.
    pub actor: u32,
    /// The calls of all the lane's disks that had failed when it began.
    pub before: u64,
    /// Its steps, and how far they came.
    pub steps: Steps,
}

/// How an entry began.
#[derive(Drop)]
pub enum Begun {
    /// It was answered at once: nothing is to be done.
    Answered(Entry),
    /// Its steps are to be made.
    UnderWay(Doing),
}

impl Doing {
    /// Which step comes next. None once all were done, or one stopped.
    pub fn next(&self) -> Next
        ensures { result ≡ next_of self.now.steps }
    {
        self.steps.next()
    }
}

impl<D: Mdisk> Lane<D> {
    /// An entry begins by the moves that a write or a fill owes, of this grain.
    fn begin_steps(
        &mut self,
        alloc: Global,
        number: u64,
        actor: u32,
        ask: Ask,
        grain: GrainNo,
        planned: Planned,
    ) -> Doing
        requires fit { CanPlan self.old.chains.sheet.slots self.old.chains.lane self.old.chains.lanes planned }
        requires plan_room { volume_count self.old.chains.sheet.slots ≤ self.old.plan_room }
        requires some { 0 < self.old.entry_room }
        requires room { length (planned_moves self.old.chains.sheet.slots self.old.chains.lanes planned) ≤ self.old.entry_room }
        ensures doing { result ≡ record { number = number; actor = actor; before = self.old.grains.faults; steps = first_steps ask grain (grain.0 / self.old.lanes) (record { moves = planned_moves self.old.chains.sheet.slots self.old.chains.lanes planned; room = result.steps.planned.room }) } }
        ensures same { self.new ≡ record self.old { entry_room = self.new.entry_room } }
    {
        let before = self.body.grains.faults();
        let place = grain.0 / self.lanes as u32;
        self.plan.plan(&self.body.cascade, planned);
        let plan = self.plan.as_slice();
        Doing {
            number,
            actor,
            before,
            steps: Steps::begin(alloc, ask, grain, place, plan, &mut self.spare),
        }
    }

    /// A write of blocks of one grain of a volume that is online begins.
    fn begin_online(&mut self, alloc: Global, number: u64, actor: u32, part: WritePart) -> Begun
        requires can { (told : LaneTold) × IsLaneOf self.old told × FitsPart (of self.old) told part.volume part.block part.count }
        requires number { grain_of_block self.old.grains.grain part.block < 2 ^ 32 }
        requires ready { IsReady self.old }
        requires online { lane_access self.old.accesses.volumes part.volume ≡ Online }
        ensures { HasBegunAs self.old number actor (Write part) result self.new }
    {
        let blocks = self.body.grains.grain().blocks() as u64;
        let grain = (part.block / blocks) as u32;
        let place = grain / self.lanes as u32;
        if !self.body.can_write(part, grain, place) {
            let write = Request::Write(part);
            return Begun::Answered(self.untouched(alloc, number, actor, write, Reply::MediumError));
        }
        let grain = GrainNo(grain);
        let planned = Planned::Write {
            volume: part.volume,
            grain,
        };
        let ask = Ask::Write(part);
        Begun::UnderWay(self.begin_steps(alloc, number, actor, ask, grain, planned))
    }

    /// A write of blocks of one grain of a volume begins, with all moves that it owes before it. A volume that isn't online
    /// answers at once how it may be reached, and a part of a lost grain a medium error.
    pub fn begin_write(&mut self, alloc: Global, number: u64, actor: u32, part: WritePart) -> Begun
        requires can { (f : Followed) × IsFollowing self.old f × FitsPart (of self.old) f.told part.volume part.block part.count }
        requires number { grain_of_block self.old.grains.grain part.block < 2 ^ 32 }
        requires ready { IsReady self.old }
        ensures { HasBegunAs self.old number actor (Write part) result self.new }
    {
        match self.accesses.access(part.volume) {
            Access::Online => self.begin_online(alloc, number, actor, part),
            Access::Offline { map, state } => {
                let reply = Reply::Offline { map, state };
                let write = Request::Write(part);
                Begun::Answered(self.untouched(alloc, number, actor, write, reply))
            }
            Access::NotAccessible { map } => {
                let reply = Reply::NotAccessible { map };
                let write = Request::Write(part);
                Begun::Answered(self.untouched(alloc, number, actor, write, reply))
            }
        }
    }

    /// A copy or a cleaning of a mapping's grain begins, with all moves that it asks for.
    pub fn begin_fill(
        &mut self,
        alloc: Global,
        number: u64,
        actor: u32,
        worker: Worker,
        map: MapId,
        grain: GrainNo,
    ) -> Doing
        requires can { (f : Followed) × IsFollowing self.old f × IsSome (filled_slot worker f.told.sheet.slots map.0 (place_of (of self.old) grain.0)) }
        requires of_lane { grain.0 % self.old.lanes ≡ self.old.lane }
        requires ready { IsReady self.old }
        ensures { HasBegun self.old number actor (ask_of worker map grain) result self.new }
    {
        let slot = self.filled_slot(worker, map, grain);
        let ask = ask_of(worker, map, grain);
        self.begin_steps(
            alloc,
            number,
            actor,
            ask,
            grain,
            Planned::Fill { slot, grain },
        )
    }

    /// Makes the next step of an entry that began in this lane, which is as the step before left it: the disk calls of one move,
    /// or of the write that was asked for, and then what it changes of the chains. It answers how the step ended; one that wasn't
    /// done is the last.
    pub fn step(&mut self, doing: &mut Doing) -> StepEnd
        requires way { (lane : LaneView) × IsUnderWay lane doing.old self.old }
        requires next { next_of doing.old.steps ≢ Over }
        ensures way { (lane : LaneView) → IsUnderWay lane doing.old self.old → IsUnderWay lane doing.new self.new }
        ensures after { doing.new ≡ record doing.old { steps = after_step (next_of doing.old.steps) result doing.old.steps } }
        ensures moved { (m : Move) → next_of doing.old.steps ≡ NextMove m →
            MoveStored self.old.chains.sheet.slots doing.old.steps.place m result (stored self.old.grains.volumes) (stored self.new.grains.volumes) }
        ensures wrote { (part : WritePart) → next_of doing.old.steps ≡ Own part → (lane : LaneView) → IsUnderWay lane doing.old self.old →
            (told : LaneTold) → IsLaneOf lane told → FitsAsk (of lane) doing.old.steps.ask told →
            OwnStored (of lane) told part result.stop (stored self.old.grains.volumes) (stored self.new.grains.volumes) }
    {
        self.body.step(&mut doing.steps)
    }

    /// The entry of steps that are over.
    fn end_steps(&mut self, alloc: Global, doing: Doing) -> Entry
        requires way { (lane : LaneView) × IsUnderWay lane doing self.old }
        requires over { next_of doing.steps ≡ Over }
        ensures entered { (lane : LaneView) → IsUnderWay lane doing self.old →
            HasEntered lane (FitsAsk (of lane) doing.steps.ask) doing.number doing.actor (request_of doing.steps.ask) result self.new }
        ensures told { result ≡ entry_over self.old doing }
        ensures grains { self.new.grains ≡ self.old.grains }
    {
        let Doing {
            number,
            actor,
            before,
            steps,
        } = doing;
        let ask = steps.ask;
        let end = StepEnd {
            calls: steps.calls,
            stop: steps.stop,
        };
        let moves = steps.into_made(&mut self.plan);
        self.ended(alloc, number, actor, ask, before, moves, end)
    }

    /// The entry of steps that are over, with what it changes for incremental mappings. Takes no memory.
    pub fn finish(&mut self, alloc: Global, doing: Doing) -> Entry
        requires way { (lane : LaneView) × IsUnderWay lane doing self.old }
        requires over { next_of doing.steps ≡ Over }
        ensures followed { (lane : LaneView) → IsUnderWay lane doing self.old →
            HasFollowed lane (FitsAsk (of lane) doing.steps.ask) doing.number doing.actor (request_of doing.steps.ask) result self.new }
        ensures told { result ≡ entry_over self.old doing }
        ensures grains { self.new.grains ≡ self.old.grains }
    {
        let entry = self.end_steps(alloc, doing);
        self.note(&entry);
        entry
    }

    /// A worker's turn begins: the next piece of its work in the lane. It answers Idle at once exactly where there is none.
    pub fn begin_turn(&mut self, alloc: Global, number: u64, actor: u32, worker: Worker) -> Begun
        requires stands { (f : Followed) × IsFollowing self.old f }
        requires ready { IsReady self.old }
        ensures { HasBegunTurn self.old number actor worker result self.new }
    {
        match self.next_of(worker) {
            Some((map, grain)) => {
                Begun::UnderWay(self.begin_fill(alloc, number, actor, worker, map, grain))
            }
            None => {
                let turn = turn_of(worker, self.lane);
                Begun::Answered(self.untouched(alloc, number, actor, turn, Reply::Idle))
            }
        }
    }

    /// The entry of a worker's turn, whose steps are over, with what it changes for incremental mappings. Takes no memory.
    pub fn finish_turn(&mut self, alloc: Global, doing: Doing, worker: Worker) -> Entry
        requires way { (lane : LaneView) × IsUnderWay lane doing self.old }
        requires over { next_of doing.steps ≡ Over }
        ensures { (lane : LaneView) (map : MapId) (grain : GrainNo) → IsUnderWay lane doing self.old → doing.steps.ask ≡ ask_of worker map grain → IsNextWork lane worker map grain →
            HasFollowed lane (λ told. CanPick (of lane) (filled_slot worker told.sheet.slots) Any) doing.number doing.actor (turn_of worker lane.lane) result self.new }
    {
        let turn = turn_of(worker, self.lane);
        let ended = self.end_steps(alloc, doing);
        let entry = turned(ended, turn);
        self.note(&entry);
        entry
    }
}
