//! The steps of an entry, one after the other: a caller may do other work between them.

ghost use Rattle.std.specs.Prelude.{◌≡◌, ◌≢◌, ◌+◌, ◌*◌, ◌<◌, ◌≤◌, ◌^◌, ℕ, [], None, false, cond, is_some, length, not, take};
ghost use Rattle.fc_base.specs.declared.request.WritePart.{WritePart};
ghost use Rattle.fc_chain.specs.Chains.{Chains};
ghost use Rattle.fc_grains.specs.Grains.{GrainsState};
ghost use Rattle.fc_grains.specs.Volumes.{stored};
ghost use Rattle.fc_rules.specs.LaneTold.{LaneOf, LaneTold};
ghost use Rattle.fc_steps.specs.Plans.{room_of};
ghost use Rattle.fc_steps.specs.UnderWay.{AreUnderWay, IsCounted, MoveStored, OwnStored, after_step, first_steps, next_of, own_next};
ghost use Rattle.fc_steps.specs.declared.stepping.Next.TheVariants.{Move as NextMove, Own, Over};

use crate::ask::Ask;
use crate::body::{Body, StepEnd};
use crate::roomy::{RoomyPlan, hold, room_for};
use crate::stop::Stop;
use fc_base::ids::GrainNo;
use fc_base::list::List;
use fc_base::move_plan::MovePlan;
use fc_base::request::{Move, WritePart};
use fc_mdisk::mdisk::Mdisk;
use std::alloc::Global;

/// Which step of an entry comes next.
#[derive(Clone, Copy)]
pub enum Next {
    /// This move: a slot gets its own copy of the grain.
    Move(Move),
    /// The write that was asked for: all moves were made.
    Own(WritePart),
    /// None: all steps were done, or one stopped.
    Over,
}

/// The steps of an entry that is under way: what is asked, the moves that it owes, and how far they came.
#[derive(Drop)]
pub struct Steps {
    /// What is asked.
    pub ask: Ask,
    /// The grain, by its number in its volumes.
    pub grain: GrainNo,
    /// Its place among the lane's.
    pub place: u32,
    /// All moves that are owed, in order.
    pub planned: MovePlan,
    /// How many of them were made.
    pub made: usize,
    /// Whether the write that was asked for was done, behind the moves.
    pub written: bool,
    /// How many reads and writes of disks the steps made, that which failed included.
    pub calls: u32,
    /// Why a step wasn't done. None as long as all were.
    pub stop: Option<Stop>,
}

/// What comes once all moves are made.
fn own_next(ask: Ask) -> Next
    ensures { result ≡ own_next ask }
{
    match ask {
        Ask::Write(part) => Next::Own(part),
        Ask::Copy { .. } => Next::Over,
        Ask::Clean { .. } => Next::Over,
    }
}

impl Steps {
    /// The steps of what is asked, before the first of them: by these planned moves of a grain, which stands at this place
    /// among the lane's. Takes no memory but for the moves, and where there is none for them, the spare plan.
    pub fn begin(
        alloc: Global,
        ask: Ask,
        grain: GrainNo,
        place: u32,
        plan: &[Move],
        spare: &mut Option<RoomyPlan>,
    ) -> Steps
        requires some { 0 < room_of spare.old }
        requires room { length plan.now ≤ room_of spare.old }
        ensures { result ≡ first_steps ask grain place (record { moves = plan.now; room = result.planned.room }) }
    {
        let mut planned = room_for(alloc, plan.len(), spare);
        hold(&mut planned, plan);
        Steps {
            ask,
            grain,
            place,
            planned,
            made: 0,
            written: false,
            calls: 0,
            stop: None,
        }
    }

    /// Which step comes next.
    pub fn next(&self) -> Next
        ensures { result ≡ next_of self.now }
    {
        if self.written || self.stop.is_some() {
            return Next::Over;
        }
        let moves = self.planned.as_slice();
        if self.made < moves.len() {
            return Next::Move(moves[self.made]);
        }
        own_next(self.ask)
    }

    /// Counts a move that ended so.
    fn moved(&mut self, end: StepEnd)
        requires within { self.old.made < length self.old.planned.moves }
        requires short { length self.old.planned.moves < 2 ^ 30 }
        requires few { self.old.calls + end.calls < 2 ^ 32 }
        ensures { self.new ≡ record self.old { made = cond (is_some end.stop) self.old.made (self.old.made + 1); calls = self.old.calls + end.calls; stop = end.stop } }
    {
        self.calls += end.calls;
        self.stop = end.stop;
        if end.stop.is_none() {
            self.made += 1;
        }
    }

    /// Counts the write, which ended so.
    fn wrote(&mut self, end: StepEnd)
        requires few { self.old.calls + end.calls < 2 ^ 32 }
        ensures { self.new ≡ record self.old { written = not (is_some end.stop); calls = self.old.calls + end.calls; stop = end.stop } }
    {
        self.calls += end.calls;
        self.stop = end.stop;
        self.written = end.stop.is_none();
    }

    /// The moves that were made, as a list; the others are forgotten. `scratch` holds them meanwhile, and anything after
    /// it. Takes no memory.
    pub fn into_made(self, scratch: &mut RoomyPlan) -> List<Move>
        requires within { self.made ≤ length self.planned.moves }
        requires room { length self.planned.moves ≤ scratch.old.room }
        ensures made { result ≡ take self.made self.planned.moves }
        ensures room { scratch.new.room ≡ scratch.old.room }
    {
        let made = self.made;
        let mut plan = self.planned;
        let moves = plan.as_slice();
        if made == moves.len() {
            return plan.into_moves();
        }
        scratch.hold(&moves[..made]);
        hold(&mut plan, scratch.as_slice());
        plan.into_moves()
    }
}

impl<D: Mdisk> Body<D> {
    /// Makes the next step: the disk calls of one move, or of the write that was asked for, and then what it changes of
    /// the chains. It answers how the step ended; one that wasn't done is the last.
    pub fn step(&mut self, steps: &mut Steps) -> StepEnd
        requires way { (l : LaneOf) × (told : LaneTold) × (x : ℕ) × (chains : Chains) × (grains : GrainsState) × AreUnderWay l told x chains grains steps.old self.old.cascade self.old.grains }
        requires counted { IsCounted steps.old }
        requires next { next_of steps.old ≢ Over }
        ensures way { (l : LaneOf) (told : LaneTold) (x : ℕ) (chains : Chains) (grains : GrainsState) → AreUnderWay l told x chains grains steps.old self.old.cascade self.old.grains → AreUnderWay l told x chains grains steps.new self.new.cascade self.new.grains }
        ensures counted { IsCounted steps.new }
        ensures after { steps.new ≡ after_step (next_of steps.old) result steps.old }
        ensures moved { (m : Move) → next_of steps.old ≡ NextMove m → MoveStored self.old.cascade.sheet.slots steps.old.place m result (stored self.old.grains.volumes) (stored self.new.grains.volumes) }
        ensures wrote { (part : WritePart) → next_of steps.old ≡ Own part → (l : LaneOf) (told : LaneTold) (x : ℕ) (chains : Chains) (grains : GrainsState) → AreUnderWay l told x chains grains steps.old self.old.cascade self.old.grains → OwnStored l told part result.stop (stored self.old.grains.volumes) (stored self.new.grains.volumes) }
    {
        match steps.next() {
            Next::Move(mv) => {
                let end = self.make_move(&mv, steps.place);
                steps.moved(end);
                end
            }
            Next::Own(part) => {
                let end = self.write_own(part, steps.grain, steps.place);
                steps.wrote(end);
                end
            }
            Next::Over => unreachable!(),
        }
    }
}
