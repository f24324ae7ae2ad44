//! A plan of moves that tells its room.

ghost use Rattle.std.specs.Prelude.{◌≡◌, ◌≤◌, [], IfOk, OnOk, ◌<◌, None, length};
ghost use Rattle.fc_chain.specs.Planning.{CanPlan, planned_moves, volume_count};
ghost use Rattle.fc_steps.specs.Plans.{room_of};

use fc_base::move_plan::MovePlan;
use fc_base::outcome::NoMemory;
use fc_base::request::{Move, Planned};
use fc_chain::Cascade;
use std::alloc::Global;
use std::marker::Model;

/// A plan of moves, and for how many it has room. Contracts see the plan.
#[derive(Drop)]
pub struct RoomyPlan {
    plan: MovePlan,
    room: usize,
}

impl Model for RoomyPlan {
    ghost use Rattle.std.specs.Prelude.{◌≡◌};
    ghost use Rattle.fc_base.specs.MovePlan.{PlannedMoves};

    ghost Value = { PlannedMoves };

    ghost view = { λ p. p.plan };

    ghost invariant = { λ p. p.room ≡ p.plan.room };
}

impl RoomyPlan {
    /// No moves, with room for so many. Takes memory.
    pub fn new(alloc: Global, room: usize) -> Result<RoomyPlan, NoMemory>
        ensures { IfOk result (λ p. p ≡ record { moves = []; room = room }) }
    {
        match MovePlan::new(alloc, room) {
            Ok(plan) => Ok(RoomyPlan { plan, room }),
            Err(NoMemory) => Err(NoMemory),
        }
    }

    /// For how many moves there is room.
    pub(crate) fn room(&self) -> usize
        ensures { result ≡ self.now.room }
    {
        self.room
    }

    /// The moves, in order.
    pub fn as_slice(&self) -> &[Move]
        ensures { result.now ≡ self.now.moves }
    {
        self.plan.as_slice()
    }

    /// The moves that a fill or a write owes, in order. Takes no memory.
    pub fn plan(&mut self, cascade: &Cascade, write: Planned)
        requires fit { CanPlan cascade.now.sheet.slots cascade.now.lane cascade.now.lanes write }
        requires room { volume_count cascade.now.sheet.slots ≤ self.old.room }
        ensures { self.new ≡ record self.old { moves = planned_moves cascade.now.sheet.slots cascade.now.lanes write } }
    {
        cascade.plan(write, &mut self.plan);
    }

    /// Holds these moves, and no others. Takes no memory.
    pub(crate) fn hold(&mut self, moves: &[Move])
        requires { length moves.now ≤ self.old.room }
        ensures { self.new ≡ record self.old { moves = moves.now } }
    {
        hold(&mut self.plan, moves);
    }

    /// The plan itself.
    pub(crate) fn into_plan(self) -> MovePlan
        ensures { result ≡ self }
    {
        self.plan
    }
}

/// Makes a plan hold these moves, and no others. Takes no memory.
pub fn hold(plan: &mut MovePlan, moves: &[Move])
    requires { length moves.now ≤ plan.old.room }
    ensures { plan.new ≡ record plan.old { moves = moves.now } }
{
    plan.clear();
    for mv in moves {
        plan.push(*mv);
    }
}

/// For how many moves there is room.
fn room_in(spare: &Option<RoomyPlan>) -> usize
    ensures { result ≡ room_of spare.now }
{
    match spare {
        Some(plan) => plan.room(),
        None => 0,
    }
}

/// Room for so many moves in the next plan; where there is room nothing is done. Refused, the plan stays as it was.
pub fn widen(alloc: Global, plan: &mut RoomyPlan, room: usize) -> Result<(), NoMemory>
    ensures ok { OnOk result (room ≤ plan.new.room) }
    ensures more { plan.old.room ≤ plan.new.room }
{
    if room <= plan.room() {
        return Ok(());
    }
    match RoomyPlan::new(alloc, room) {
        Ok(wider) => {
            *plan = wider;
            Ok(())
        }
        Err(NoMemory) => Err(NoMemory),
    }
}

/// Room for so many moves in the next entry; where there is room nothing is done. Refused, the spare plan stays as it was.
pub fn widen_spare(
    alloc: Global,
    spare: &mut Option<RoomyPlan>,
    room: usize,
) -> Result<(), NoMemory>
    ensures ok { OnOk result (room ≤ room_of spare.new) }
    ensures more { room_of spare.old ≤ room_of spare.new }
{
    if room <= room_in(spare) {
        return Ok(());
    }
    match RoomyPlan::new(alloc, room) {
        Ok(wider) => {
            *spare = Some(wider);
            Ok(())
        }
        Err(NoMemory) => Err(NoMemory),
    }
}

/// A plan without moves, with room for so many; where there is no memory for it, the spare one, which is then gone.
pub fn room_for(alloc: Global, moves: usize, spare: &mut Option<RoomyPlan>) -> MovePlan
    requires some { 0 < room_of spare.old }
    requires room { moves ≤ room_of spare.old }
    ensures empty { result.moves ≡ [] }
    ensures room { moves ≤ result.room }
{
    match MovePlan::new(alloc, moves) {
        Ok(plan) => plan,
        Err(NoMemory) => match spare.take() {
            Some(spare) => {
                let mut plan = spare.into_plan();
                plan.clear();
                plan
            }
            None => unreachable!(),
        },
    }
}
