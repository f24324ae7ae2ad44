//! The chains and the physical grains of a lane, as the steps of an entry change them.

ghost use Rattle.std.specs.Prelude.{◌≡◌, ◌<◌, ◌≤◌, ℕ, Some, None, length};
ghost use Rattle.fc_base.specs.Sheet.{birth_place};
ghost use Rattle.fc_base.specs.SheetFacts.{IsSound};
ghost use Rattle.fc_base.specs.declared.request.Side.TheVariants.{Under};
ghost use Rattle.fc_steps.specs.declared.stop.Stop.TheVariants.{Failed};
ghost use Rattle.fc_steps.specs.Moving.{CanMove, MoveEnds, SameLane};
ghost use Rattle.fc_steps.specs.Reading.{HasHolder, IsOfHolder};
ghost use Rattle.fc_steps.specs.Standing.{HasGrains};

use crate::stop::Stop;
use fc_base::disk::DiskError;
use fc_base::ids::{SlotId, VolId};
use fc_base::request::{Move, Side, Torn};
use fc_chain::Cascade;
use fc_grains::copy_error::CopyError;
use fc_grains::grains::Grains;
use fc_mdisk::mdisk::Mdisk;

/// The chains of a lane, and the physical grains of its volumes: what the steps of an entry change.
#[derive(Drop)]
pub struct Body<D: Mdisk> {
    /// The chains: which slot holds which grain of its own.
    pub cascade: Cascade,
    /// The grains of all volumes of the lane, over its disks.
    pub grains: Grains<D>,
}

/// How a step ended: the calls of disks that it made, and why it wasn't done, if it wasn't.
#[derive(Clone, Copy)]
pub struct StepEnd {
    /// How many reads and writes of disks were made, that which failed included.
    pub calls: u32,
    /// Why it stopped before its end. None exactly where all was done.
    pub stop: Option<Stop>,
}

impl<D: Mdisk> Body<D> {
    /// The volume whose physical grain a slot shows.
    pub(crate) fn source_of(&self, slot: SlotId, grain: u32) -> VolId
        requires { HasHolder self.now.cascade (birth_place self.now.cascade.sheet.slots slot.0) grain }
        ensures { IsOfHolder self.now.cascade (birth_place self.now.cascade.sheet.slots slot.0) grain result.0 }
    {
        match self.cascade.holder(slot, grain) {
            Some(holder) => self.cascade.volume(holder),
            None => unreachable!(),
        }
    }

    /// Makes one move of a grain, which stands at this place among the lane's: its slot gets its own copy from its
    /// holder. In place, and where there is nothing to copy since the holder's grain is lost, no disk is called.
    pub(crate) fn make_move(&mut self, mv: &Move, place: u32) -> StepEnd
        requires sound { IsSound self.old.cascade.sheet }
        requires sized { (j : ℕ) → j < length self.old.cascade.sheet.slots → HasGrains self.old.cascade.sheet.slots self.old.grains.volumes j }
        requires can { (k : ℕ) × CanMove self.old.cascade place mv.now k }
        ensures ends { (k : ℕ) → CanMove self.old.cascade place mv.now k → MoveEnds self.old.cascade self.old.grains place k mv.now result.calls result.stop self.new.cascade self.new.grains }
        ensures same { SameLane self.old.grains self.new.grains }
        ensures few { result.calls ≤ 2 }
    {
        let grain = mv.grain.0;
        if mv.in_place {
            self.cascade.moved(mv.slot, grain, true);
            return done(0);
        }
        let source = self.source_of(mv.slot, grain);
        if self.grains.is_lost(source, place) {
            self.grains.lose(mv.volume, place);
            self.cascade.moved(mv.slot, grain, false);
            return done(0);
        }
        match self.grains.copy(source, mv.volume, place) {
            Ok(()) => {
                self.cascade.moved(mv.slot, grain, false);
                done(2)
            }
            Err(CopyError::Read) => failed(1, None),
            Err(CopyError::Write(DiskError::Failed)) => {
                self.cascade.torn(mv.volume, grain, Side::Under);
                failed(2, Some(torn_under(mv)))
            }
            Err(CopyError::Write(DiskError::NoMemory)) => StepEnd {
                calls: 2,
                stop: Some(Stop::NoMemory),
            },
        }
    }
}

/// A step that was done.
pub(crate) fn done(calls: u32) -> StepEnd
    ensures { result ≡ record { calls = calls; stop = None } }
{
    StepEnd { calls, stop: None }
}

/// A step whose last call failed.
pub(crate) fn failed(calls: u32, torn: Option<Torn>) -> StepEnd
    ensures { result ≡ record { calls = calls; stop = Some (Failed torn) } }
{
    StepEnd {
        calls,
        stop: Some(Stop::Failed(torn)),
    }
}

/// What a failed write of a move tears: what its volume held before it became a target.
fn torn_under(mv: &Move) -> Torn
    ensures { result ≡ record { volume = mv.now.volume; grain = mv.now.grain; side = Under } }
{
    Torn {
        volume: mv.volume,
        grain: mv.grain,
        side: Side::Under,
    }
}
