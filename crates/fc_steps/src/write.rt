//! The write that an entry asks for, with its moves before it.

ghost use Rattle.std.specs.Prelude.{◌≡◌, ◌+◌, ◌*◌, ◌<◌, ◌≤◌, ◌^◌, [], ℕ, cond, false, length, is_err, ◌==◌, ◌&&◌, not, true, ◌%◌};
ghost use Rattle.fc_base.specs.Sheet.{live_place};
ghost use Rattle.fc_base.specs.declared.request.Side.TheVariants.{Now, Under};
ghost use Rattle.fc_entry.specs.Picture.{byte_in_grain, grain_of_block, is_lost};
ghost use Rattle.fc_entry.specs.Writes.{calls_of_write, covers_grain};
ghost use Rattle.fc_grains.specs.Volumes.{is_there, stored, volume_of};
ghost use Rattle.fc_steps.specs.Reading.{HasHolder, IsOfHolder};
ghost use Rattle.fc_steps.specs.WriteStep.{CanWriteOwn, IsInGrain, IsPlannedWrite, IsPrepared, OwnEnds, spot_of, write_in, FitsWrite};
ghost use Rattle.fc_steps.specs.UnderWay.{OwnStored};
ghost use Rattle.fc_steps.specs.StepsEnd.{StepsEnd, StepsStand, torn_in, StandsAt};
ghost use Rattle.fc_rules.specs.Steps.{steps_of_write};
ghost use Rattle.fc_rules.specs.LaneTold.{LaneOf, LaneTold, place_of};
ghost use Rattle.fc_rules.specs.GrainAnswers.{cannot_write};

use crate::body::{Body, StepEnd, done, failed};
use crate::stop::Stop;
use fc_base::disk::DiskError;
use fc_base::ids::{GrainNo, VolId};
use fc_base::limits::BLOCK_BYTES;
use fc_base::move_plan::MovePlan;
use fc_base::outcome::Failed;
use fc_base::request::{Move, Side, Torn, WritePart};
use fc_base::size::GrainSize;
use fc_grains::grains::Grains;
use fc_mdisk::mdisk::Mdisk;

/// The place in its grain of a block's first byte.
pub(crate) fn start_in_grain(grain: GrainSize, block: u64) -> u32
    ensures { result ≡ byte_in_grain grain block }
{
    BLOCK_BYTES * (block % grain.blocks() as u64) as u32
}

/// The calls of a write without its moves: a part of a grain is read before it is written.
fn calls_of(grain: GrainSize, part: WritePart) -> u32
    ensures value { result ≡ calls_of_write grain part }
    ensures few { result ≤ 2 }
{
    if part.count == grain.blocks() { 1 } else { 2 }
}

/// Which content of a volume a failed write spoils, by the volume whose grain it showed.
fn side_of(source: VolId, volume: VolId) -> Side
    ensures { result ≡ cond (source.0 == volume.0) Now Under }
{
    if source.0 == volume.0 {
        Side::Now
    } else {
        Side::Under
    }
}

/// Makes the grain at hand what is written: the part's bytes, and the rest of the grain that the volume shows, which is
/// read from this source unless the whole grain is written.
fn prepare<D: Mdisk>(
    grains: &mut Grains<D>,
    part: WritePart,
    source: VolId,
    place: u32,
) -> Result<(), Failed>
    requires part { IsInGrain grains.old.grain part }
    requires there { is_there grains.old.volumes source.0 ≡ true }
    requires inside { place < length (volume_of grains.old.volumes source.0).contents }
    requires readable { (is_lost (stored grains.old.volumes source.0 place) && not (covers_grain grains.old.grain part)) ≡ false }
    ensures { IsPrepared grains.old.grain part (stored grains.old.volumes source.0 place) (is_err result) grains.old grains.new }
{
    if part.count == grains.grain().blocks() {
        let bytes = grains.bytes();
        grains.fill(0, bytes, part.byte);
        return Ok(());
    }
    match grains.read(source, place) {
        Ok(()) => {}
        Err(Failed) => return Err(Failed),
    }
    let from = start_in_grain(grains.grain(), part.block);
    grains.fill(from, BLOCK_BYTES * part.count, part.byte);
    Ok(())
}

impl<D: Mdisk> Body<D> {
    /// The volume whose physical grain a volume shows.
    pub(crate) fn shown_by(&self, volume: VolId, grain: u32) -> VolId
        requires { HasHolder self.now.cascade (live_place self.now.cascade.sheet.slots volume.0) grain }
        ensures { IsOfHolder self.now.cascade (live_place self.now.cascade.sheet.slots volume.0) grain result.0 }
    {
        match self.cascade.live(volume) {
            Some(slot) => self.source_of(slot, grain),
            None => unreachable!(),
        }
    }

    /// Whether a part of a grain, which stands at this place among the lane's, can be written: a part of a lost grain
    /// can't be.
    pub fn can_write(&self, part: WritePart, grain: u32, place: u32) -> bool
        requires can { (l : LaneOf) × (told : LaneTold) × (t : ℕ) × StandsAt l told self.now.cascade self.now.grains × FitsWrite l told part t × (grain ≡ grain_of_block l.grain part.block) × (place ≡ place_of l (grain_of_block l.grain part.block)) }
        ensures { (l : LaneOf) (told : LaneTold) (t : ℕ) → StandsAt l told self.now.cascade self.now.grains → FitsWrite l told part t → grain ≡ grain_of_block l.grain part.block → place ≡ place_of l (grain_of_block l.grain part.block) → result ≡ not (cannot_write l.grain (spot_of l told part) part) }
    {
        if part.count == self.grains.grain().blocks() {
            return true;
        }
        let source = self.shown_by(part.volume, grain);
        !self.grains.is_lost(source, place)
    }

    /// Writes a part of a grain, which stands at this place among the lane's, once the write's moves are made.
    pub(crate) fn write_own(&mut self, part: WritePart, grain: GrainNo, place: u32) -> StepEnd
        requires can { (l : LaneOf) × (told : LaneTold) × (t : ℕ) × CanWriteOwn l told part t self.old.cascade self.old.grains × (grain.0 ≡ grain_of_block l.grain part.block) × (place ≡ place_of l (grain_of_block l.grain part.block)) }
        ensures ends { (l : LaneOf) (told : LaneTold) (t : ℕ) → CanWriteOwn l told part t self.old.cascade self.old.grains → grain.0 ≡ grain_of_block l.grain part.block → place ≡ place_of l (grain_of_block l.grain part.block) → OwnEnds l told part t result.calls result.stop self.old.cascade self.old.grains self.new.cascade self.new.grains }
        ensures stored { (l : LaneOf) (told : LaneTold) (t : ℕ) → CanWriteOwn l told part t self.old.cascade self.old.grains → grain.0 ≡ grain_of_block l.grain part.block → place ≡ place_of l (grain_of_block l.grain part.block) → OwnStored l told part result.stop (stored self.old.grains.volumes) (stored self.new.grains.volumes) }
        ensures few { result.calls ≤ 2 }
    {
        let source = self.shown_by(part.volume, grain.0);
        match prepare(&mut self.grains, part, source, place) {
            Ok(()) => {}
            Err(Failed) => return failed(1, None),
        }
        let calls = calls_of(self.grains.grain(), part);
        match self.grains.write(part.volume, place) {
            Ok(()) => {
                self.cascade.written(part.volume, grain.0);
                done(calls)
            }
            Err(DiskError::Failed) => {
                let side = side_of(source, part.volume);
                self.cascade.torn(part.volume, grain.0, side);
                failed(
                    calls,
                    Some(Torn {
                        volume: part.volume,
                        grain,
                        side,
                    }),
                )
            }
            Err(DiskError::NoMemory) => StepEnd {
                calls,
                stop: Some(Stop::NoMemory),
            },
        }
    }

    /// Writes a part of a grain, which stands at this place among the lane's, with all planned moves before it, and puts
    /// each move that was made into `made`. It stops at the first step that isn't done.
    pub fn write_all(
        &mut self,
        plan: &[Move],
        part: WritePart,
        grain: GrainNo,
        place: u32,
        made: &mut MovePlan,
    ) -> StepEnd
        requires can { (l : LaneOf) × (told : LaneTold) × (t : ℕ) × IsPlannedWrite l told part t self.old.cascade self.old.grains plan.now grain.0 place }
        requires few { length plan.now < 2 ^ 30 }
        requires room { length plan.now ≤ made.old.room }
        requires empty { made.old.moves ≡ [] }
        ensures { (l : LaneOf) (told : LaneTold) (t : ℕ) → IsPlannedWrite l told part t self.old.cascade self.old.grains plan.now grain.0 place → StepsEnd (spot_of l told part) (steps_of_write l.grain (spot_of l told part) part t) made.new.moves result.calls result.stop self.old.grains self.new.grains × StepsStand l told (write_in part result.stop) made.new.moves result.calls (torn_in result.stop) self.old.cascade self.old.grains self.new.cascade self.new.grains }
    {
        let moves = self.make_moves(plan, place, made);
        if moves.stop.is_some() {
            return moves;
        }
        let own = self.write_own(part, grain, place);
        StepEnd {
            calls: moves.calls + own.calls,
            stop: own.stop,
        }
    }
}
