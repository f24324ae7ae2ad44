//! What entries do to plain volumes.

ghost use Rattle.std.specs.Prelude.{◌≡◌, ℕ, ◌++◌, ◌==◌, [], ◌∷◌, IfOk, OnOk, map, filter, not, take, drop, replicate};
ghost use Rattle.fc_entry.specs.Picture.{PlainVolume, zeros};
ghost use Rattle.fc_entry.specs.PlainStep.{after_effect, after_effects, after_trigger, now_in};
ghost use Rattle.fc_plain.specs.Changes.{cut_if, tear_if, write_if};
ghost use Rattle.fc_check_picture.specs.Blocks.{marked_part};
ghost use Rattle.fc_check_picture.specs.Copies.{copied_for, started};

use crate::mark::Mark;
use crate::volume::{Copied, Volume};
use fc_base::ids::VolId;
use fc_base::outcome::NoMemory;
use fc_base::ranges::Range;
use fc_base::request::{Effect, Pair, Torn, WritePart};
use fc_base::size::GrainSize;
use fc_plain::source_of;
use std::alloc::Global;

/// What the volume with an id holds now, copied; of a volume that isn't there, nothing.
fn copied_of<M: Mark>(
    alloc: Global,
    volumes: &[Volume<M>],
    id: VolId,
) -> Result<Copied<M>, NoMemory>
    ensures { IfOk result (λ copied. copied ≡ now_in volumes.now id) }
{
    for volume in volumes {
        if volume.is(id) {
            return volume.copied(alloc);
        }
    }
    Ok(Copied::nothing(alloc))
}

/// What a volume holds after a trigger, where it is a target of it.
fn copied_for<M: Mark>(
    alloc: Global,
    volumes: &[Volume<M>],
    pairs: &[Pair],
    target: VolId,
) -> Result<Option<Copied<M>>, NoMemory>
    ensures { IfOk result (λ copied. copied ≡ copied_for volumes.now pairs.now target) }
{
    match source_of(pairs, target) {
        Some(source) => {
            let copied = copied_of(alloc, volumes, source)?;
            Ok(Some(copied))
        }
        None => Ok(None),
    }
}

/// A volume becomes a target that holds this, where there is something.
fn start<M: Mark>(volume: &mut Volume<M>, copied: Option<Copied<M>>)
    ensures { volume.new ≡ started copied volume.old }
{
    match copied {
        Some(copied) => volume.start(copied),
        None => {}
    }
}

/// The volumes from an index on that are targets become copies of their sources. All sources are copied before
/// the first target changes.
fn trigger_from<M: Mark>(
    alloc: Global,
    volumes: &mut [Volume<M>],
    index: usize,
    pairs: &[Pair],
) -> Result<(), NoMemory>
    ensures { OnOk result (volumes.new ≡ take index volumes.old ++ map (after_trigger volumes.old pairs.now) (drop index volumes.old)) }
{
    if index >= volumes.len() {
        return Ok(());
    }
    let target = volumes[index].id();
    let copied = copied_for(alloc, volumes, pairs, target)?;
    trigger_from(alloc, volumes, index + 1, pairs)?;
    start(&mut volumes[index], copied);
    Ok(())
}

/// Blocks were written with a mark in each volume with the id.
pub(crate) fn write_blocks<M: Mark>(
    alloc: Global,
    size: GrainSize,
    volumes: &mut [Volume<M>],
    part: WritePart,
    mark: M,
) -> Result<(), NoMemory>
    ensures { OnOk result (volumes.new ≡ map (write_if size (marked_part (M.number mark) part)) volumes.old) }
{
    for volume in volumes.iter_mut() {
        volume.write_where(alloc, size, part, mark)?;
    }
    Ok(())
}

/// A failed write left any bytes in a grain of each volume with the id.
pub(crate) fn tear_grain<M: Mark>(volumes: &mut [Volume<M>], torn: Torn)
    ensures { volumes.new ≡ map (tear_if torn) volumes.old }
{
    for volume in volumes.iter_mut() {
        volume.tear_where(torn);
    }
}

/// Each volume with the id is cut.
fn cut_volumes<M: Mark>(
    alloc: Global,
    volumes: &mut [Volume<M>],
    id: VolId,
    kept: &[Range],
) -> Result<(), NoMemory>
    ensures { OnOk result (volumes.new ≡ map (cut_if id kept.now) volumes.old) }
{
    for volume in volumes.iter_mut() {
        volume.cut_where(alloc, id, kept)?;
    }
    Ok(())
}

/// Puts a volume at the end.
pub(crate) fn push_volume<M: Mark>(
    volumes: &mut Vec<Volume<M>>,
    volume: Volume<M>,
) -> Result<(), NoMemory>
    ensures { OnOk result (volumes.new.items ≡ volumes.old.items ++ volume ∷ []) }
{
    match volumes.push(volume) {
        Ok(()) => Ok(()),
        Err(_) => Err(NoMemory),
    }
}

/// A volume comes that no write has reached.
fn make_volume<M: Mark>(
    alloc: Global,
    size: GrainSize,
    volumes: &mut Vec<Volume<M>>,
    id: VolId,
    grains: u32,
) -> Result<(), NoMemory>
    ensures { OnOk result (volumes.new.items ≡ volumes.old.items ++ record { volume = id; now = replicate grains (zeros size); under = replicate grains (zeros size) } ∷ []) }
{
    push_volume(volumes, Volume::zeros(alloc, id, size, grains)?)
}

/// Each volume with the id goes.
fn remove_volume<M: Mark>(volumes: &mut Vec<Volume<M>>, id: VolId)
    ensures { volumes.new.items ≡ filter (λ (v : PlainVolume). not (v.volume.0 == id.0)) volumes.old.items }
{
    volumes.retain(|volume| !volume.is(id));
}

/// Does an effect.
fn do_effect<M: Mark>(
    alloc: Global,
    size: GrainSize,
    volumes: &mut Vec<Volume<M>>,
    effect: &Effect,
) -> Result<(), NoMemory>
    ensures { OnOk result (volumes.new.items ≡ after_effect size volumes.old.items effect.now) }
{
    match effect {
        Effect::Make { volume, grains } => make_volume(alloc, size, volumes, *volume, *grains),
        Effect::Remove { volume } => {
            remove_volume(volumes, *volume);
            Ok(())
        }
        Effect::Trigger { pairs } => {
            trigger_from(alloc, volumes.as_mut_slice(), 0, pairs.as_slice())
        }
        Effect::Cut { volume, kept } => {
            cut_volumes(alloc, volumes.as_mut_slice(), *volume, kept.as_slice())
        }
        _ => Ok(()),
    }
}

/// Does effects, in their order.
pub(crate) fn do_effects<M: Mark>(
    alloc: Global,
    size: GrainSize,
    volumes: &mut Vec<Volume<M>>,
    effects: &[Effect],
) -> Result<(), NoMemory>
    ensures { OnOk result (volumes.new.items ≡ after_effects size volumes.old.items effects.now) }
{
    for effect in effects {
        do_effect(alloc, size, volumes, effect)?;
    }
    Ok(())
}
