//! What the effects of a command do to plain volumes.

ghost use Rattle.std.specs.Prelude.{◌≡◌, ℕ, ◌++◌, ◌==◌, [], ◌∷◌, IfOk, OnOk, OnErr, map, filter, not, ◌<◌, length};
ghost use Rattle.fc_base.specs.Ranges.{is_kept};
ghost use Rattle.fc_entry.specs.Picture.{PlainVolume};
ghost use Rattle.fc_entry.specs.PlainStep.{after_trigger, after_effect, after_effects, source_in, now_in, cut_from};
ghost use Rattle.fc_plain.specs.Changes.{cut_at, cut_if};

use crate::grain::Grain;
use crate::volume::{Volume, copies_of, push_grain};
use fc_base::ids::VolId;
use fc_base::outcome::NoMemory;
use fc_base::ranges::Range;
use fc_base::request::{Effect, Pair};
use fc_base::size::GrainSize;
use std::alloc::Global;

/// Puts a volume at the end.
fn push_volume(volumes: &mut Vec<Volume>, volume: Volume) -> Result<(), NoMemory>
    ensures { OnOk result (volumes.new.items ≡ volumes.old.items ++ volume ∷ []) }
{
    match volumes.push(volume) {
        Ok(()) => Ok(()),
        Err(_) => Err(NoMemory),
    }
}

/// Copies of volumes.
pub(crate) fn volume_copies(alloc: Global, volumes: &[Volume]) -> Result<Vec<Volume>, NoMemory>
    ensures { IfOk result (λ copies. copies.items ≡ volumes.now) }
{
    let mut copies = Vec::new(alloc);
    for volume in volumes {
        push_volume(&mut copies, volume.copy(alloc)?)?;
    }
    Ok(copies)
}

/// Puts a copy of a volume at the end, where it hasn't this id.
fn push_other(
    alloc: Global,
    others: &mut Vec<Volume>,
    volume: &Volume,
    id: VolId,
) -> Result<(), NoMemory>
    ensures { OnOk result (others.new.items ≡ others.old.items ++ filter (λ (v : PlainVolume). not (v.volume.0 == id.0)) (volume.now ∷ [])) }
{
    if volume.is(id) {
        Ok(())
    } else {
        push_volume(others, volume.copy(alloc)?)
    }
}

/// The volumes without the one with this id.
fn others_of(alloc: Global, volumes: &[Volume], id: VolId) -> Result<Vec<Volume>, NoMemory>
    ensures { IfOk result (λ others. others.items ≡ filter (λ (v : PlainVolume). not (v.volume.0 == id.0)) volumes.now) }
{
    let mut others = Vec::new(alloc);
    for volume in volumes {
        push_other(alloc, &mut others, volume, id)?;
    }
    Ok(others)
}

/// The source of a volume in a trigger's pairs, if it is a target there.
pub fn source_of(pairs: &[Pair], target: VolId) -> Option<VolId>
    ensures { result ≡ source_in pairs.now target }
{
    for pair in pairs {
        if pair.target.0 == target.0 {
            return Some(pair.source);
        }
    }
    None
}

/// What the volume with an id holds now; of a volume that isn't there, nothing.
fn now_of(alloc: Global, volumes: &[Volume], id: VolId) -> Result<Vec<Grain>, NoMemory>
    ensures { IfOk result (λ grains. grains.items ≡ now_in volumes.now id) }
{
    for volume in volumes {
        if volume.is(id) {
            return copies_of(alloc, volume.now());
        }
    }
    Ok(Vec::new(alloc))
}

/// A volume after a trigger: a target holds what its source held, over what it held itself.
fn triggered_volume(
    alloc: Global,
    volumes: &[Volume],
    pairs: &[Pair],
    volume: &Volume,
) -> Result<Volume, NoMemory>
    ensures { IfOk result (λ v. v ≡ after_trigger volumes.now pairs.now volume.now) }
{
    match source_of(pairs, volume.id()) {
        Some(source) => {
            let now = now_of(alloc, volumes, source)?;
            let under = copies_of(alloc, volume.now())?;
            Ok(Volume::of(volume.id(), now, under))
        }
        None => volume.copy(alloc),
    }
}

/// The volumes after a trigger.
fn triggered_volumes(
    alloc: Global,
    volumes: &[Volume],
    pairs: &[Pair],
) -> Result<Vec<Volume>, NoMemory>
    ensures { IfOk result (λ new. new.items ≡ map (after_trigger volumes.now pairs.now) volumes.now) }
{
    let mut new = Vec::new(alloc);
    for volume in volumes {
        push_volume(&mut new, triggered_volume(alloc, volumes, pairs, volume)?)?;
    }
    Ok(new)
}

/// Whether a grain is in these ranges.
pub fn is_kept(kept: &[Range], grain: usize) -> bool
    ensures { result ≡ is_kept kept.now grain }
{
    kept.iter().any(|range| range.first as usize <= grain && grain <= range.last as usize)
}

/// A grain of a volume after a cut: what it holds now where it is kept or held nothing before, and else what it held before.
fn cut_grain(
    alloc: Global,
    kept: &[Range],
    now: &[Grain],
    under: &[Grain],
    place: usize,
) -> Result<Grain, NoMemory>
    requires { place < length now.now }
    ensures { IfOk result (λ g. g ≡ cut_at kept.now now.now under.now place) }
{
    if place < under.len() && !is_kept(kept, place) {
        under[place].copy(alloc)
    } else {
        now[place].copy(alloc)
    }
}

/// Grain by grain, what is kept of the one, and else the other.
fn cut_grains(
    alloc: Global,
    kept: &[Range],
    now: &[Grain],
    under: &[Grain],
) -> Result<Vec<Grain>, NoMemory>
    ensures { IfOk result (λ grains. grains.items ≡ cut_from kept.now 0 now.now under.now) }
{
    let mut grains = Vec::new(alloc);
    for place in 0..now.len() {
        push_grain(&mut grains, cut_grain(alloc, kept, now, under, place)?)?;
    }
    Ok(grains)
}

/// A volume after a cut, where it is the one that is cut.
fn cut_volume(alloc: Global, volume: &Volume, id: VolId, kept: &[Range]) -> Result<Volume, NoMemory>
    ensures { IfOk result (λ v. v ≡ cut_if id kept.now volume.now) }
{
    if volume.is(id) {
        let now = cut_grains(alloc, kept, volume.now(), volume.under())?;
        let under = copies_of(alloc, volume.under())?;
        Ok(Volume::of(volume.id(), now, under))
    } else {
        volume.copy(alloc)
    }
}

/// The volumes after a cut.
fn cut_volumes(
    alloc: Global,
    volumes: &[Volume],
    id: VolId,
    kept: &[Range],
) -> Result<Vec<Volume>, NoMemory>
    ensures { IfOk result (λ new. new.items ≡ map (cut_if id kept.now) volumes.now) }
{
    let mut new = Vec::new(alloc);
    for volume in volumes {
        push_volume(&mut new, cut_volume(alloc, volume, id, kept)?)?;
    }
    Ok(new)
}

/// Does an effect. Refused, the volumes may be as they were or not.
fn do_effect(
    alloc: Global,
    grain: GrainSize,
    volumes: &mut Vec<Volume>,
    effect: &Effect,
) -> Result<(), NoMemory>
    ensures { OnOk result (volumes.new.items ≡ after_effect grain volumes.old.items effect.now) }
{
    match effect {
        Effect::Make { volume, grains } => {
            push_volume(volumes, Volume::zeros(alloc, *volume, *grains, grain)?)
        }
        Effect::Remove { volume } => {
            *volumes = others_of(alloc, volumes.as_slice(), *volume)?;
            Ok(())
        }
        Effect::Trigger { pairs } => {
            *volumes = triggered_volumes(alloc, volumes.as_slice(), pairs.as_slice())?;
            Ok(())
        }
        Effect::Cut { volume, kept } => {
            *volumes = cut_volumes(alloc, volumes.as_slice(), *volume, kept.as_slice())?;
            Ok(())
        }
        _ => Ok(()),
    }
}

/// Does effects, in their order. Refused, a part of them may be done.
pub(crate) fn do_effects(
    alloc: Global,
    grain: GrainSize,
    volumes: &mut Vec<Volume>,
    effects: &[Effect],
) -> Result<(), NoMemory>
    ensures { OnOk result (volumes.new.items ≡ after_effects grain volumes.old.items effects.now) }
{
    for effect in effects {
        do_effect(alloc, grain, volumes, effect)?;
    }
    Ok(())
}
