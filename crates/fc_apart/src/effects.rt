//! The effects of a settling and of what is decided after it, in one list.

ghost use Rattle.std.specs.Prelude.{◌≡◌, ◌++◌, List as Items, IfOk, OnOk};
ghost use Rattle.fc_base.specs.declared.request.Effect.{Effect};
ghost use Rattle.fc_apart.specs.Effects.{IsJoined};

use fc_base::list::List;
use fc_base::outcome::NoMemory;
use fc_base::ranges::Ranges;
use fc_base::request::{Effect, Pair};
use std::alloc::Global;

/// A copy of the pairs of a trigger.
fn copy_pairs(alloc: Global, pairs: &[Pair]) -> Result<List<Pair>, NoMemory>
    ensures { IfOk result (λ copy. copy ≡ pairs.now) }
{
    match Vec::from_slice(alloc, pairs) {
        Ok(items) => Ok(List::of(items)),
        Err(_) => Err(NoMemory),
    }
}

/// A copy of ranges of grains.
fn copy_ranges(alloc: Global, ranges: &Ranges) -> Result<Ranges, NoMemory>
    ensures { IfOk result (λ copy. copy ≡ ranges.now) }
{
    let mut copy = Ranges::new(alloc);
    for range in ranges.as_slice() {
        copy.push(*range)?;
    }
    Ok(copy)
}

/// A copy of an effect.
fn copy_effect(alloc: Global, effect: &Effect) -> Result<Effect, NoMemory>
    ensures { IfOk result (λ copy. copy ≡ effect.now) }
{
    match effect {
        Effect::Make { volume, grains } => Ok(Effect::Make {
            volume: *volume,
            grains: *grains,
        }),
        Effect::Remove { volume } => Ok(Effect::Remove { volume: *volume }),
        Effect::Trigger { pairs } => {
            let pairs = copy_pairs(alloc, pairs.as_slice())?;
            Ok(Effect::Trigger { pairs })
        }
        Effect::Cut { volume, kept } => {
            let kept = copy_ranges(alloc, kept)?;
            Ok(Effect::Cut {
                volume: *volume,
                kept,
            })
        }
        Effect::State { map, state } => Ok(Effect::State {
            map: *map,
            state: *state,
        }),
        Effect::Gone { map } => Ok(Effect::Gone { map: *map }),
    }
}

/// Puts copies of the effects at the list's end.
fn copy_behind(alloc: Global, list: &mut List<Effect>, effects: &[Effect]) -> Result<(), NoMemory>
    ensures { OnOk result (list.new ≡ list.old ++ effects.now) }
{
    for effect in effects {
        let copy = copy_effect(alloc, effect)?;
        list.push(copy)?;
    }
    Ok(())
}

/// The effects of a settling, with those decided after it behind them. Where the settling has none there is nothing to join:
/// the list is empty, and `taken` takes those decided.
pub fn join(
    alloc: Global,
    settled: &List<Effect>,
    decided: &List<Effect>,
) -> Result<List<Effect>, NoMemory>
    ensures { IfOk result (λ joined. IsJoined settled.now decided.now joined) }
{
    let mut joined = List::new(alloc);
    if settled.len() == 0 {
        return Ok(joined);
    }
    copy_behind(alloc, &mut joined, settled.as_slice())?;
    copy_behind(alloc, &mut joined, decided.as_slice())?;
    Ok(joined)
}

/// All effects: the joined ones, or those decided where the settling has none. Takes no memory.
pub fn taken(joined: List<Effect>, decided: List<Effect>) -> List<Effect>
    ensures { (settled : Items Effect) → IsJoined settled decided joined → result ≡ settled ++ decided }
{
    if joined.len() == 0 {
        return decided;
    }
    joined
}
