//! Places that pass a test.

ghost use Rattle.std.specs.Prelude.{◌≡◌, ◌+◌, ◌-◌, ◌<◌, ◌^◌, ◌++◌, ◌∷◌, [], ℕ, Bool, IfOk, OnOk, cond, length};
ghost use Rattle.fc_base.specs.Column.{last_below};
ghost use Rattle.fc_drawing.specs.Places.{places_below};
ghost use Rattle.model_slots.specs.Search.{Tests};

use fc_base::outcome::NoMemory;
use std::alloc::Global;

/// The last place below an end that passes a test. It is looked for from the end downwards, no further than needed.
pub(crate) fn last_place<F: Fn(usize) -> bool>(end: usize, passes: F) -> Option<usize>
    requires { F.IsAlwaysCallable passes }
    ensures { (test : ℕ → Bool) → Tests (F.post passes) test → result ≡ last_below test end }
{
    for place in (0..end).rev() {
        if passes(place) {
            return Some(place);
        }
    }
    None
}

/// Puts a place at the end, where it passes.
fn push_if(places: &mut Vec<usize>, place: usize, passes: bool) -> Result<(), NoMemory>
    ensures { OnOk result (places.new.items ≡ cond passes (places.old.items ++ place ∷ []) places.old.items) }
{
    if !passes {
        return Ok(());
    }
    match places.push(place) {
        Ok(()) => Ok(()),
        Err(_) => Err(NoMemory),
    }
}

/// The places below an end that pass a test, in order.
pub(crate) fn places_below<F: Fn(usize) -> bool>(
    alloc: Global,
    end: usize,
    passes: F,
) -> Result<Vec<usize>, NoMemory>
    requires { F.IsAlwaysCallable passes }
    ensures { IfOk result (λ places. (test : ℕ → Bool) → Tests (F.post passes) test → places.items ≡ places_below test end) }
{
    let mut places = Vec::new(alloc);
    for place in 0..end {
        push_if(&mut places, place, passes(place))?;
    }
    Ok(places)
}

/// One more, where it passes.
fn counted(count: usize, passes: bool) -> usize
    requires { count < 2 ^ 64 - 1 }
    ensures { result ≡ cond passes (count + 1) count }
{
    if passes { count + 1 } else { count }
}

/// How many places below an end pass a test.
pub(crate) fn count_places<F: Fn(usize) -> bool>(end: usize, passes: F) -> usize
    requires { F.IsAlwaysCallable passes }
    ensures { (test : ℕ → Bool) → Tests (F.post passes) test → result ≡ length (places_below test end) }
{
    let mut count = 0;
    for place in 0..end {
        count = counted(count, passes(place));
    }
    count
}
