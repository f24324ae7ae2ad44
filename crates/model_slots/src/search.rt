//! The first and the last place that passes a test, so far.

ghost use Rattle.std.specs.Prelude.{◌≡◌, ℕ, ◌<◌, Bool, IfSome};
ghost use Rattle.fc_base.specs.Column.{first_below, is_at};
ghost use Rattle.model_slots.specs.Search.{Tests, first_with, last_with};

/// The first place that passes, after one more place.
pub(crate) fn first_so_far(found: Option<usize>, place: usize, passes: bool) -> Option<usize>
    ensures { result ≡ first_with found place passes }
{
    match found {
        Some(first) => Some(first),
        None if passes => Some(place),
        None => None,
    }
}

/// The first place below an end that passes a test.
pub(crate) fn first_place<F: Fn(usize) -> bool>(end: usize, passes: F) -> Option<usize>
    requires { F.IsAlwaysCallable passes }
    ensures value { (test : ℕ → Bool) → Tests (F.post passes) test → result ≡ first_below test end }
    ensures bound { IfSome result (λ k. k < end) }
{
    let mut found = None;
    for place in 0..end {
        found = first_so_far(found, place, passes(place));
    }
    found
}

/// The last place that passes, after one more place.
pub(crate) fn last_so_far(found: Option<usize>, place: usize, passes: bool) -> Option<usize>
    ensures { result ≡ last_with found place passes }
{
    if passes { Some(place) } else { found }
}

/// Whether the answer is this place.
pub(crate) fn is_place(found: Option<usize>, place: usize) -> bool
    ensures { result ≡ is_at found place }
{
    match found {
        Some(there) => there == place,
        None => false,
    }
}
