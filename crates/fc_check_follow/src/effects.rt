//! Effects of a command behind those of the settling.

ghost use Rattle.std.specs.Prelude.{◌≡◌, ◌++◌, MatchOption, List};
ghost use Rattle.fc_base.specs.declared.request.Effect.{Effect};

use fc_base::request::Effect;
use fc_check_same::same::all_same;

/// What stands behind the first effects, where these are the ones given; None exactly where they aren't.
pub(crate) fn behind<'a>(front: &[Effect], effects: &'a [Effect]) -> Option<&'a [Effect]>
    ensures { MatchOption result ((rest : List Effect) → effects.now ≡ front.now ++ rest → ⊥) (λ rest. effects.now ≡ front.now ++ rest.now) }
{
    let count = front.len();
    if count > effects.len() {
        return None;
    }
    if all_same(&effects[..count], front) {
        Some(&effects[count..])
    } else {
        None
    }
}
