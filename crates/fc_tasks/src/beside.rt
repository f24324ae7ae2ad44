//! All actors of a yard, beside each other.

ghost use Rattle.std.specs.Prelude.{◌≡◌, ◌+◌, ◌<◌, ◌≤◌, ◌++◌, [], ◌∷◌, length, vec_len, vec_capacity};
ghost use Rattle.std.specs.Thread.{IsSync, IsSend};
ghost use Rattle.fc_yard.specs.Views.{joined};
ghost use Rattle.fc_yard.specs.Calls.{became};
ghost use Rattle.fc_tasks.specs.Acting.{AllAnswered, AllSuit, IsFree, IsOpened, IsSamePass, HasAnswered, all_made};

use crate::actor::{Answered, act};
use crate::gate::Gate;
use crate::script::Script;
use fc_yard::part::Part;
use fc_yard::pass::Pass;
use fc_yard::yard::Yard;
use std::alloc::Global;
use std::sync::Wait;
use std::thread::{Threads, join};

/// The two passes as one, and what the last actor did behind what the others did.
fn both<W, E: Drop, P: Part<W, E>, S: Drop>(
    yard: &Yard<W, E, P>,
    first: (Pass<P, E>, Vec<Answered<E, S>>),
    last: (Pass<P, E>, Answered<E, S>),
) -> (Pass<P, E>, Vec<Answered<E, S>>)
    requires free { IsFree yard.now first.0 × IsFree yard.now last.0 }
    requires room { vec_len first.1 < vec_capacity first.1 }
    ensures pass { result.0 ≡ became first.0 (joined first.0.view last.0.view) }
    ensures answers { (result.1.items ≡ first.1.items ++ last.1 ∷ []) × (vec_capacity result.1 ≡ vec_capacity first.1) }
{
    let (mut pass, mut answers) = first;
    let (other, answered) = last;
    yard.join(&mut pass, other);
    answers.push_reserved(answered);
    (pass, answers)
}

/// Does scripts beside each other, each with a pass of its own and on a thread of its own where one can be made. The pass has a
/// share for each of them, and drew no number yet; it comes back with all shares, and with the numbers of all.
///
/// What each did goes, in the order of the scripts, into the empty list, which has room for it.
pub fn act_all<
    R: Threads + Wait + Sync,
    W,
    E: Send + Drop,
    P: Part<W, E>,
    S: Script<W, E, P>,
    G: Gate,
>(
    rt: &R,
    alloc: Global,
    yard: &Yard<W, E, P>,
    gate: &G,
    mut pass: Pass<P, E>,
    mut scripts: Vec<S>,
    mut answers: Vec<Answered<E, S>>,
) -> (Pass<P, E>, Vec<Answered<E, S>>)
    requires sync { IsSync R.row × IsSync G.row }
    requires send { IsSend E.row × IsSend P.row × IsSend S.row }
    requires free { IsFree yard.now pass }
    requires opened { IsOpened P.fits P.sound P.count P.steps pass.view }
    requires suits { AllSuit S.needed S.suits S.goes
        scripts.items pass.view.openings pass.view.limit }
    requires fresh { pass.view.made ≡ [] }
    requires shares { vec_len scripts ≤ pass.view.shares }
    requires room { (answers.items ≡ []) × (vec_len scripts ≤ vec_capacity answers) }
    ensures free { IsFree yard.now result.0 }
    ensures same { IsSamePass pass.view result.0.view }
    ensures made { result.0.view.made ≡ all_made result.1.items }
    ensures answered { AllAnswered S.needed S.suits S.goes
        pass.view.limit result.0.view.low scripts.items result.1.items }
    ensures room { vec_capacity result.1 ≡ vec_capacity answers }
{
    let Some(script) = scripts.pop() else {
        return (pass, answers);
    };
    if scripts.is_empty() {
        let (pass, answered) = act(rt, alloc, yard, gate, pass, script);
        answers.push_reserved(answered);
        return (pass, answers);
    }
    let other = yard.split(&mut pass);
    let (first, last) = join(
        rt,
        move ||
            requires { IsSync R.row × IsSend E.row × IsSend P.row × IsSend S.row × IsSync G.row
                × IsFree yard.now pass × IsOpened P.fits P.sound P.count P.steps pass.view
                × AllSuit S.needed S.suits S.goes scripts.items pass.view.openings pass.view.limit
                × (pass.view.made ≡ []) × (vec_len scripts ≤ pass.view.shares)
                × (answers.items ≡ []) × (vec_len scripts + 1 ≤ vec_capacity answers) }
            ensures { IsFree yard.entry.now result.0 × IsSamePass pass.view result.0.view
                × (result.0.view.made ≡ all_made result.1.items)
                × (AllAnswered S.needed S.suits S.goes
                pass.view.limit result.0.view.low scripts.items result.1.items)
                × (vec_capacity result.1 ≡ vec_capacity answers) }
        { act_all(rt, alloc, yard, gate, pass, scripts, answers) },
        move ||
            requires { IsFree yard.now other × IsOpened P.fits P.sound P.count P.steps other.view
                × S.suits script other.view.openings other.view.limit
                × (other.view.made ≡ []) }
            ensures { IsFree yard.entry.now result.0 × IsSamePass other.view result.0.view
                × (result.0.view.made ≡ result.1.made.items)
                × (HasAnswered S.needed S.suits S.goes
                other.view.limit result.0.view.low script result.1) }
        { act(rt, alloc, yard, gate, other, script) },
    );
    both(yard, first, last)
}
