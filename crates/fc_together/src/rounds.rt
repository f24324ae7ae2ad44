//! A yard is opened, scripts are done in it, and it is closed.

ghost use Rattle.std.specs.Prelude.{◌≡◌, ◌≤◌, [], vec_len, vec_capacity, IfOk, IfErr};
ghost use Rattle.fc_tasks.specs.Acting.{AllSuit};
ghost use Rattle.fc_yard.specs.Whole.{OpensWith};
ghost use Rattle.fc_together.specs.Acted.{HaveActed};

use fc_tasks::actor::Answered;
use fc_tasks::beside::act_all;
use fc_tasks::gate::Gate;
use fc_tasks::script::Script;
use fc_yard::part::Part;
use fc_yard::yard::Yard;
use std::alloc::Global;
use std::sync::Wait;
use std::thread::Threads;

/// Opens a yard of these parts, has scripts done in it beside each other, and closes it. Numbers begin with the first one, and
/// stay below the limit.
///
/// The parts go, as they are then, into the empty list `back`, and what each script did into the empty list `answers`; both
/// have room. Refused for want of memory alone, before any script began: the parts come back.
pub fn act_in_yard<
    R: Threads + Wait + Sync,
    W,
    E: Send + Drop,
    P: Part<W, E>,
    S: Script<W, E, P>,
    G: Gate,
>(
    rt: &R,
    alloc: Global,
    gate: &G,
    parts: Vec<P>,
    first: u64,
    limit: u64,
    scripts: Vec<S>,
    answers: Vec<Answered<E, S>>,
    back: &mut Vec<P>,
) -> Result<Vec<Answered<E, S>>, Vec<P>>
    requires opened { (w0 : W) × OpensWith P.fits P.sound P.count P.steps parts.items first w0 }
    requires suits { AllSuit S.needed S.suits S.goes scripts.items parts.items limit }
    requires limit { first ≤ limit }
    requires answers { (answers.items ≡ []) × (vec_len scripts ≤ vec_capacity answers) }
    requires back { (back.old.items ≡ []) × (vec_len parts ≤ vec_capacity back.old) }
    ensures acted { IfOk result (λ made. HaveActed P.fits P.sound P.count P.steps S.needed S.suits S.goes parts.items first limit scripts.items made.items back.new.items) }
    ensures refused { IfErr result (λ same. same.items ≡ parts.items) }
{
    let passes = scripts.len().max(1) as u64;
    match Yard::new(alloc, parts, first, limit, passes) {
        Err(parts) => Err(parts),
        Ok((yard, pass)) => {
            let (pass, made) = act_all(rt, alloc, &yard, gate, pass, scripts, answers);
            yard.close(pass, back);
            Ok(made)
        }
    }
}
