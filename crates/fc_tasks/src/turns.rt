//! All parts of a yard are taken, and put back.

ghost use Rattle.std.specs.Prelude.{◌≡◌, ◌≤◌, [], length, vec_len, vec_capacity};
ghost use Rattle.fc_yard.specs.Rule.{account};
ghost use Rattle.fc_yard.specs.Views.{HoldsNone};
ghost use Rattle.fc_yard.specs.Calls.{IsPassOf};
ghost use Rattle.fc_tasks.specs.Acting.{HoldsJust};

use fc_yard::part::Part;
use fc_yard::pass::Pass;
use fc_yard::yard::Yard;
use std::sync::Wait;

/// Takes all parts, from the first on, into an empty list with room for them.
pub(crate) fn take_all<R: Wait, W, E, P: Part<W, E>>(
    rt: &R,
    yard: &Yard<W, E, P>,
    pass: &mut Pass<P, E>,
    parts: &mut Vec<P>,
)
    requires yard { IsPassOf yard.now pass.old }
    requires free { HoldsNone pass.old.view }
    requires room { (parts.old.items ≡ []) × (yard.now.parts ≤ vec_capacity parts.old) }
    ensures yard { IsPassOf yard.now pass.new }
    ensures books { account pass.new.view ≡ account pass.old.view }
    ensures held { HoldsJust pass.new.view parts.new.items }
    ensures all { length parts.new.items ≡ yard.now.parts }
{
    for part in 0..yard.parts() {
        let value = yard.take(rt, pass, part);
        parts.push_reserved(value);
    }
}

/// Puts all parts back, from the last on, as they are held.
pub(crate) fn put_all<W, E, P: Part<W, E>>(
    yard: &Yard<W, E, P>,
    pass: &mut Pass<P, E>,
    mut parts: Vec<P>,
)
    requires yard { IsPassOf yard.now pass.old }
    requires held { HoldsJust pass.old.view parts.items }
    requires all { length parts.items ≡ yard.now.parts }
    ensures yard { IsPassOf yard.now pass.new }
    ensures books { account pass.new.view ≡ account pass.old.view }
    ensures free { HoldsNone pass.new.view }
{
    while let Some(value) = parts.pop() {
        yard.put(pass, parts.len(), value);
    }
}
