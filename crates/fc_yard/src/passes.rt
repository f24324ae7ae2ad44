//! Passes are split and joined.

ghost use Rattle.std.specs.Prelude.{◌≡◌, ◌<◌};
ghost use Rattle.fc_yard.specs.Views.{HoldsNone, split_off, split_from, joined};
ghost use Rattle.fc_yard.specs.Calls.{IsPassOf, became};

use crate::part::Part;
use crate::pass::Pass;
use crate::plays::Shares;
use crate::yard::Yard;

impl<W, E, P: Part<W, E>> Yard<W, E, P> {
    /// Another pass, with one of this one's shares, for another actor. It holds no part, has no ticket and has drawn nothing.
    ///
    /// As many passes as the yard was opened for can be there at once.
    pub fn split(&self, pass: &mut Pass<P, E>) -> Pass<P, E>
        requires yard { IsPassOf self.now pass.old }
        requires shares { 1 < pass.old.view.shares }
        ensures left { pass.new ≡ became pass.old (split_from pass.old.view) }
        ensures other { result ≡ became pass.old (split_off pass.old.view) }
    {
        Pass {
            seat: self.table.shared.split_seat::<Shares>(&mut pass.seat),
        }
    }

    /// Takes in another pass that holds no part: its shares, its tickets, and its numbers behind those of this one.
    pub fn join(&self, pass: &mut Pass<P, E>, other: Pass<P, E>)
        requires yard { IsPassOf self.now pass.old }
        requires other { IsPassOf self.now other }
        requires free { HoldsNone other.view }
        ensures { pass.new ≡ became pass.old (joined pass.old.view other.view) }
    {
        let Pass { seat } = other;
        self.table.shared.join_seat::<Shares>(&mut pass.seat, seat);
    }
}
