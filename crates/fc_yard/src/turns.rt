//! Parts are taken and put back.

ghost use Rattle.std.specs.Prelude.{◌≡◌, ◌*◌, ◌<◌, ◌∷◌, [], None, Some, IfSome, IfNone};
ghost use Rattle.fc_yard.specs.declared.rule.Stall.TheVariants.{Home};
ghost use Rattle.fc_yard.specs.Views.{held_of, Holds, took, put_back};
ghost use Rattle.fc_yard.specs.Whole.{Knows, Stays};
ghost use Rattle.fc_yard.specs.Steps.{in_hand};
ghost use Rattle.fc_yard.specs.Calls.{IsPassOf, IsSameSeat, IsSized, InHand, AtRest, became};

use crate::part::Part;
use crate::pass::Pass;
use crate::plays::{Give, Park, Unpark, Win};
use crate::rule::{STRIDE, Stall, View};
use crate::yard::{Shelf, Yard};
use atomic_table::Seat;
use std::hint;
use std::sync::Wait;

/// Takes the part out of the slot in hand. The slot goes home.
fn bring_out<W, E, P: Part<W, E>>(
    shelf: &Shelf<W, E, P>,
    seat: &mut Seat<Stall<P, E>, View<P, E>>,
    part: usize,
) -> P
    requires table { (seat.old.table_id ≡ shelf.now.table_id) × IsSized shelf.now.table_id shelf.now.table_id.slots × (part < shelf.now.table_id.slots) }
    requires won { (x : P) × InHand seat.old part (Home x) }
    ensures seat { IsSameSeat seat.old seat.new × (seat.new.me ≡ (in_hand seat.old.me.0 0, [])) }
    ensures part { seat.old.me.1 ≡ (part, Home result) ∷ [] }
{
    let stall = shelf.exchange(seat, part, Stall::Out);
    shelf.load::<Park>(seat, STRIDE * part);
    stall.into_part()
}

/// Puts a part into its slot, and the turn is free. Says whether another pass may sleep until then.
fn bring_home<W, E, P: Part<W, E>>(
    shelf: &Shelf<W, E, P>,
    seat: &mut Seat<Stall<P, E>, View<P, E>>,
    part: usize,
    value: P,
) -> bool
    requires table { (seat.old.table_id ≡ shelf.now.table_id) × IsSized shelf.now.table_id shelf.now.table_id.slots × (part < shelf.now.table_id.slots) }
    requires held { AtRest seat.old × Holds seat.old.me.0 part }
    requires stays { Stays P.fits P.sound P.count P.steps seat.old.me.0 part value }
    ensures { IsSameSeat seat.old seat.new × (seat.new.me ≡ (put_back seat.old.me.0 part, [])) }
{
    shelf.load::<Unpark>(seat, STRIDE * part);
    drop(shelf.exchange(seat, part, Stall::Home(value)));
    shelf.swap::<Give>(seat, STRIDE * part, 0) == 2
}

impl<W, E, P: Part<W, E>> Yard<W, E, P> {
    /// Takes the part at this place, counted from 0, where nobody has its turn now. Doesn't wait.
    ///
    /// With it the pass holds the part, which has its share of the whole that is told then (`Knows`). `None` only where
    /// another pass has the turn, so never for a pass that has all shares; the pass is then as it was.
    pub fn try_take(&self, pass: &mut Pass<P, E>, part: usize) -> Option<P>
        requires yard { IsPassOf self.now pass.old }
        requires part { part < self.now.parts }
        requires free { held_of pass.old.view part ≡ None }
        ensures taken { IfSome result (λ x. (pass.new ≡ became pass.old (took pass.old.view part x)) × Knows P.fits P.sound P.count P.steps pass.new.view) }
        ensures out { IfNone result ((pass.new ≡ pass.old) × (pass.old.view.shares < pass.old.view.passes)) }
    {
        let shelf = &self.table.shared;
        if shelf.compare_exchange::<Win<W>>(&mut pass.seat, STRIDE * part, 0, 1) != 0 {
            return None;
        }
        Some(bring_out(shelf, &mut pass.seat, part))
    }

    /// The part, where its turn is free now. Else the turn's word says from now on that somebody waits for it.
    fn take_or_mark(&self, pass: &mut Pass<P, E>, part: usize) -> Option<P>
        requires yard { IsPassOf self.now pass.old }
        requires part { part < self.now.parts }
        requires free { held_of pass.old.view part ≡ None }
        ensures taken { IfSome result (λ x. (pass.new ≡ became pass.old (took pass.old.view part x)) × Knows P.fits P.sound P.count P.steps pass.new.view) }
        ensures out { IfNone result (pass.new ≡ pass.old) }
    {
        let shelf = &self.table.shared;
        if shelf.swap::<Win<W>>(&mut pass.seat, STRIDE * part, 2) != 0 {
            return None;
        }
        Some(bring_out(shelf, &mut pass.seat, part))
    }

    /// Looks a hundred times whether the turn of the part is free.
    fn watch(&self, part: usize)
        requires { part < self.now.parts }
    {
        for _ in 0..100 {
            if self.table.shared.peek(STRIDE * part) == 0 {
                return;
            }
            hint::spin_loop();
        }
    }

    /// Takes the part at this place, counted from 0, and waits until nobody else has its turn.
    ///
    /// The pass then holds the part, which has its share of the whole that is told at that moment (`Knows`). No clause says that
    /// the turn is ever had. It looks a hundred times before it sleeps.
    pub fn take<R: Wait>(&self, rt: &R, pass: &mut Pass<P, E>, part: usize) -> P
        requires yard { IsPassOf self.now pass.old }
        requires part { part < self.now.parts }
        requires free { held_of pass.old.view part ≡ None }
        ensures taken { pass.new ≡ became pass.old (took pass.old.view part result) }
        ensures knows { Knows P.fits P.sound P.count P.steps pass.new.view }
    {
        if let Some(value) = self.try_take(pass, part) {
            return value;
        }
        self.watch(part);
        for _ in rt.forever() {
            if let Some(value) = self.take_or_mark(pass, part) {
                return value;
            }
            self.table.shared.park(rt, STRIDE * part, 2);
        }
        unreachable!()
    }

    /// Puts a part back that the pass holds, and whoever waits for it may take it.
    ///
    /// The part may have been changed since it was taken or last drew a number, so long as it has its share of every whole of
    /// which it had its share then (`Stays`): more memory, for one. Work for which no number was drawn can't be put back.
    pub fn put(&self, pass: &mut Pass<P, E>, part: usize, value: P)
        requires yard { IsPassOf self.now pass.old }
        requires part { part < self.now.parts }
        requires held { Holds pass.old.view part }
        requires stays { Stays P.fits P.sound P.count P.steps pass.old.view part value }
        ensures { pass.new ≡ became pass.old (put_back pass.old.view part) }
    {
        let shelf = &self.table.shared;
        if bring_home(shelf, &mut pass.seat, part, value) {
            shelf.wake_one(STRIDE * part);
        }
    }
}
