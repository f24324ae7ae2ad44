//! Tickets are given, and numbers drawn.

ghost use Rattle.std.specs.Prelude.{◌≡◌, ◌+◌, ◌^◌, ◌<◌, ◌≤◌, ℕ, true, false, length};
ghost use Rattle.fc_yard.specs.Views.{Holds, HoldsAll, ticketed, looked, drew, drew_all};
ghost use Rattle.fc_yard.specs.Whole.{Knows, Commits, CommitsAll};
ghost use Rattle.fc_yard.specs.Steps.{CommitsDeed, DrewFor};
ghost use Rattle.fc_yard.specs.Calls.{IsPassOf, IsSameSeat, IsSized, AtRest, IsNext, became};

use crate::part::Part;
use crate::pass::Pass;
use crate::plays::{Draw, Look, Take, Unpark};
use crate::rule::{STRIDE, Stall, View};
use crate::yard::{Shelf, Yard};
use atomic_table::Seat;
use std::snapshot::Snapshot;

/// Draws a number for the entry that the slot of a part that is held announces from now on.
fn draw_for<W, E, P: Part<W, E>>(
    shelf: &Shelf<W, E, P>,
    seat: &mut Seat<Stall<P, E>, View<P, E>>,
    part: usize,
    parts: usize,
    deed: Stall<P, E>,
) -> u64
    requires table { (seat.old.table_id ≡ shelf.now.table_id) × IsSized shelf.now.table_id parts × (part < parts) }
    requires ready { AtRest seat.old × Holds seat.old.me.0 part × (0 < seat.old.me.0.tickets) × (seat.old.me.0.limit < 2 ^ 64) }
    requires commits { CommitsDeed P.fits P.sound P.count P.steps parts seat.old.me.0 part deed }
    ensures seat { IsSameSeat seat.old seat.new × DrewFor P.fits P.sound P.count P.steps seat.old.me.0 part result deed seat.new.me }
    ensures number { IsNext seat.old.me.0 result }
{
    shelf.load::<Unpark>(seat, STRIDE * part);
    drop(shelf.exchange(seat, part, deed));
    shelf.fetch_add::<Draw<W>>(seat, STRIDE * parts + STRIDE, 1)
}

impl<W, E, P: Part<W, E>> Yard<W, E, P> {
    /// Gives the pass a ticket, the right to draw one number.
    ///
    /// `false` exactly where as many tickets were given as there are numbers below the limit; more are never given, so it is
    /// `false` from then on (`low` of the pass is the limit). Doesn't wait, and tries no more often than tickets are left.
    /// A ticket that isn't used is lost, but for the pass that has it. So few entries are told then that one for each of the
    /// pass's tickets, this one too, has room below the limit (`Knows`).
    pub fn ticket(&self, pass: &mut Pass<P, E>) -> bool
        requires { IsPassOf self.now pass.old }
        ensures given { result ≡ true → (n : ℕ) × (pass.new ≡ became pass.old (ticketed pass.old.view n)) × (pass.old.view.low ≤ n) × (n < pass.old.view.limit) }
        ensures ended { result ≡ false → pass.new ≡ became pass.old (looked pass.old.view pass.old.view.limit) }
        ensures knows { Knows P.fits P.sound P.count P.steps pass.new.view }
    {
        let shelf = &self.table.shared;
        let word = STRIDE * self.parts;
        let mut given = shelf.load::<Look<W>>(&mut pass.seat, word);
        while given < self.limit {
            let found = shelf.compare_exchange::<Take<W>>(&mut pass.seat, word, given, given + 1);
            if found == given {
                return true;
            }
            given = found;
        }
        false
    }

    /// Draws the next number, for an entry by which a part that the pass holds became this value. Costs a ticket, and never fails.
    ///
    /// The number is above all that the pass drew before, and below the limit. At this one step the entry joins all entries and
    /// the whole goes on: the caller shows that the entry leads from whatever whole is told then to a next one, of which the
    /// part as it now is has its share, and every other part still has its own (`Commits`). The pass holds the part as it now is.
    pub fn draw(&self, pass: &mut Pass<P, E>, part: usize, value: &P, entry: &E) -> u64
        requires yard { IsPassOf self.now pass.old }
        requires part { part < self.now.parts }
        requires held { Holds pass.old.view part }
        requires ticket { 0 < pass.old.view.tickets }
        requires commits { Commits P.fits P.sound P.count P.steps pass.old.view part value.now entry.now }
        ensures drawn { pass.new ≡ became pass.old (drew pass.old.view part value.now result entry.now) }
        ensures knows { Knows P.fits P.sound P.count P.steps pass.new.view }
        ensures number { IsNext pass.old.view result }
    {
        let deed = Stall::Deed(Snapshot::of(entry), Snapshot::of(value));
        draw_for(&self.table.shared, &mut pass.seat, part, self.parts, deed)
    }

    /// Draws the next number, for an entry by which all parts became these values, in order. The pass holds every part. Costs a
    /// ticket, and never fails.
    ///
    /// The same as `draw` over all parts at once: no other entry comes between their changes (`CommitsAll`).
    pub fn draw_all(&self, pass: &mut Pass<P, E>, values: &Vec<P>, entry: &E) -> u64
        requires yard { IsPassOf self.now pass.old }
        requires parts { (0 < self.now.parts) × (length values.now.items ≡ self.now.parts) }
        requires held { HoldsAll pass.old.view self.now.parts }
        requires ticket { 0 < pass.old.view.tickets }
        requires commits { CommitsAll P.fits P.sound P.count P.steps self.now.parts pass.old.view values.now.items entry.now }
        ensures drawn { pass.new ≡ became pass.old (drew_all pass.old.view values.now.items result entry.now) }
        ensures knows { Knows P.fits P.sound P.count P.steps pass.new.view }
        ensures number { IsNext pass.old.view result }
    {
        let deeds = Stall::Deeds(Snapshot::of(entry), Snapshot::of(values));
        draw_for(&self.table.shared, &mut pass.seat, 0, self.parts, deeds)
    }
}
