//! A yard is opened and closed.

ghost use Rattle.std.specs.Prelude.{◌≡◌, ◌+◌, ◌^◌, ◌<◌, ◌≤◌, ◌++◌, [], length, vec_len, vec_capacity, IfOk, IfErr, List};
ghost use Rattle.std.specs.Slots.{slots_items, slots_len, IsFull};
ghost use Rattle.fc_yard.specs.Homes.{at_home, homes_of, AllHome, new_words};
ghost use Rattle.fc_yard.specs.Views.{HoldsNone, opening_view};
ghost use Rattle.fc_yard.specs.Whole.{IsClosed};
ghost use Rattle.fc_yard.specs.Rule.{parts_of, first_view};
ghost use Rattle.fc_yard.specs.Calls.{IsPassOf, IsSized};

use crate::part::Part;
use crate::pass::Pass;
use crate::rule::{STRIDE, Stall, Terms, View};
use crate::yard::{Hall, Yard};
use atomic_table::{Closed, Refused, Seat, Table};
use std::alloc::{AllocError, Global};
use std::collections::VecDeque;
use std::snapshot::Snapshot;

/// No memory has room for the words of so many parts.
const MOST_PARTS: usize = 1 << 57;

/// The words of a new yard.
fn words_for(alloc: Global, parts: usize, first: u64) -> Result<Vec<u64>, AllocError>
    requires { parts < 2 ^ 57 }
    ensures { IfOk result (λ words. words.items ≡ new_words parts first) }
{
    let mut words = Vec::from_elem(alloc, 0u64, STRIDE * parts + 2 * STRIDE)?;
    words[STRIDE * parts] = first;
    words[STRIDE * parts + STRIDE] = first;
    Ok(words)
}

/// Puts parts into slots, in order, in a list with room for them.
fn house<P: Drop, E>(mut parts: VecDeque<P>, stalls: &mut Vec<Stall<P, E>>)
    requires { vec_len stalls.old + length parts.items ≤ vec_capacity stalls.old }
    ensures { stalls.new.items ≡ stalls.old.items ++ at_home parts.items }
{
    while let Some(part) = parts.pop_front() {
        stalls.push_reserved(Stall::Home(part));
    }
}

/// Takes parts out of their slots, in order, into a list with room for them.
fn rehouse<P: Drop, E>(mut stalls: VecDeque<Stall<P, E>>, parts: &mut Vec<P>)
    requires home { AllHome stalls.items }
    requires room { vec_len parts.old + length stalls.items ≤ vec_capacity parts.old }
    ensures { parts.new.items ≡ parts.old.items ++ homes_of stalls.items }
{
    while let Some(stall) = stalls.pop_front() {
        parts.push_reserved(stall.into_part());
    }
}

/// Takes the parts out of a closed table.
fn gather<P: Drop, E>(mut closed: Closed<Stall<P, E>, Global>, parts: &mut Vec<P>)
    requires full { IsFull closed.slots }
    requires home { AllHome (slots_items closed.slots) }
    requires room { vec_len parts.old + slots_len closed.slots ≤ vec_capacity parts.old }
    ensures { parts.new.items ≡ parts.old.items ++ homes_of (slots_items closed.slots) }
{
    for place in 0..closed.slot_count() {
        parts.push_reserved(closed.take(place).into_part());
    }
    closed.free();
}

/// The memory that a new yard needs.
struct Room<P, E> {
    /// The words of its table.
    words: Vec<u64>,
    /// The slots of its table.
    stalls: Vec<Stall<P, E>>,
    /// Where its parts go if there is no table.
    back: Vec<P>,
}

impl<P: Drop, E> Room<P, E> {
    /// Room for so many parts.
    fn new(alloc: Global, parts: usize, first: u64) -> Result<Self, AllocError>
        ensures words { IfOk result (λ room. (room.words.items ≡ new_words parts first) × (parts < 2 ^ 57)) }
        ensures stalls { IfOk result (λ room. (room.stalls.items ≡ []) × (parts ≤ vec_capacity room.stalls)) }
        ensures back { IfOk result (λ room. (room.back.items ≡ []) × (parts ≤ vec_capacity room.back)) }
    {
        if parts >= MOST_PARTS {
            return Err(AllocError);
        }
        let words = words_for(alloc, parts, first)?;
        let back = Vec::with_capacity(alloc, parts)?;
        let stalls = Vec::with_capacity(alloc, parts)?;
        Ok(Room {
            words,
            stalls,
            back,
        })
    }

    /// A table with these parts in its slots. Refused for want of memory, the parts come back.
    fn furnish<W>(
        self,
        alloc: Global,
        parts: Vec<P>,
        terms: Terms<P>,
    ) -> Result<(Hall<W, E, P>, Seat<Stall<P, E>, View<P, E>>), Vec<P>>
    where
        P: Part<W, E>,
        requires terms { (parts_of terms ≡ parts.items) × (terms.first ≤ terms.limit) × (0 < terms.passes) }
        requires words { (self.words.items ≡ new_words (vec_len parts) terms.first) × (vec_len parts < 2 ^ 57) }
        requires stalls { (self.stalls.items ≡ []) × (vec_len parts ≤ vec_capacity self.stalls) }
        requires back { (self.back.items ≡ []) × (vec_len parts ≤ vec_capacity self.back) }
        ensures table { IfOk result (λ r. IsSized r.0.shared.table_id (vec_len parts) × (r.0.shared.key ≡ terms)) }
        ensures seat { IfOk result (λ r. (r.1.table_id ≡ r.0.shared.table_id) × (r.1.me ≡ (first_view terms, []))) }
        ensures back { IfErr result (λ back. back.items ≡ parts.items) }
    {
        let Room {
            words,
            mut stalls,
            mut back,
        } = self;
        house(VecDeque::from(parts), &mut stalls);
        match Table::new(alloc, words.as_slice(), stalls, &terms) {
            Ok(made) => Ok(made),
            Err(Refused { slots }) => {
                rehouse(VecDeque::from(slots), &mut back);
                Err(back)
            }
        }
    }
}

impl<W, E, P: Part<W, E>> Yard<W, E, P> {
    /// A yard of these parts, in this order, and its first pass, which has all shares, as many as passes can be there at once.
    ///
    /// Numbers begin with the first one, and stay below the limit. Refused for want of memory alone, the parts come back.
    pub fn new(
        alloc: Global,
        parts: Vec<P>,
        first: u64,
        limit: u64,
        passes: u64,
    ) -> Result<(Yard<W, E, P>, Pass<P, E>), Vec<P>>
        requires passes { 0 < passes }
        requires limit { first ≤ limit }
        ensures yard { IfOk result (λ r. IsPassOf r.0 r.1 × (r.0.parts ≡ vec_len parts) × (r.0.limit ≡ limit)) }
        ensures pass { IfOk result (λ r. r.1.view ≡ opening_view parts.items first limit passes) }
        ensures back { IfErr result (λ back. back.items ≡ parts.items) }
    {
        let count = parts.len();
        let Ok(room) = Room::new(alloc, count, first) else {
            return Err(parts);
        };
        let terms = Terms {
            first,
            limit,
            passes,
            parts: Snapshot::of(&parts),
        };
        match room.furnish(alloc, parts, terms) {
            Ok((table, seat)) => Ok((
                Yard {
                    table,
                    parts: count,
                    limit,
                },
                Pass { seat },
            )),
            Err(back) => Err(back),
        }
    }

    /// Closes the yard with a pass that has all shares and holds no part, and appends the parts to a list with room for
    /// them, in order. Takes no memory.
    ///
    /// There are then the entries in the order of their numbers, each at its place and each number once in the pass's list;
    /// whatever whole the yard was opened on, they led from it to one of which each part that comes back has its share
    /// (`IsClosed`).
    pub fn close(self, pass: Pass<P, E>, into: &mut Vec<P>)
        requires yard { IsPassOf self pass }
        requires all { pass.view.shares ≡ pass.view.passes }
        requires free { HoldsNone pass.view }
        requires room { vec_len into.old + self.parts ≤ vec_capacity into.old }
        ensures { (xs : List P) × (into.new.items ≡ into.old.items ++ xs) × IsClosed P.fits P.sound P.count P.steps pass.view xs }
    {
        let Yard { table, .. } = self;
        let Pass { seat } = pass;
        gather(table.close_with(seat), into);
    }
}
