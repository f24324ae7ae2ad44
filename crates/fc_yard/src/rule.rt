//! The table under the yard: what its slots hold, what a pass knows, and the rule over both.
//!
//! For a yard of n parts, part p has slot p and word 16 p, its turn: 0 where nobody has it, 1 where a pass has it, 2 where
//! another pass may sleep until it comes back. Word 16 n counts the tickets given, word 16 n + 16 the numbers drawn, both
//! from the yard's first number. The factor keeps each word 128 bytes from the next one, so that no two share a cache line.

ghost use Rattle.std.specs.Prelude.{◌≡◌};
ghost use Rattle.fc_yard.specs.declared.rule.Stall.TheVariants.{Home};

use crate::part::Part;
use atomic_table::TableRule;
use std::collections::LinkedList;
use std::marker::PhantomData;
use std::snapshot::Snapshot;

/// How many words stand from one turn to the next.
pub(crate) const STRIDE: usize = 16;

/// What a part's slot holds.
#[derive(Drop)]
pub enum Stall<P, E> {
    /// Nothing: the part is out.
    Out,
    /// The part.
    Home(P),
    /// Nothing either. Its holder announces an entry, and the part as the entry left it.
    Deed(Snapshot<E>, Snapshot<P>),
    /// The same of an entry over all parts.
    Deeds(Snapshot<E>, Snapshot<Vec<P>>),
}

impl<P: Drop, E> Stall<P, E> {
    /// The part, which is in its slot.
    pub(crate) fn into_part(self) -> P
        requires { (x : P) × (self ≡ Home x) }
        ensures { self ≡ Home result }
    {
        match self {
            Stall::Home(part) => part,
            _ => unreachable!(),
        }
    }
}

/// What a pass knows and may do. No value of it is made.
pub struct View<P, E> {
    /// For each part whose turn the pass has, the part as it was taken, or as it was when the pass drew a number with it.
    pub held: LinkedList<Option<P>>,
    /// 0, or 1 more than the place of the part whose slot is in the pass's hands.
    pub hand: u64,
    /// The parts that the yard was opened with.
    pub openings: LinkedList<P>,
    /// The first number.
    pub first: u64,
    /// No number reaches this.
    pub limit: u64,
    /// How many passes the yard can be split into.
    pub passes: u64,
    /// How many of these this one stands for.
    pub shares: u64,
    /// How many numbers it may still draw.
    pub tickets: u64,
    /// So many tickets were given at least, counted from 0 and with the first number added.
    pub low: u64,
    /// The numbers that it drew, each with its entry.
    pub made: LinkedList<(u64, E)>,
}

/// What the yard is made for. The rule reads it.
#[derive(Drop)]
pub struct Terms<P> {
    pub first: u64,
    pub limit: u64,
    pub passes: u64,
    pub parts: Snapshot<Vec<P>>,
}

/// The rule.
pub struct Turns<W> {
    whole: PhantomData<W>,
}

impl<W, E, P: Part<W, E>> TableRule<Stall<P, E>, View<P, E>, Terms<P>> for Turns<W> {
    ghost use Rattle.fc_yard.specs.Rule.{Kept, first_view};

    ghost holds = { Kept P.fits P.sound P.count P.steps };

    ghost first = { first_view };
}
