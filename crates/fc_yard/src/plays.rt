//! What each step on the table tells its pass. These types are for the proofs alone.

ghost use Rattle.fc_yard.specs.Views.{split_off, split_from, joined, spent};
ghost use Rattle.fc_yard.specs.Steps.{Won, Parked, Unparked, Gave, Looked, Ticketed, Drew};

use crate::part::Part;
use crate::rule::{Stall, View};
use atomic_table::{Join, Play, Split};
use std::marker::PhantomData;

/// A try for the turn of a part. Won, the part's slot comes into the pass's hands.
pub(crate) struct Win<W> {
    whole: PhantomData<W>,
}

impl<W, E, P: Part<W, E>> Play<Stall<P, E>, View<P, E>> for Win<W> {
    ghost then = { Won P.fits P.sound P.count P.steps };
}

/// The slot in hand goes home.
pub(crate) struct Park;

impl<P, E> Play<Stall<P, E>, View<P, E>> for Park {
    ghost then = { Parked };
}

/// The slot of a part that is held comes into the pass's hands.
pub(crate) struct Unpark;

impl<P, E> Play<Stall<P, E>, View<P, E>> for Unpark {
    ghost then = { Unparked };
}

/// The slot in hand goes home with its part, and the turn is free.
pub(crate) struct Give;

impl<P, E> Play<Stall<P, E>, View<P, E>> for Give {
    ghost then = { Gave };
}

/// The tickets given are counted.
pub(crate) struct Look<W> {
    whole: PhantomData<W>,
}

impl<W, E, P: Part<W, E>> Play<Stall<P, E>, View<P, E>> for Look<W> {
    ghost then = { Looked P.fits P.sound P.count P.steps };
}

/// A ticket, where as many were given as expected.
pub(crate) struct Take<W> {
    whole: PhantomData<W>,
}

impl<W, E, P: Part<W, E>> Play<Stall<P, E>, View<P, E>> for Take<W> {
    ghost then = { Ticketed P.fits P.sound P.count P.steps };
}

/// A number, for the entry that the slot in hand announces.
pub(crate) struct Draw<W> {
    whole: PhantomData<W>,
}

impl<W, E, P: Part<W, E>> Play<Stall<P, E>, View<P, E>> for Draw<W> {
    ghost then = { Drew P.fits P.sound P.count P.steps };
}

/// How passes are split and joined.
pub(crate) struct Shares;

impl<P, E> Split<View<P, E>> for Shares {
    ghost left = { split_from };

    ghost right = { split_off };
}

impl<P, E> Join<View<P, E>> for Shares {
    ghost both = { joined };

    ghost spent = { spent };
}
