//! Passes.

use crate::rule::{Stall, View};
use atomic_table::Seat;
use std::marker::Model;

/// What an actor works in the yard with: the parts that it holds, the tickets that it was given, and the numbers that it
/// drew. It has no bytes.
///
/// A contract sees of it which yard it is of, and its view (`View`).
#[derive(Drop)]
pub struct Pass<P, E> {
    pub(crate) seat: Seat<Stall<P, E>, View<P, E>>,
}

impl<P, E> Model for Pass<P, E> {
    ghost use Rattle.fc_yard.specs.Calls.{PassView, AtRest};

    ghost Value = { PassView P E };

    ghost view = { λ p. record { yard = p.seat.table_id; view = p.seat.me.0 } };

    ghost invariant = { λ p. AtRest p.seat };
}
