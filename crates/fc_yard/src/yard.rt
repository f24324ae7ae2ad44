//! The yard, and what a contract sees of it.

ghost use Rattle.std.specs.Prelude.{◌≡◌};

use crate::part::Part;
use crate::rule::{Stall, Terms, Turns, View};
use atomic_table::{Shared, Table};
use std::alloc::Global;
use std::marker::Model;

/// The table with its memory.
pub(crate) type Hall<W, E, P> = Table<Stall<P, E>, View<P, E>, Terms<P>, Turns<W>, Global>;

/// The table as the calls below use it.
pub(crate) type Shelf<W, E, P> = Shared<Stall<P, E>, View<P, E>, Terms<P>, Turns<W>>;

/// Parts that actors take and put back, and numbers that they draw. Threads share it by reference.
///
/// A contract sees of it which yard it is, how many parts it has, and the number that none of its numbers reaches. Let go
/// without `close`, it lets its parts go.
#[derive(Drop)]
pub struct Yard<W, E, P: Part<W, E>> {
    pub(crate) table: Hall<W, E, P>,
    pub(crate) parts: usize,
    pub(crate) limit: u64,
}

impl<W, E, P: Part<W, E>> Yard<W, E, P> {
    /// How many parts it has.
    pub fn parts(&self) -> usize
        ensures { result ≡ self.now.parts }
    {
        self.parts
    }
}

impl<W, E, P: Part<W, E>> Model for Yard<W, E, P> {
    ghost use Rattle.std.specs.Prelude.{◌≡◌, ◌<◌, ◌^◌};
    ghost use Rattle.fc_yard.specs.Calls.{YardView, IsSized};

    ghost Value = { YardView };

    ghost view = { λ y. record { id = y.table.shared.table_id; parts = y.parts; limit = y.limit } };

    ghost invariant = { λ y. IsSized y.table.shared.table_id y.parts × (y.limit ≡ y.table.shared.key.limit) × (y.limit < 2 ^ 64) };
}
