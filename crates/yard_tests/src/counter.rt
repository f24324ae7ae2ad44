//! The parts of the tests' yards.

ghost use Rattle.std.specs.Prelude.{◌≡◌};
ghost use Rattle.yard_tests.specs.Counting.{after};

use fc_yard::part::Part;
use std::collections::LinkedList;

/// What the counters together stand for. No value of it is made.
pub struct Counts {
    /// Each counter.
    pub counters: LinkedList<u64>,
    /// How many entries have told of them.
    pub told: u64,
}

/// A part: how often it was counted.
#[derive(Drop)]
pub struct Counter {
    pub count: u64,
}

/// An entry.
#[derive(Clone, Copy)]
pub enum Tally {
    /// The counter of this part went up by one.
    One(u64),
    /// Every counter did.
    All,
}

impl Counter {
    /// The counter, counted once more. It begins again after its greatest number.
    pub fn one_more(&self) -> Counter
        ensures { result.count ≡ after self.now.count }
    {
        Counter {
            count: self.count.wrapping_add(1),
        }
    }
}

impl Part<Counts, Tally> for Counter {
    ghost use Rattle.yard_tests.specs.Counting.{HasShare, Counted};

    ghost fits = { λ _ w p x. HasShare w p x };

    ghost sound = { λ _ _. Unit {0} };

    ghost count = { λ w. w.told };

    ghost steps = { λ w _ e next. Counted w e next };
}
