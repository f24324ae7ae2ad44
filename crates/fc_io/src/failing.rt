//! Which of the coming calls fail, as a fake is told.

ghost use Rattle.std.specs.Prelude.{◌≡◌};
ghost use Rattle.fc_io.specs.Calls.{fails_now, one_call_on};

use std::marker::Model;

/// The numbers of the coming calls that fail, the next call being 1. Contracts see that list.
#[derive(Drop)]
pub(crate) struct FailingCalls {
    numbers: Vec<u64>,
}

impl Model for FailingCalls {
    ghost use Rattle.std.specs.Prelude.{List, ℕ};

    ghost Value = { List ℕ };

    ghost view = { λ f. f.numbers.items };
}

impl FailingCalls {
    pub fn new(numbers: Vec<u64>) -> Self
        ensures { result ≡ numbers.items }
    {
        FailingCalls { numbers }
    }

    /// Passes one call and answers whether it fails.
    pub fn next(&mut self) -> bool
        ensures fails { result ≡ fails_now self.old }
        ensures passed { self.new ≡ one_call_on self.old }
    {
        let fails = self.numbers.contains(&1);
        for number in self.numbers.iter_mut() {
            *number = number.saturating_sub(1);
        }
        fails
    }
}
