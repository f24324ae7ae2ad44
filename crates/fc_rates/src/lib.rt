//! Rates of background work: how many KiB a second a copy rate or a clean rate means, and the credit that a
//! mapping saves up from second to second until it is worth a grain.
//!
//! `kib_per_second` is the table of rates, row for row, and 0 past its last row; the table stands in `fc_base/specs/Rates.antt`.
//! A `Credits` is a number of KiB: a second adds to it and never wraps, a grain is spent exactly where the credit
//! reaches it, and clearing makes it 0. Nothing here takes memory.
//!
//! In reading order: this file alone.
#![tactic(auto)]

ghost use Rattle.std.specs.Prelude.{◌≡◌, ◌+◌, ◌-◌, ◌^◌, ◌≤◌, ◌↔◌, min, IsTrue, if◌then◌else◌};
ghost use Rattle.fc_base.specs.Rates.{kib_of_rate};

use std::marker::Model;

/// The last rate of the table.
const LAST_RATE: u8 = 150;

/// The KiB per second that a copy rate or clean rate means: none at 0, 128 for rates 1 to 10, and twice as much for each
/// further ten; none past 150, the last rate.
pub fn kib_per_second(rate: u8) -> u32
    ensures { result ≡ kib_of_rate rate }
{
    if rate == 0 || LAST_RATE < rate {
        return 0;
    }
    let doublings = (rate - 1) / 10;
    128 << doublings
}

/// The credit of a mapping's background work, in KiB.
#[derive(Clone, Copy, PartialEq, Eq)]
pub struct Credits {
    kib: u64,
}

impl Model for Credits {
    ghost use Rattle.std.specs.Prelude.{ℕ};

    ghost Value = { ℕ };

    ghost view = { λ c. c.kib };

    ghost inverse = { λ n. record { kib = n } };
}

impl Credits {
    /// No credit.
    pub fn new() -> Self
        ensures { result ≡ 0 }
    {
        Credits { kib: 0 }
    }

    /// Adds what a second of work is worth. The credit stops at 2^64 - 1 KiB.
    pub fn second(&mut self, kib: u32)
        ensures { self.new ≡ min (self.old + kib) (2 ^ 64 - 1) }
    {
        self.kib = self.kib.saturating_add(u64::from(kib));
    }

    /// Takes the KiB of a grain off the credit. False exactly where there is less, and then the credit stays.
    pub fn spend(&mut self, kib: u32) -> bool
        ensures enough { IsTrue result ↔ (kib ≤ self.old) }
        ensures left { self.new ≡ (if result then self.old - kib else self.old) }
    {
        match self.kib.checked_sub(u64::from(kib)) {
            Some(left) => {
                self.kib = left;
                true
            }
            None => false,
        }
    }

    /// Makes the credit 0.
    pub fn clear(&mut self)
        ensures { self.new ≡ 0 }
    {
        self.kib = 0;
    }
}
