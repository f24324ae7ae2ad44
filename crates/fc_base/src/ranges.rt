//! Ranges of grains.

ghost use Rattle.std.specs.Prelude.{◌≡◌, [], ◌∷◌, ◌++◌, OnOk, OnErr};
ghost use Rattle.fc_base.specs.Ranges.{IsRising, StandsBehind};

use crate::outcome::NoMemory;
use std::alloc::Global;
use std::marker::Model;

/// The grains from `first` to `last`, both of them in it.
#[derive(Clone, Copy, Debug, PartialEq, Eq)]
pub struct Range {
    /// The first grain.
    pub first: u32,
    /// The last grain, no less than the first.
    pub last: u32,
}

/// Ranges of grains, rising and never touching.
#[derive(Drop)]
pub struct Ranges {
    ranges: Vec<Range>,
}

impl Model for Ranges {
    ghost use Rattle.std.specs.Prelude.{List};
    ghost use Rattle.fc_base.specs.declared.ranges.Range.{Range};

    ghost Value = { List Range };

    ghost use Rattle.fc_base.specs.Ranges.{IsRising};

    ghost view = { λ r. r.ranges.items };

    ghost invariant = { λ r. IsRising r.ranges.items };
}

impl Ranges {
    /// No grain. Takes no memory.
    pub fn new(alloc: Global) -> Self
        ensures { result ≡ [] }
    {
        Ranges {
            ranges: Vec::new(alloc),
        }
    }

    /// The ranges, rising and never touching.
    pub fn as_slice(&self) -> &[Range]
        ensures value { result.now ≡ self.now }
        ensures rising { IsRising self.now }
    {
        self.ranges.as_slice()
    }

    /// Puts a range behind all others, which it must not touch. Refused, the list is as it was.
    pub fn push(&mut self, range: Range) -> Result<(), NoMemory>
        requires { StandsBehind self.old range }
        ensures ok { OnOk result (self.new ≡ self.old ++ range ∷ []) }
        ensures err { OnErr result (self.new ≡ self.old) }
    {
        match self.ranges.push(range) {
            Ok(()) => Ok(()),
            Err(_) => Err(NoMemory),
        }
    }
}
