//! One step of a write or a fill.

ghost use Rattle.std.specs.Prelude.{◌≡◌, ◌↔◌, IsTrue};

use fc_base::ids::VolId;
use fc_base::request::{Move, Side, Torn};
use std::marker::Model;

/// A step writes one grain of one volume: a move, or last the write that was asked for.
#[derive(Drop)]
pub struct Step {
    volume: VolId,
    moved: Option<Move>,
    calls: u32,
    side: Side,
}

impl Model for Step {
    ghost use Rattle.fc_rules.specs.Steps.{DiskStep};

    ghost Value = { DiskStep };

    ghost view = { λ s. record { volume = s.volume.0; move = s.moved; calls = s.calls; side = s.side } };
}

impl Step {
    /// A step that writes this volume: a move, if it is one; so many calls of disks, the last of which is the write; and what is
    /// lost should that fail.
    pub fn new(volume: VolId, moved: Option<Move>, calls: u32, side: Side) -> Step
        ensures { result ≡ record { volume = volume.0; move = moved; calls = calls; side = side } }
    {
        Step {
            volume,
            moved,
            calls,
            side,
        }
    }

    /// The volume that is written.
    pub fn volume(&self) -> VolId
        ensures { result.0 ≡ self.now.volume }
    {
        self.volume
    }

    /// The move, if it is one.
    pub fn moved(&self) -> Option<Move>
        ensures { result ≡ self.now.move }
    {
        self.moved
    }

    /// How many calls of disks it makes.
    pub fn calls(&self) -> u32
        ensures { result ≡ self.now.calls }
    {
        self.calls
    }

    /// What is lost should its write fail.
    pub fn side(&self) -> Side
        ensures { result ≡ self.now.side }
    {
        self.side
    }
}

/// Whether moves are these, one by one: slot, volume, grain and mark.
pub(crate) fn same_moves(moves: &[Move], others: &[Move]) -> bool
    ensures { IsTrue result ↔ (moves.now ≡ others.now) }
{
    moves == others
}

/// Whether the torn grain is this one.
pub(crate) fn same_torn(torn: Option<Torn>, other: Option<Torn>) -> bool
    ensures { IsTrue result ↔ (torn ≡ other) }
{
    torn == other
}
