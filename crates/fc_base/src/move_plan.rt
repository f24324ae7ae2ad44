//! A list of moves with a fixed room.

ghost use Rattle.std.specs.Prelude.{◌≡◌, ◌<◌, [], ◌∷◌, ◌++◌, length, IfOk};

use crate::list::List;
use crate::outcome::NoMemory;
use crate::request::Move;
use std::alloc::Global;
use std::marker::Model;

/// The moves that a fill or a write owes, with room for so many. Filling it takes no memory.
#[derive(Drop)]
pub struct MovePlan {
    moves: Vec<Move>,
    room: usize,
}

impl Model for MovePlan {
    ghost use Rattle.std.specs.Prelude.{◌≤◌, length, vec_capacity};
    ghost use Rattle.fc_base.specs.MovePlan.{PlannedMoves};

    ghost Value = { PlannedMoves };

    ghost view = { λ p. record { moves = p.moves.items; room = p.room } };

    ghost invariant = { λ p. (p.room ≤ vec_capacity p.moves) × (length p.moves.items ≤ p.room) };
}

impl MovePlan {
    /// No moves, with room for so many. The only call that takes memory.
    pub fn new(alloc: Global, room: usize) -> Result<MovePlan, NoMemory>
        ensures { IfOk result (λ p. p ≡ record { moves = []; room = room }) }
    {
        match Vec::with_capacity(alloc, room) {
            Ok(moves) => Ok(MovePlan { moves, room }),
            Err(_) => Err(NoMemory),
        }
    }

    /// The moves, in order.
    pub fn as_slice(&self) -> &[Move]
        ensures { result.now ≡ self.now.moves }
    {
        self.moves.as_slice()
    }

    /// Puts a move at the end; there has to be room for one more.
    pub fn push(&mut self, item: Move)
        requires { length self.old.moves < self.old.room }
        ensures { self.new ≡ record self.old { moves = self.old.moves ++ item ∷ [] } }
    {
        match self.moves.push(item) {
            Ok(()) => {}
            Err(_) => unreachable!(),
        }
    }

    /// Takes all moves out; the room stays.
    pub fn clear(&mut self)
        ensures { self.new ≡ record self.old { moves = [] } }
    {
        self.moves.clear();
    }

    /// The moves as a list. Takes no memory.
    pub fn into_moves(self) -> List<Move>
        ensures { result ≡ self.moves }
    {
        List::of(self.moves)
    }
}
