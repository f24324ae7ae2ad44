//! Blocks of actors, as they were read.

use fc_base::block::ScriptLines;
use fc_base::command::{Role, ScriptLine};
use fc_base::fault::WordFault;
use fc_base::list::List;
use fc_base::name::Name;

/// An actor of a block, as it was read.
#[derive(Drop)]
pub struct ActorRead {
    /// Its name, which no other actor of the block has, nor `main`.
    pub name: Name,
    /// What it does.
    pub role: Role,
    /// Its lines, in order; a copier or cleaner has none.
    pub lines: ScriptLines,
}

/// A block, as it was read.
#[derive(Drop)]
pub struct BlockRead {
    /// The faults of lines that are no actor's, in order. `main` is told of them before the actors begin.
    pub faults: List<WordFault>,
    /// The actors, in the order of their `actor` lines.
    pub actors: List<ActorRead>,
}

/// What a line of a session was.
#[derive(Drop)]
pub enum Taken {
    /// A line outside of blocks, or its fault.
    Single(ScriptLine),
    /// A line that opened a block, or belongs to the one that is open.
    Nothing,
    /// The end of this block.
    Block(BlockRead),
}
