//! Blocks of actors that run at once.

use crate::command::{Role, ScriptLine};
use crate::list::List;
use crate::name::Name;

/// The lines of an actor, in order.
pub type ScriptLines = List<ScriptLine>;

/// An actor of a block, with its lines.
#[derive(Drop)]
pub struct BlockActor {
    /// Its number among the actors' names of the history.
    pub actor: u32,
    /// Its name.
    pub name: Name,
    /// What it does.
    pub role: Role,
    /// Its lines; a copier or cleaner has none.
    pub lines: ScriptLines,
}

/// A block: its actors, in the order in which their lines stand.
pub type Block = List<BlockActor>;
