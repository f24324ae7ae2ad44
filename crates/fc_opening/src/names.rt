//! The names of a block's actors.

ghost use Rattle.std.specs.Prelude.{◌≡◌, ℕ, List, ◌++◌, OnOk, OnErr};
ghost use Rattle.fc_legal.specs.Scripts.{names_with};

use fc_base::outcome::NoMemory;
use fc_blocks::block::ActorRead;
use fc_entry::history::History;
use std::alloc::Global;

/// More names than this no memory has room for.
const MOST_NAMES: usize = 1 << 31;

/// Gives actors their names, one after the other, up to the first for which memory is wanted.
fn add_each(alloc: Global, actors: &[ActorRead], history: &mut History) -> Result<(), NoMemory>
    ensures ok { OnOk result (history.new ≡ record history.old { actors = names_with history.old.actors actors.now }) }
    ensures err { OnErr result ((more : List (List ℕ)) × (history.new ≡ record history.old { actors = history.old.actors ++ more })) }
{
    for actor in actors {
        if history.actors() > MOST_NAMES {
            return Err(NoMemory);
        }
        match history.actor(alloc, &actor.name) {
            Ok(_) => {}
            Err(NoMemory) => return Err(NoMemory),
        }
    }
    Ok(())
}

/// Gives the actors of a block their names among those of the history: all of them or, for want of memory, none.
pub fn add_names(alloc: Global, actors: &[ActorRead], history: &mut History) -> Result<(), NoMemory>
    ensures ok { OnOk result (history.new ≡ record history.old { actors = names_with history.old.actors actors.now }) }
    ensures err { OnErr result (history.new ≡ history.old) }
{
    let before = history.actors();
    match add_each(alloc, actors, history) {
        Ok(()) => Ok(()),
        Err(NoMemory) => {
            history.keep_actors(before);
            Err(NoMemory)
        }
    }
}
