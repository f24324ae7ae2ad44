//! The scripts of a block's actors.

ghost use Rattle.std.specs.Prelude.{◌≡◌, ℕ, ◌<◌, ◌^◌, true, List, All, Contains, length, IfOk};
ghost use Rattle.fc_entry.specs.HistoryState.{number_of_actor};
ghost use Rattle.fc_actors.specs.Scripts.{Suits};
ghost use Rattle.fc_blocks.specs.Blocks.{has_lines};
ghost use Rattle.fc_blocks.specs.Segments.{cut, together};
ghost use Rattle.fc_blocks.specs.declared.block.BlockRead.{BlockRead};
ghost use Rattle.fc_legal.specs.Scripts.{scripts_of as scripts_asked};
ghost use Rattle.fc_legal.specs.Whole.{Whole, lanes};
ghost use Rattle.fc_stands.specs.Store.{StandsFor};
ghost use Rattle.fc_store.specs.StoreParts.{parts_view};
ghost use Rattle.fc_prepare.specs.Items.{IsOfActor};
ghost use Rattle.fc_prepare.specs.Scripts.{AreScriptsOf, AskTheirs, IsScriptOf, IsWorkOf};

use crate::items::items_of;
use fc_actors::script::{ActorScript, Left};
use fc_base::command::Role;
use fc_base::name::Name;
use fc_base::outcome::NoMemory;
use fc_blocks::block::ActorRead;
use fc_entry::history::History;
use fc_mdisk::mdisk::Mdisk;
use fc_store::store::Store;
use std::alloc::Global;

/// More names, or more lanes, than this no memory has room for.
const MOST: usize = 1 << 31;

/// The number of the actor with this name: the one that it has in the history, or the next.
fn number_of(history: &History, name: &Name) -> u32
    requires { length history.now.actors < 2 ^ 32 }
    ensures { result ≡ number_of_actor history.now.actors name.now }
{
    let count = history.actors() as u32;
    let mut number = 0;
    while number < count {
        if history.actor_name(number).as_bytes() == name.as_bytes() {
            return number;
        }
        number += 1;
    }
    count
}

/// What an actor has to do who has lines: what they ask.
fn lines_work<D: Mdisk>(
    alloc: Global,
    store: &Store<D>,
    actor: &ActorRead,
) -> Result<Left, NoMemory>
    requires lines { has_lines actor.now.role ≡ true }
    requires of { All IsOfActor actor.now.lines }
    ensures { IfOk result (λ work. (lanes : ℕ) → IsWorkOf store.now.control lanes actor.now work) }
{
    match items_of(alloc, store, actor.lines.as_slice()) {
        Ok(items) => Ok(Left::Lines(items)),
        Err(NoMemory) => Err(NoMemory),
    }
}

/// What an actor has to do: what its lines ask, or its turns.
fn work_of<D: Mdisk>(alloc: Global, store: &Store<D>, actor: &ActorRead) -> Result<Left, NoMemory>
    requires { All IsOfActor actor.now.lines }
    ensures { IfOk result (λ work. (lanes : ℕ) → IsWorkOf store.now.control lanes actor.now work) }
{
    match actor.role {
        Role::Host | Role::Admin => lines_work(alloc, store, actor),
        Role::Copier(turns) => Ok(Left::Turns {
            cleans: false,
            next: 0,
            turns,
        }),
        Role::Cleaner(turns) => Ok(Left::Turns {
            cleans: true,
            next: 0,
            turns,
        }),
    }
}

/// The script of an actor, whose name stands in the history.
fn script_of<D: Mdisk>(
    alloc: Global,
    store: &Store<D>,
    history: &History,
    actor: &ActorRead,
) -> Result<ActorScript<D>, NoMemory>
    requires names { length history.now.actors < 2 ^ 32 }
    requires lanes { length store.now.lanes < 2 ^ 32 }
    requires of { All IsOfActor actor.now.lines }
    ensures { IfOk result (λ script. IsScriptOf store.now history.now.actors actor.now script) }
{
    let lanes = store.lanes();
    let work = match work_of(alloc, store, actor) {
        Ok(work) => work,
        Err(NoMemory) => return Err(NoMemory),
    };
    let tray = match Vec::with_capacity(alloc, lanes) {
        Ok(tray) => tray,
        Err(_) => return Err(NoMemory),
    };
    let number = number_of(history, &actor.name);
    Ok(ActorScript::new(alloc, number, store.grain(), lanes as u32, work, tray))
}

/// The scripts of some actors, in order.
fn scripts_of<D: Mdisk>(
    alloc: Global,
    store: &Store<D>,
    actors: &[ActorRead],
    history: &History,
) -> Result<Vec<ActorScript<D>>, NoMemory>
    requires { All (λ actor. All IsOfActor actor.lines) actors.now }
    ensures { IfOk result (λ scripts. AreScriptsOf store.now history.now.actors actors.now scripts.items) }
{
    if history.actors() > MOST || store.lanes() > MOST {
        return Err(NoMemory);
    }
    let mut scripts = Vec::new(alloc);
    for actor in actors {
        let script = match script_of(alloc, store, history, actor) {
            Ok(script) => script,
            Err(NoMemory) => return Err(NoMemory),
        };
        match scripts.push(script) {
            Ok(()) => {}
            Err(_) => return Err(NoMemory),
        }
    }
    Ok(scripts)
}

/// The scripts of a block's actors, in order, by the volumes that the store has now. Each actor has the number of its name in the
/// history. Refused for want of memory alone.
pub fn prepare<D: Mdisk>(
    alloc: Global,
    store: &Store<D>,
    actors: &[ActorRead],
    history: &History,
) -> Result<Vec<ActorScript<D>>, NoMemory>
    requires of_block { (lines : List (List ℕ)) × (block : BlockRead) × Contains (cut lines).segments (together block) × (block.actors ≡ actors.now) }
    requires stands { (w : Whole) × StandsFor store.now w }
    ensures asked { IfOk result (λ scripts. (w : Whole) → StandsFor store.now w →
        AskTheirs scripts.items (scripts_asked store.now.control.grain (lanes w) w.books history.now.actors actors.now)) }
    ensures suit { IfOk result (λ scripts. All (λ script. Suits script (parts_view store.now) 262144) scripts.items) }
{
    match scripts_of(alloc, store, actors, history) {
        Ok(scripts) => Ok(scripts),
        Err(NoMemory) => Err(NoMemory),
    }
}
