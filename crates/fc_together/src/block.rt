//! A block is run.

ghost use Rattle.std.specs.Prelude.{◌≡◌, ◌≤◌, ◌∷◌, ◌++◌, [], ℕ, List, length, codes, Contains};
ghost use Rattle.fc_base.specs.declared.limits.TheConstants.{MAX_ENTRIES};
ghost use Rattle.fc_blocks.specs.Segments.{cut, together};
ghost use Rattle.fc_entry.specs.Text.{HasNames};
ghost use Rattle.fc_lanes.specs.Dealing.{disks_in};
ghost use Rattle.fc_legal.specs.Added.{Answered, IsTold, StaysUp, TellsSome};
ghost use Rattle.fc_legal.specs.Agenda.{Reading, Session, session_rules};
ghost use Rattle.fc_legal.specs.Whole.{Whole};
ghost use Rattle.fc_stands.specs.Quiet.{QuietBy};
ghost use Rattle.fc_stands.specs.Store.{StandsFor};

use crate::running::run_scripts;
use fc_base::outcome::NoMemory;
use fc_blocks::block::BlockRead;
use fc_entry::history::History;
use fc_entry::stop::Stop;
use fc_mdisk::mdisk::Mdisk;
use fc_opening::faults::tell_faults;
use fc_opening::names::add_names;
use fc_prepare::scripts::prepare;
use fc_store::store::Store;
use fc_tasks::gate::Gate;
use std::alloc::Global;
use std::sync::Wait;
use std::thread::Threads;

/// Runs a block over the store: `main` is told of its faults, the names of its actors come, and the
/// actors do what they ask beside each other. What they were answered stands at the history's end,
/// by number.
///
/// `LogFull` where one more entry than 262,144 was wanted: all that was answered is told. `NoMemory`
/// where memory was wanted: the first of what was answered is told, and the store may have done more.
pub fn run_block<R: Threads + Wait + Sync, D: Mdisk + Send, G: Gate>(
    rt: &R,
    alloc: Global,
    store: &mut Store<D>,
    block: BlockRead,
    gate: &G,
    history: &mut History,
) -> Result<(), Stop>
    requires stands { TellsSome (StandsFor store.old) history.old }
    requires room { length history.old.entries ≤ MAX_ENTRIES }
    requires main { (names : List (List ℕ)) × (history.old.actors ≡ codes "main" ∷ names) }
    requires read { (lines : List (List ℕ))
        × Contains (cut lines).segments (together block) }
    ensures answered { (read : Reading) (w : Whole) →
        IsTold (StandsFor store.old) history.old w →
        Answered result (StandsFor store.new) (session_rules store.old.control.grain read)
        (Session (together block ∷ [])) w history.old history.new }
    ensures grain { store.new.control.grain ≡ store.old.control.grain }
    ensures disks { disks_in store.new.lanes ≡ disks_in store.old.lanes }
    ensures quiet { QuietBy history.old.entries store.old →
        StaysUp result (QuietBy history.new.entries store.new) }
    ensures named { HasNames history.old → HasNames history.new }
    ensures names { (names : List (List ℕ)) × (history.new.actors ≡ history.old.actors ++ names) }
    ensures limit { length history.new.entries ≤ MAX_ENTRIES }
{
    match tell_faults(store, block.faults.as_slice(), history) {
        Ok(()) => {}
        Err(stop) => return Err(stop),
    }
    match add_names(alloc, block.actors.as_slice(), history) {
        Ok(()) => {}
        Err(NoMemory) => return Err(Stop::NoMemory),
    }
    match prepare(alloc, store, block.actors.as_slice(), history) {
        Ok(scripts) => run_scripts(rt, alloc, gate, store, scripts, history),
        Err(NoMemory) => Err(Stop::NoMemory),
    }
}
