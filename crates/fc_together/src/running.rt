//! The scripts of a block's actors, run over a store.

ghost use Rattle.std.specs.Prelude.{◌≡◌, ◌≤◌, List, All, length};
ghost use Rattle.fc_actors.specs.Scripts.{Suits};
ghost use Rattle.fc_base.specs.declared.limits.TheConstants.{MAX_ENTRIES};
ghost use Rattle.fc_lanes.specs.Dealing.{disks_in};
ghost use Rattle.fc_legal.specs.Added.{IsTold, StaysUp, TellsSome};
ghost use Rattle.fc_legal.specs.Scripts.{Script};
ghost use Rattle.fc_legal.specs.Whole.{Whole};
ghost use Rattle.fc_scripts.specs.Ways.{AreOfDifferent};
ghost use Rattle.fc_stands.specs.Quiet.{QuietBy};
ghost use Rattle.fc_stands.specs.Store.{StandsFor};
ghost use Rattle.fc_store.specs.StoreParts.{parts_view};
ghost use Rattle.law_running.specs.Running.{ScriptsRan};
ghost use Rattle.fc_together.specs.Prepared.{AreScripts};

use crate::answers::tell_answers;
use crate::over::act_over_store;
use fc_actors::script::ActorScript;
use fc_base::outcome::NoMemory;
use fc_entry::history::History;
use fc_entry::stop::Stop;
use fc_mdisk::mdisk::Mdisk;
use fc_store::store::Store;
use fc_tasks::gate::Gate;
use std::alloc::Global;
use std::sync::Wait;
use std::thread::Threads;

/// Has the scripts of a block's actors done over the store beside each other, and puts what they
/// were answered at the history's end, by number.
///
/// `LogFull` where an actor wanted one more entry than 262,144: all that was answered is told.
/// `NoMemory` where memory was wanted, before the actors began, by one of them, or for the history:
/// the first of what was answered is told, and the store may have done more.
pub(crate) fn run_scripts<R: Threads + Wait + Sync, D: Mdisk + Send, G: Gate>(
    rt: &R,
    alloc: Global,
    gate: &G,
    store: &mut Store<D>,
    scripts: Vec<ActorScript<D>>,
    history: &mut History,
) -> Result<(), Stop>
    requires suits { All (λ script. Suits script (parts_view store.old) 262144) scripts.items }
    requires stands { TellsSome (StandsFor store.old) history.old }
    requires room { length history.old.entries ≤ MAX_ENTRIES }
    requires asked { (asked : List Script)
        × AreScripts scripts.items asked × AreOfDifferent asked }
    ensures ran { (w : Whole) (asked : List Script) →
        IsTold (StandsFor store.old) history.old w →
        AreScripts scripts.items asked → AreOfDifferent asked →
        ScriptsRan result (StandsFor store.new) store.old.control.grain w asked
        history.old history.new }
    ensures grain { store.new.control.grain ≡ store.old.control.grain }
    ensures disks { disks_in store.new.lanes ≡ disks_in store.old.lanes }
    ensures quiet { QuietBy history.old.entries store.old →
        StaysUp result (QuietBy history.new.entries store.new) }
    ensures names { history.new.actors ≡ history.old.actors }
    ensures limit { length history.new.entries ≤ MAX_ENTRIES }
{
    match act_over_store(rt, alloc, gate, store, history.len() as u64, scripts) {
        Ok(answers) => tell_answers(alloc, answers, history),
        Err(NoMemory) => Err(Stop::NoMemory),
    }
}
