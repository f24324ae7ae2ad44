//! Scripts are done over the parts of a store.

ghost use Rattle.std.specs.Prelude.{◌≡◌, ◌≤◌, IfOk, OnErr};
ghost use Rattle.fc_legal.specs.Whole.{Whole};
ghost use Rattle.fc_stands.specs.Store.{StandsFor};
ghost use Rattle.fc_store.specs.StoreParts.{parts_view};
ghost use Rattle.fc_tasks.specs.Acting.{AllSuit};
ghost use Rattle.fc_together.specs.Over.{HaveActedOver};

use crate::rounds::act_in_yard;
use fc_actors::part::Told;
use fc_base::limits::MAX_ENTRIES;
use fc_base::outcome::NoMemory;
use fc_entry::entry::Entry;
use fc_mdisk::mdisk::Mdisk;
use fc_store::store::Store;
use fc_store::store_part::StorePart;
use fc_tasks::actor::Answered;
use fc_tasks::gate::Gate;
use fc_tasks::script::Script;
use std::alloc::Global;
use std::sync::Wait;
use std::thread::Threads;

/// Takes a store apart, has scripts done over its parts beside each other, and puts it together again. Entries have numbers from
/// the first one on, below 262,144.
///
/// Refused for want of memory alone, before any script began: the store is as it was.
pub(crate) fn act_over_store<
    R: Threads + Wait + Sync,
    D: Mdisk + Send,
    S: Script<Told, Entry, StorePart<D>>,
    G: Gate,
>(
    rt: &R,
    alloc: Global,
    gate: &G,
    store: &mut Store<D>,
    first: u64,
    scripts: Vec<S>,
) -> Result<Vec<Answered<Entry, S>>, NoMemory>
    requires stands { (w : Whole) × StandsFor store.old w × (w.entries ≡ first) }
    requires suits { AllSuit S.needed S.suits S.goes scripts.items (parts_view store.old) MAX_ENTRIES }
    requires limit { first ≤ MAX_ENTRIES }
    ensures acted { IfOk result (λ made. HaveActedOver S.needed S.suits S.goes store.old store.new first scripts.items made.items) }
    ensures refused { OnErr result (store.new ≡ store.old) }
{
    let Some(parts) = store.lanes().checked_add(1) else {
        return Err(NoMemory);
    };
    let Ok(answers) = Vec::with_capacity(alloc, scripts.len()) else {
        return Err(NoMemory);
    };
    let Ok(mut taken) = Vec::with_capacity(alloc, parts) else {
        return Err(NoMemory);
    };
    let Ok(mut back) = Vec::with_capacity(alloc, parts) else {
        return Err(NoMemory);
    };
    let tray = store.take_parts(&mut taken);
    match act_in_yard(
        rt,
        alloc,
        gate,
        taken,
        first,
        MAX_ENTRIES as u64,
        scripts,
        answers,
        &mut back,
    ) {
        Ok(made) => {
            store.give_parts(back, tray);
            Ok(made)
        }
        Err(parts) => {
            store.give_parts(parts, tray);
            Err(NoMemory)
        }
    }
}
