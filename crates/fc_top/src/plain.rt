//! A session over disks: read from a source, answered by the store, and written to a sink.

ghost use Rattle.std.specs.Prelude.{◌≡◌, ◌≢◌, ◌≤◌, ◌<◌, ◌^◌, [], ◌∷◌, List, None, map, length, codes, vec_len, vec_capacity, OnOk, OnErr};
ghost use Rattle.std.specs.List.{All};
ghost use Rattle.fc_call.specs.Call.{empty};
ghost use Rattle.fc_grains.specs.Grains.{pool_of, silent_of, total_of};
ghost use Rattle.fc_io.specs.Source.{SourceState};
ghost use Rattle.fc_lanes.specs.Dealing.{disks_in};
ghost use Rattle.fc_mdisk.specs.Disk.{DiskState, IsFresh};
ghost use Rattle.fc_run.specs.Takes.{EachGave};
ghost use Rattle.fc_stands.specs.Quiet.{AreQuiet};
ghost use Rattle.fc_stands.specs.Store.{StandsFor};
ghost use Rattle.fc_owner.specs.FirstTold.{first_told};
ghost use Rattle.fc_top.specs.PlainEnds.{PlainEnds};
ghost use Rattle.fc_owner.specs.StoreRuns.{CanRun, IsBlockRun};

use crate::gate::Gate;
use crate::status::Status;
use fc_base::name::Name;
use fc_base::outcome::NoMemory;
use fc_base::size::GrainSize;
use fc_blocks::block::BlockRead;
use fc_blocks::reader::BlockReader;
use fc_entry::history::History;
use fc_entry::stop::Stop;
use fc_io::sink::Sink;
use fc_io::source::Source;
use fc_mdisk::mdisk::Mdisk;
use fc_owner::owner::Owner;
use fc_owner::session::run_owner;
use fc_run::form::Form;
use fc_store::store::Store;
use fc_together::block::run_block;
use std::alloc::Global;
use std::mem;
use std::sync::Wait;
use std::thread::Threads;

/// Gives `main` its name: actor 0.
fn add_main(alloc: Global, history: &mut History) -> Result<(), NoMemory>
    requires { history.old ≡ empty }
    ensures ok { OnOk result (history.new ≡ record { actors = codes "main" ∷ []; entries = [] }) }
    ensures err { OnErr result (history.new ≡ history.old) }
{
    match Name::new(alloc, b"main") {
        Ok(Some(name)) => match history.actor(alloc, &name) {
            Ok(_) => Ok(()),
            Err(refused) => Err(refused),
        },
        Ok(None) => unreachable!(),
        Err(refused) => Err(refused),
    }
}

/// Runs a session over a store, and gives its disks into room that was taken for them.
fn run_store<R: Threads + Wait + Sync, S: Source, K: Sink, D: Mdisk + Send, G: Gate>(
    rt: &R,
    alloc: Global,
    form: Form,
    store: Store<D>,
    source: &mut S,
    sink: &mut K,
    disks: &mut Vec<D>,
    gate: &G,
    history: &mut History,
) -> Status
    requires stands { (old : List DiskState) × StandsFor store (first_told old)
        × (disks_in store.lanes ≡ pool_of old) × (silent_of old ≡ 0 → AreQuiet store.lanes) }
    requires main { history.old ≡ record { actors = codes "main" ∷ []; entries = [] } }
    requires none { disks.old.items ≡ [] }
    requires room { total_of (disks_in store.lanes) ≤ vec_capacity disks.old }
    ensures ends { (old : List DiskState) (outer outer' : SourceState) → StandsFor store (first_told old)
        → disks_in store.lanes ≡ pool_of old → (silent_of old ≡ 0 → AreQuiet store.lanes)
        → PlainEnds form store.control.grain (S.meaning source.old) (S.meaning source.new)
        (record {
          status = result;
          source = outer;
          source' = outer';
          sink = K.meaning sink.old;
          sink' = K.meaning sink.new;
          disks = old;
          disks' = map D.meaning disks.new.items;
          history = history.new;
        }) }
    ensures takes { EachGave (S.meaning source.old) (S.meaning source.new) }
    ensures limit { length history.new.entries ≤ 262144 }
    ensures ran { result ≢ Status.Usage }
{
    let run = |store: &mut Store<D>, block: BlockRead, history: &mut History| -> Result<(), Stop>
        requires { CanRun store.old history.old block }
        ensures { IsBlockRun result store.old store.new block history.old history.new }
    { run_block(rt, alloc, store, block, gate, history) };
    let mut owner = Owner {
        alloc,
        reader: BlockReader::new(),
        store,
        run,
    };
    let ended = run_owner(form, source, sink, &mut owner, history);
    let Owner { store, .. } = owner;
    store.give_disks(disks);
    Status::of(ended)
}

/// Runs a session over disks with grains of this size, and writes its history in this form.
pub(crate) fn run_plain<R: Threads + Wait + Sync, S: Source, K: Sink, D: Mdisk + Send, G: Gate>(
    rt: &R,
    alloc: Global,
    form: Form,
    grain: GrainSize,
    source: &mut S,
    sink: &mut K,
    disks: &mut Vec<D>,
    gate: &G,
    history: &mut History,
) -> Status
    requires empty { history.old ≡ empty }
    requires few { vec_len disks.old < 2 ^ 30 }
    requires fresh { All IsFresh (map D.meaning disks.old.items) }
    ensures ends { (outer outer' : SourceState) → PlainEnds form grain (S.meaning source.old) (S.meaning source.new)
        (record {
          status = result;
          source = outer;
          source' = outer';
          sink = K.meaning sink.old;
          sink' = K.meaning sink.new;
          disks = map D.meaning disks.old.items;
          disks' = map D.meaning disks.new.items;
          history = history.new;
        }) }
    ensures takes { EachGave (S.meaning source.old) (S.meaning source.new) }
    ensures limit { length history.new.entries ≤ 262144 }
    ensures ran { result ≢ Status.Usage }
{
    match add_main(alloc, history) {
        Ok(()) => {}
        Err(NoMemory) => return Status::NoMemory,
    }
    let room = match Vec::with_capacity(alloc, disks.len()) {
        Ok(room) => room,
        Err(_) => return Status::NoMemory,
    };
    let taken = mem::replace(disks, room);
    match Store::new(alloc, grain, taken) {
        Ok(store) => run_store(rt, alloc, form, store, source, sink, disks, gate, history),
        Err(NoMemory) => Status::NoMemory,
    }
}
