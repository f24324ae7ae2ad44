//! A session of the owner of a store.

ghost use Rattle.std.specs.Prelude.{◌≡◌, ◌≤◌, [], ◌∷◌, List, None, length, codes};
ghost use Rattle.fc_grains.specs.Grains.{pool_of, silent_of};
ghost use Rattle.fc_lanes.specs.Dealing.{disks_in};
ghost use Rattle.fc_mdisk.specs.Disk.{DiskState};
ghost use Rattle.fc_owner.specs.FirstTold.{first_told};
ghost use Rattle.fc_owner.specs.StoreRuns.{RunsBlocks, SessionOver};
ghost use Rattle.fc_run.specs.Takes.{EachGave};
ghost use Rattle.fc_stands.specs.Quiet.{AreQuiet};
ghost use Rattle.fc_stands.specs.Store.{StandsFor};

use crate::owner::{Owner, SingleLines};
use fc_blocks::block::BlockRead;
use fc_entry::history::History;
use fc_entry::stop::Stop;
use fc_io::sink::Sink;
use fc_io::source::Source;
use fc_run::ended::Ended;
use fc_run::form::Form;
use fc_run::session::run_session;

/// Runs a session over the store of its owner, who has read no line yet and whose history has `main` alone: its lines are answered
/// by him and written in this form, and how it ended is answered. Of the store as he leaves it and of what was told it is known what
/// `SessionOver` says (specs/StoreRuns).
pub fn run_owner<
    S: Source,
    K: Sink,
    L: SingleLines,
    F: Fn(&mut L, BlockRead, &mut History) -> Result<(), Stop>,
>(form: Form, source: &mut S, sink: &mut K, owner: &mut Owner<L, F>, history: &mut History) -> Ended
    requires able { RunsBlocks L.view (F.pre owner.old.run) (F.post owner.old.run) }
    requires reader { owner.old.reader ≡ None }
    requires stands { (old : List DiskState) × StandsFor (L.view owner.old.store) (first_told old)
        × (disks_in (L.view owner.old.store).lanes ≡ pool_of old)
        × (silent_of old ≡ 0 → AreQuiet (L.view owner.old.store).lanes) }
    requires main { history.old ≡ record { actors = codes "main" ∷ []; entries = [] } }
    ensures over { (old : List DiskState) → StandsFor (L.view owner.old.store) (first_told old)
        → disks_in (L.view owner.old.store).lanes ≡ pool_of old
        → (silent_of old ≡ 0 → AreQuiet (L.view owner.old.store).lanes)
        → SessionOver (record { grain = (L.view owner.old.store).control.grain; disks = old })
        (L.view owner.new.store)
        (record {
          ended = result;
          form = form;
          source = S.meaning source.old;
          source' = S.meaning source.new;
          sink = K.meaning sink.old;
          sink' = K.meaning sink.new;
          history = history.new;
        }) }
    ensures takes { EachGave (S.meaning source.old) (S.meaning source.new) }
    ensures limit { length history.new.entries ≤ 262144 }
{
    run_session(owner.alloc, form, source, sink, owner, history)
}
