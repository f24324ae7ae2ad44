//! The faults of a block, told to `main`.

ghost use Rattle.std.specs.Prelude.{◌≡◌, ◌≤◌, length};
ghost use Rattle.fc_legal.specs.Added.{IsTold, StaysUp, TellsSome};
ghost use Rattle.fc_legal.specs.Whole.{Whole};
ghost use Rattle.fc_stands.specs.Quiet.{QuietBy};
ghost use Rattle.fc_stands.specs.Store.{StandsFor};
ghost use Rattle.fc_opening.specs.Telling.{FaultsTold};

use fc_base::fault::WordFault;
use fc_base::limits::MAX_ENTRIES;
use fc_entry::history::History;
use fc_entry::stop::Stop;
use fc_mdisk::mdisk::Mdisk;
use fc_store::store::Store;

/// Tells `main` the faults of a block, one entry each, in order. `LogFull` where one more entry would pass 262,144, and `NoMemory`
/// where memory was wanted: those before it are told.
pub fn tell_faults<D: Mdisk>(
    store: &Store<D>,
    faults: &[WordFault],
    history: &mut History,
) -> Result<(), Stop>
    requires stands { TellsSome (StandsFor store.now) history.old }
    requires room { length history.old.entries ≤ MAX_ENTRIES }
    ensures told { (w : Whole) → IsTold (StandsFor store.now) history.old w →
        FaultsTold result (StandsFor store.now) store.now.control.grain w faults.now history.old history.new }
    ensures quiet { QuietBy history.old.entries store.now → StaysUp result (QuietBy history.new.entries store.now) }
    ensures limit { length history.new.entries ≤ MAX_ENTRIES }
{
    for fault in faults {
        match store.log_unread(*fault, history) {
            Ok(()) => {}
            Err(stop) => return Err(stop),
        }
    }
    Ok(())
}
