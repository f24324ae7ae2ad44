//! A command that makes an object, and what was made.

ghost use Rattle.std.specs.Prelude.{◌≡◌, ◌<◌, ◌≤◌, ◌++◌, ◌∷◌, [], List, length};
ghost use Rattle.fc_entry.specs.declared.entry.Entry.{Entry};
ghost use Rattle.fc_legal.specs.Added.{TellsSome};
ghost use Rattle.fc_preset.specs.Stages.{HasRun, made_by, whether_made};
ghost use Rattle.fc_stands.specs.Phase.{IsDecided};
ghost use Rattle.fc_stands.specs.Store.{StandsFor};

use fc_base::command::Command;
use fc_base::limits::MAX_ENTRIES;
use fc_base::request::Reply;
use fc_entry::history::History;
use fc_entry::stop::Stop;
use fc_mdisk::mdisk::Mdisk;
use fc_store::store::Store;

/// The id of what was made, by the reply; none, where nothing was.
fn made_by(reply: &Reply) -> Option<u32>
    ensures { result ≡ made_by reply.now }
{
    match reply {
        Reply::Made { id, .. } => Some(*id),
        _ => None,
    }
}

/// The id of what was made, by the last entry; none, where nothing was.
fn made_last(history: &History) -> Option<u32>
    requires { 0 < length history.now.entries }
    ensures { (before : List Entry) (last : Entry) →
        history.now.entries ≡ before ++ last ∷ [] → result ≡ made_by last.reply }
{
    made_by(&history.entry(history.len() - 1).reply)
}

/// Asks for a command, by `main`, and says the id of what was made; none, where nothing was.
pub(crate) fn ask_made<D: Mdisk>(
    store: &mut Store<D>,
    command: Command,
    history: &mut History,
) -> Result<Option<u32>, Stop>
    requires stands { TellsSome (StandsFor store.old) history.old }
    requires room { length history.old.entries ≤ MAX_ENTRIES }
    requires decided { IsDecided command }
    ensures { HasRun result whether_made command store.old store.new history.old history.new }
{
    match store.run_command(command, history) {
        Ok(_) => Ok(made_last(history)),
        Err(stop) => Err(stop),
    }
}
