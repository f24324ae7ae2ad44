//! Entries of the history.

ghost use Rattle.std.specs.Prelude.{◌≡◌, ◌<◌, ◌≤◌, [], ◌∷◌, ◌++◌, length, IfErr, IfOk, OnErr, OnOk};
ghost use Rattle.std.specs.Bool.{OnFalse, OnTrue};
ghost use Rattle.fc_legal.specs.Agenda.{is_done};
ghost use Rattle.fc_legal.specs.Seconds.{has_moved};

use fc_base::limits::MAX_ENTRIES;
use fc_base::request::Reply;
use fc_entry::entry::Entry;
use fc_entry::history::History;
use fc_entry::stop::Stop;

/// Whether one more entry would pass the greatest number of entries.
pub fn is_full(history: &History) -> bool
    ensures full { OnTrue result (MAX_ENTRIES ≤ length history.now.entries) }
    ensures room { OnFalse result (length history.now.entries < MAX_ENTRIES) }
{
    history.len() >= MAX_ENTRIES
}

/// Puts an entry at the history's end. `NoMemory` where memory was wanted for it; the history is then as it was.
pub fn log(history: &mut History, entry: Entry) -> Result<(), Stop>
    requires { entry.number ≡ length history.old.entries }
    ensures ok { OnOk result (history.new ≡ record history.old { entries = history.old.entries ++ entry ∷ [] }) }
    ensures err { OnErr result (history.new ≡ history.old) }
    ensures stop { IfErr result (λ stop. stop ≡ Stop.NoMemory) }
{
    match history.push(entry) {
        Ok(()) => Ok(()),
        Err(_) => Err(Stop::NoMemory),
    }
}

/// Puts an entry at the history's end, and says this of it. `NoMemory` where memory was wanted for it; the history is then as it
/// was.
pub fn log_telling(history: &mut History, entry: Entry, told: bool) -> Result<bool, Stop>
    requires { entry.number ≡ length history.old.entries }
    ensures ok { IfOk result (λ tells. (tells ≡ told) × (history.new ≡ record history.old { entries = history.old.entries ++ entry ∷ [] })) }
    ensures err { OnErr result (history.new ≡ history.old) }
    ensures stop { IfErr result (λ stop. stop ≡ Stop.NoMemory) }
{
    match log(history, entry) {
        Ok(()) => Ok(told),
        Err(stop) => Err(stop),
    }
}

/// Whether the entry's reply is Done.
pub fn is_done(entry: &Entry) -> bool
    ensures { result ≡ is_done entry.now.reply }
{
    matches!(entry.reply, Reply::Done)
}

/// Whether the entry's reply says that a grain was copied or cleaned.
pub fn has_moved(entry: &Entry) -> bool
    ensures { result ≡ has_moved entry.now.reply }
{
    matches!(entry.reply, Reply::Moved { .. })
}
