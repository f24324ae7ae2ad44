//! Who answers the lines of a session.

ghost use Rattle.std.specs.Prelude.{◌≡◌, ◌≤◌, ℕ, List, [], ◌∷◌, ◌++◌, length};
ghost use Rattle.fc_entry.specs.HistoryState.{HistoryState};
ghost use Rattle.fc_entry.specs.Text.{HasNames};
ghost use Rattle.fc_run.specs.Runs.{GrowsTo, LineLeaves, Runs};

use fc_entry::history::History;
use fc_entry::stop::Stop;

/// Whoever answers the lines of a session, one after the other, by entries at the end of a history.
pub trait Answers {
    /// What may have stood before the first line.
    ghost Start: { Type 0 };

    /// What is said of the lines so far and the history, by what stood before the first line.
    ghost runs: { Self → Start → Runs };

    /// Answers a line: entries at the history's end, or none. `LogFull` where one more entry would pass 262,144: those
    /// before it are there. `NoMemory` where memory was wanted: the first entries of the line are there, or none. No
    /// line is answered after either.
    fn line(&mut self, line: &[u8], history: &mut History) -> Result<(), Stop>
        requires stands { (start : Start) × (lines : List (List ℕ)) × (runs self.old start).Whole lines history.old }
        requires room { length history.old.entries ≤ 262144 }
        ensures answered { (start : Start) (lines : List (List ℕ)) → (runs self.old start).Whole lines history.old
            → LineLeaves result (runs self.new start) (lines ++ line.now ∷ []) history.new }
        ensures named { HasNames history.old → HasNames history.new }
        ensures grows { GrowsTo history.old history.new }
        ensures limit { length history.new.entries ≤ 262144 };

    /// Whether the lines so far have opened something that none of them ends.
    fn is_open(&self) -> bool
        ensures { (start : Start) (lines : List (List ℕ)) (history : HistoryState) → (runs self.now start).Whole lines history
            → result ≡ (runs self.now start).is_open lines };
}
