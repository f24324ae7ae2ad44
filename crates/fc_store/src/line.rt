//! A line of `main`: its own entries, and then those of the seconds that it lets pass.

ghost use Rattle.std.specs.Prelude.{◌≡◌, ◌≤◌, ◌∷◌, [], ℕ, List, length, Ok};
ghost use Rattle.fc_lanes.specs.Dealing.{disks_in};
ghost use Rattle.fc_legal.specs.Added.{Answered, IsTold, StaysUp, TellsSome};
ghost use Rattle.fc_base.specs.declared.behind.Behind.TheVariants.{Passing as PassingSeconds};
ghost use Rattle.fc_blocks.specs.Segments.{single};
ghost use Rattle.fc_books.specs.Books.{Books};
ghost use Rattle.fc_legal.specs.Agenda.{Session, Reading, behind_command, session_rules};
ghost use Rattle.fc_legal.specs.Whole.{Whole};
ghost use Rattle.fc_stands.specs.Phase.{IsDecided};
ghost use Rattle.fc_stands.specs.Quiet.{QuietBy};
ghost use Rattle.fc_stands.specs.Store.{StandsFor};
ghost use Rattle.fc_store.specs.Answering.{AnswersCommand, IsStoreCommand, IsStoreLine};

use crate::store::Store;
use fc_base::command::{Command, Line};
use fc_base::fault::WordFault;
use fc_base::limits::MAX_ENTRIES;
use fc_entry::history::History;
use fc_entry::stop::Stop;
use fc_lanes::access::Access;
use fc_mdisk::mdisk::Mdisk;

/// How many seconds a command, which is no preset, lets pass if it is done.
fn seconds_of(command: &Command) -> u32
    requires { IsDecided command.now }
    ensures { (b : Books) → behind_command b command.now ≡ PassingSeconds result }
{
    match command {
        Command::Advance { seconds } => *seconds,
        _ => 0,
    }
}

impl<D: Mdisk> Store<D> {
    /// Answers a command that is no access and no preset: it asks for itself, and where it is done its seconds pass.
    fn run_other(&mut self, command: Command, history: &mut History) -> Result<(), Stop>
        requires stands { TellsSome (StandsFor self.old) history.old }
        requires room { length history.old.entries ≤ MAX_ENTRIES }
        requires decided { IsDecided command }
        ensures answered { AnswersCommand result command self.old self.new history.old history.new }
        ensures grain { self.new.control.grain ≡ self.old.control.grain }
        ensures disks { disks_in self.new.lanes ≡ disks_in self.old.lanes }
        ensures quiet { QuietBy history.old.entries self.old → StaysUp result (QuietBy history.new.entries self.new) }
        ensures limit { length history.new.entries ≤ MAX_ENTRIES }
    {
        let seconds = seconds_of(&command);
        match self.run_command(command, history) {
            Ok(true) => self.advance(seconds, history),
            Ok(false) => Ok(()),
            Err(stop) => Err(stop),
        }
    }

    /// Answers a command line: an access grain by grain, a preset by its refusal, and any other command by its entry and those of
    /// its seconds.
    fn run_any(&mut self, command: Command, history: &mut History) -> Result<(), Stop>
        requires stands { TellsSome (StandsFor self.old) history.old }
        requires room { length history.old.entries ≤ MAX_ENTRIES }
        requires own { IsStoreCommand self.old.control.tables command }
        ensures answered { AnswersCommand result command self.old self.new history.old history.new }
        ensures grain { self.new.control.grain ≡ self.old.control.grain }
        ensures disks { disks_in self.new.lanes ≡ disks_in self.old.lanes }
        ensures quiet { QuietBy history.old.entries self.old → StaysUp result (QuietBy history.new.entries self.new) }
        ensures limit { length history.new.entries ≤ MAX_ENTRIES }
    {
        match command {
            Command::Read {
                volume,
                block,
                count,
            } => self.run_access(Access::Read, volume, block, count, history),
            Command::Write {
                volume,
                block,
                count,
                byte,
            } => self.run_access(Access::Write(byte), volume, block, count, history),
            Command::Mkpreset {
                source,
                preset,
                name,
            } => self.refuse_preset(source, preset, name, history),
            other => self.run_other(other, history),
        }
    }

    /// Answers a line: one entry or more at the history's end, or none for a blank one; behind an `advance` that is done, the
    /// entries of its seconds. A preset is a line of the store's own only where its source names no volume, which refuses it. A line
    /// that belongs to a block of actors is answered as an unknown command. Stopped, the first of its entries are there; but for
    /// want of memory the store goes on to stand for what is told.
    pub fn run_line(&mut self, line: Line, history: &mut History) -> Result<(), Stop>
        requires stands { TellsSome (StandsFor self.old) history.old }
        requires room { length history.old.entries ≤ MAX_ENTRIES }
        requires own { IsStoreLine self.old.control.tables line }
        ensures answered { (read : Reading) (bytes : List ℕ) (w : Whole) → read w.books bytes ≡ Ok line → IsTold (StandsFor self.old) history.old w →
            Answered result (StandsFor self.new) (session_rules self.old.control.grain read) (Session (single bytes ∷ [])) w history.old history.new }
        ensures grain { self.new.control.grain ≡ self.old.control.grain }
        ensures disks { disks_in self.new.lanes ≡ disks_in self.old.lanes }
        ensures quiet { QuietBy history.old.entries self.old → StaysUp result (QuietBy history.new.entries self.new) }
        ensures limit { length history.new.entries ≤ MAX_ENTRIES }
    {
        match line {
            Line::Blank => Ok(()),
            Line::Command(command) => self.run_any(command, history),
            Line::Together | Line::Actor { .. } | Line::End => {
                self.log_unread(WordFault::UnknownCommand, history)
            }
        }
    }
}
