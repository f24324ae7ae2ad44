//! A noted store answers the lines of a session.

ghost use Rattle.std.specs.Prelude.{◌≡◌, ◌≤◌, List, Ok, IfOk, length, ℕ};
ghost use Rattle.fc_blocks.specs.Reading.{script_line};
ghost use Rattle.fc_changed.specs.Row.{Row};
ghost use Rattle.fc_legal.specs.Whole.{Whole};
ghost use Rattle.fc_noted.specs.Making.{KeepLanes, KeepsCount};
ghost use Rattle.fc_noted.specs.Noted.{CanBegin, IsNotedAt};
ghost use Rattle.fc_stopped.specs.Lines.{LineIsAnswered, StopStart, noted_runs, stop_told};
ghost use Rattle.fc_stopped.specs.Reading.{own_fault, own_reading, without_blocks};

use fc_base::command::{Line, Scope, ScriptLine};
use fc_base::fault::WordFault;
use fc_base::outcome::NoMemory;
use fc_entry::history::History;
use fc_entry::stop::Stop;
use fc_marks::NotedStop;
use fc_mdisk::mdisk::Mdisk;
use fc_metadisk::MetaDisk;
use fc_noted::Noted;
use fc_run::answers::Answers;
use fc_words::line::read_line;
use fc_words::refused::WordRefused;
use std::alloc::Global;

/// A noted store, which answers the lines of a session one after the other.
#[derive(Drop)]
pub(crate) struct NotedLines<D: Mdisk, M: MetaDisk> {
    /// The allocator.
    pub alloc: Global,
    /// The noted store.
    pub noted: Noted<D, M>,
    /// Why it answers no line any more, once it doesn't.
    pub stop: Option<NotedStop>,
}

/// A line as it is answered here: those of blocks name none.
fn without_blocks(line: Line) -> ScriptLine
    ensures { result ≡ script_line (without_blocks (Ok line)) }
{
    match line {
        Line::Together | Line::Actor { .. } | Line::End => {
            ScriptLine::Unread(WordFault::UnknownCommand)
        }
        other => ScriptLine::Read(other),
    }
}

/// The fault of a line as it is answered here: `actor` and `end` name no line.
fn fault_of(fault: WordFault) -> WordFault
    ensures { result ≡ own_fault fault }
{
    match fault {
        WordFault::NotInBlock => WordFault::UnknownCommand,
        other => other,
    }
}

/// Reads a line of a session.
fn read_own(alloc: Global, line: &[u8]) -> Result<ScriptLine, NoMemory>
    ensures { IfOk result (λ read. read ≡ script_line (own_reading line.now)) }
{
    match read_line(alloc, line, Scope::Free) {
        Ok(line) => Ok(without_blocks(line)),
        Err(WordRefused::Fault(fault)) => Ok(ScriptLine::Unread(fault_of(fault))),
        Err(WordRefused::NoMemory) => Err(NoMemory),
    }
}

/// A stop, as the loop over lines knows it: one that isn't the history's limit leaves the first entries of the line.
fn told(stop: NotedStop) -> Stop
    ensures { result ≡ stop_told stop }
{
    match stop {
        NotedStop::LogFull => Stop::LogFull,
        NotedStop::NoMemory | NotedStop::MetaFailed | NotedStop::MetaFull => Stop::NoMemory,
    }
}

impl<D: Mdisk, M: MetaDisk> NotedLines<D, M> {
    /// Answers a line as it was read.
    fn answer(&mut self, line: ScriptLine, history: &mut History) -> Result<(), NotedStop>
        requires begins { CanBegin M.seen M.may_leave self.old.noted history.old }
        requires read { (bytes : List ℕ) × (line ≡ script_line (own_reading bytes)) }
        ensures answered { (bytes : List ℕ) (w : Whole) (least : List Row) → line ≡ script_line (own_reading bytes) →
            IsNotedAt M.seen M.may_leave self.old.noted history.old w least → LineIsAnswered M.seen M.may_leave M.fault_count M.calls result self.old.noted self.new.noted bytes w history.old history.new }
        ensures lanes { KeepLanes self.old.noted.store self.new.noted.store }
        ensures counted { KeepsCount M.seen M.fault_count M.calls result self.old.noted self.new.noted }
        ensures limit { length history.new.entries ≤ 262144 }
        ensures others { self.new ≡ record self.old { noted = self.new.noted } }
    {
        match line {
            ScriptLine::Read(line) => self.noted.run_line(line, history),
            ScriptLine::Unread(fault) => self.noted.run_unread(fault, history),
        }
    }
}

impl<D: Mdisk, M: MetaDisk> Answers for NotedLines<D, M> {
    ghost Start = { StopStart };

    ghost runs = { λ l start. noted_runs M.seen M.may_leave M.fault_count M.calls l.noted l.stop start };

    fn line(&mut self, line: &[u8], history: &mut History) -> Result<(), Stop> {
        let read = match read_own(self.alloc, line) {
            Ok(read) => read,
            Err(NoMemory) => return Err(Stop::NoMemory),
        };
        match self.answer(read, history) {
            Ok(()) => Ok(()),
            Err(stop) => {
                self.stop = Some(stop);
                Err(told(stop))
            }
        }
    }

    fn is_open(&self) -> bool {
        false
    }
}
