//! A line answered, step by step.

ghost use Rattle.std.specs.Prelude.{Err, IfErr, Ok, OnOk};
ghost use Rattle.fc_noted.specs.Lines.{LineEnds, LineStops, Ran, ScriptEnds, ScriptStops};
ghost use Rattle.fc_noted.specs.Noted.{CanBegin};

use crate::noted::Noted;
use fc_base::command::Line;
use fc_base::fault::WordFault;
use fc_base::outcome::NoMemory;
use fc_entry::history::History;
use fc_marks::NotedStop;
use fc_mdisk::mdisk::Mdisk;
use fc_metadisk::MetaDisk;

impl<D: Mdisk, M: MetaDisk> Noted<D, M> {
    /// Answers a line step by step, and a preset by the lines that stand in its place. Behind an error, only the disks are of use.
    ///
    /// NoMemory also where 2^64 - 1 steps didn't answer it.
    pub fn run_line(&mut self, line: Line, history: &mut History) -> Result<(), NotedStop>
        requires begins { CanBegin M.seen M.may_leave self.old history.old }
        ensures answered { OnOk result (LineEnds M.seen M.may_leave (Ok line) self.old self.new history.old history.new) }
        ensures halted { IfErr result (λ stop. LineStops M.seen M.may_leave M.fault_count M.calls (Ok line) stop self.old self.new history.old history.new) }
        ensures ran { Ran M.seen M.fault_count M.calls result self.old self.new history.new }
    {
        match self.begin_line(line) {
            Ok(()) => self.make_all(history),
            Err(NoMemory) => {
                self.live = false;
                Err(NotedStop::NoMemory)
            }
        }
    }

    /// Tells of a line that it has this fault in its words: one entry. Behind an error, only the disks are of use.
    pub fn run_unread(&mut self, fault: WordFault, history: &mut History) -> Result<(), NotedStop>
        requires begins { CanBegin M.seen M.may_leave self.old history.old }
        ensures answered { OnOk result (LineEnds M.seen M.may_leave (Err fault) self.old self.new history.old history.new) }
        ensures halted { IfErr result (λ stop. LineStops M.seen M.may_leave M.fault_count M.calls (Err fault) stop self.old self.new history.old history.new) }
        ensures ran { Ran M.seen M.fault_count M.calls result self.old self.new history.new }
    {
        self.begin_unread(fault);
        self.make_all(history)
    }

    /// Makes steps until nothing of the line at hand is left.
    ///
    /// NoMemory also where 2^64 - 1 steps leave something.
    fn make_all(&mut self, history: &mut History) -> Result<(), NotedStop>
        requires begins { CanBegin M.seen M.may_leave self.old history.old }
        ensures answered { OnOk result (ScriptEnds M.seen M.may_leave self.old self.new history.old history.new) }
        ensures halted { IfErr result (λ stop. ScriptStops M.seen M.may_leave M.fault_count M.calls stop self.old self.new history.old history.new) }
        ensures ran { Ran M.seen M.fault_count M.calls result self.old self.new history.new }
    {
        'steps: for _ in 0..u64::MAX {
            match self.make_step(history) {
                Ok(true) => {}
                Ok(false) => return Ok(()),
                Err(stop) => return Err(stop),
            }
        }
        self.live = false;
        Err(NotedStop::NoMemory)
    }
}
