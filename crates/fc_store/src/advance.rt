//! Seconds that pass: background copies and cleanings, at the rates of the mappings.

ghost use Rattle.std.specs.Prelude.{◌≡◌, ◌<◌, ◌≤◌, ◌++◌, ◌∷◌, [], suc, length, ℕ, List, IfOk};
ghost use Rattle.std.specs.Bool.{OnTrue};
ghost use Rattle.fc_books.specs.Books.{Books};
ghost use Rattle.fc_legal.specs.Seconds.{Work as WorkState, all_work, seconds_begun, gained};
ghost use Rattle.fc_legal.specs.Added.{IsTold, StaysUp, TellsSome};
ghost use Rattle.fc_legal.specs.Agenda.{Session, Reading, Seconds, session_rules};
ghost use Rattle.fc_legal.specs.Whole.{Whole};
ghost use Rattle.fc_stands.specs.Logged.{Brought};
ghost use Rattle.fc_lanes.specs.Dealing.{disks_in};
ghost use Rattle.fc_stands.specs.Quiet.{QuietBy};
ghost use Rattle.fc_stands.specs.Store.{IsControlOf, StandsFor};
ghost use Rattle.fc_stands.specs.Passing.{Passed, after_turn, at, between};

use crate::store::Store;
use fc_base::limits::MAX_ENTRIES;
use fc_base::outcome::NoMemory;
use fc_control::Control;
use fc_entry::history::History;
use fc_entry::stop::Stop;
use fc_lanes::work::{Work, all_work};
use fc_mdisk::mdisk::Mdisk;
use std::alloc::Global;

/// All background work, by the tables and the flags.
fn work_by(alloc: Global, control: &Control) -> Result<Vec<Work>, NoMemory>
    ensures { IfOk result (λ works. (b : Books) → IsControlOf control.now b → works.items ≡ all_work b) }
{
    let flags = control.flags();
    let mappings = control.registry().all_mappings();
    match all_work(alloc, flags, mappings) {
        Ok(works) => Ok(works),
        Err(NoMemory) => Err(NoMemory),
    }
}

impl<D: Mdisk> Store<D> {
    /// All background work, by the tables and the flags: all copies by mapping, and then all cleanings, each without credit.
    /// `NoMemory` where memory was wanted for the list.
    pub fn background_work(&self) -> Result<Vec<Work>, NoMemory>
        ensures { IfOk result (λ works. (w : Whole) → StandsFor self.now w → works.items ≡ all_work w.books) }
    {
        match work_by(self.alloc, &self.control) {
            Ok(works) => Ok(works),
            Err(NoMemory) => Err(NoMemory),
        }
    }

    /// One turn of a work at hand: a fill, if its credit is worth a grain and it has something to do. Whether it goes on.
    fn take_turn(&mut self, work: &mut Work, history: &mut History) -> Result<bool, Stop>
        requires stands { TellsSome (StandsFor self.old) history.old }
        requires room { length history.old.entries ≤ MAX_ENTRIES }
        ensures passed { (w : Whole) (seconds : ℕ) (over left : List WorkState) → IsTold (StandsFor self.old) history.old w →
            Passed result (StandsFor self.new) self.old.control.grain w (at seconds over work.old left) (after_turn result seconds over work.new left) history.old history.new }
        ensures less { IfOk result (λ goes. OnTrue goes (work.new.credit < work.old.credit)) }
        ensures control { self.new.control ≡ self.old.control }
        ensures disks { disks_in self.new.lanes ≡ disks_in self.old.lanes }
        ensures quiet { QuietBy history.old.entries self.old → StaysUp result (QuietBy history.new.entries self.new) }
        ensures limit { length history.new.entries ≤ MAX_ENTRIES }
    {
        let grain = match self.next_grain(work) {
            Some(grain) => grain,
            None => {
                work.lose();
                return Ok(false);
            }
        };
        if !work.pay(self.control.grain()) {
            return Ok(false);
        }
        match self.fill(work, grain, history) {
            Ok(true) => Ok(true),
            Ok(false) => {
                self.save(work);
                Ok(false)
            }
            Err(stop) => Err(stop),
        }
    }

    /// The second of one work.
    fn pass_one(&mut self, work: &mut Work, history: &mut History) -> Result<(), Stop>
        requires stands { TellsSome (StandsFor self.old) history.old }
        requires room { length history.old.entries ≤ MAX_ENTRIES }
        ensures passed { (w : Whole) (seconds : ℕ) (over left : List WorkState) → IsTold (StandsFor self.old) history.old w →
            Passed result (StandsFor self.new) self.old.control.grain w (at seconds over (gained work.old) left) (between seconds (over ++ work.new ∷ []) left) history.old history.new }
        ensures control { self.new.control ≡ self.old.control }
        ensures disks { disks_in self.new.lanes ≡ disks_in self.old.lanes }
        ensures quiet { QuietBy history.old.entries self.old → StaysUp result (QuietBy history.new.entries self.new) }
        ensures limit { length history.new.entries ≤ MAX_ENTRIES }
    {
        work.gain();
        'turns: loop {
            match self.take_turn(work, history) {
                Ok(true) => {}
                Ok(false) => return Ok(()),
                Err(stop) => return Err(stop),
            }
        }
    }

    /// A second of all work, one after another.
    fn pass_all(&mut self, works: &mut [Work], history: &mut History) -> Result<(), Stop>
        requires stands { TellsSome (StandsFor self.old) history.old }
        requires room { length history.old.entries ≤ MAX_ENTRIES }
        ensures passed { (w : Whole) (seconds : ℕ) → IsTold (StandsFor self.old) history.old w →
            Passed result (StandsFor self.new) self.old.control.grain w (between (suc seconds) works.old []) (between seconds works.new []) history.old history.new }
        ensures control { self.new.control ≡ self.old.control }
        ensures disks { disks_in self.new.lanes ≡ disks_in self.old.lanes }
        ensures quiet { QuietBy history.old.entries self.old → StaysUp result (QuietBy history.new.entries self.new) }
        ensures limit { length history.new.entries ≤ MAX_ENTRIES }
    {
        for place in 0..works.len() {
            match self.pass_one(&mut works[place], history) {
                Ok(()) => {}
                Err(stop) => return Err(stop),
            }
        }
        Ok(())
    }

    /// Lets so many seconds pass, if any: the entries of an `advance` line after its own, by the background work that this one left.
    /// Stopped, the first of them are there; but for want of memory the store goes on to stand for what is told.
    pub(crate) fn advance(&mut self, seconds: u32, history: &mut History) -> Result<(), Stop>
        requires stands { TellsSome (StandsFor self.old) history.old }
        requires room { length history.old.entries ≤ MAX_ENTRIES }
        ensures passed { (read : Reading) (w : Whole) → IsTold (StandsFor self.old) history.old w →
            Brought result (StandsFor self.new) (session_rules self.old.control.grain read) (Seconds (seconds_begun seconds (all_work w.books)) []) (Session []) w history.old history.new }
        ensures grain { self.new.control.grain ≡ self.old.control.grain }
        ensures disks { disks_in self.new.lanes ≡ disks_in self.old.lanes }
        ensures quiet { QuietBy history.old.entries self.old → StaysUp result (QuietBy history.new.entries self.new) }
        ensures limit { length history.new.entries ≤ MAX_ENTRIES }
    {
        if seconds == 0 {
            return Ok(());
        }
        let mut works = match work_by(self.alloc, &self.control) {
            Ok(works) => works,
            Err(NoMemory) => return Err(Stop::NoMemory),
        };
        let mut left = seconds;
        while left > 0 {
            match self.pass_all(&mut works, history) {
                Ok(()) => left -= 1,
                Err(stop) => return Err(stop),
            }
        }
        Ok(())
    }
}
