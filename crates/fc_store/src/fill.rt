//! The next grain of background work, and its copy or cleaning.

ghost use Rattle.std.specs.Prelude.{◌≡◌, ◌≤◌, length};
ghost use Rattle.std.specs.Prelude.{Some as GhostSome};
ghost use Rattle.fc_legal.specs.Seconds.{next_grain, saved};
ghost use Rattle.fc_legal.specs.Whole.{Whole};
ghost use Rattle.fc_legal.specs.Added.{IsTold, StaysUp, TellsSome};
ghost use Rattle.fc_lanes.specs.Dealing.{disks_in};
ghost use Rattle.fc_stands.specs.Quiet.{QuietBy};
ghost use Rattle.fc_stands.specs.Store.{StandsFor};
ghost use Rattle.fc_stands.specs.Passing.{Filled};

use crate::store::Store;
use fc_apart::log::{has_moved, log_telling};
use fc_base::ids::GrainNo;
use fc_base::limits::MAX_ENTRIES;
use fc_entry::history::History;
use fc_entry::stop::Stop;
use fc_lanes::fill::fill_lane;
use fc_lanes::work::{Work, least_of};
use fc_mdisk::mdisk::Mdisk;

impl<D: Mdisk> Store<D> {
    /// The least grain of all lanes at which the work has something to do.
    pub fn next_grain(&self, work: &Work) -> Option<GrainNo>
        requires { (w : Whole) × StandsFor self.now w }
        ensures { (w : Whole) → StandsFor self.now w → result ≡ next_grain self.now.control.grain w work.now }
    {
        least_of(&self.lanes, work)
    }

    /// The work keeps its credit where it has something left to do, and loses it else.
    pub fn save(&self, work: &mut Work)
        requires { (w : Whole) × StandsFor self.now w }
        ensures { (w : Whole) → StandsFor self.now w → work.new ≡ saved self.now.control.grain w work.old }
    {
        match self.next_grain(work) {
            Some(_) => {}
            None => work.lose(),
        }
    }

    /// Copies or cleans the grain, which is the work's next, and logs it: whether it was moved.
    pub fn fill(&mut self, work: &Work, grain: GrainNo, history: &mut History) -> Result<bool, Stop>
        requires stands { TellsSome (StandsFor self.old) history.old }
        requires room { length history.old.entries ≤ MAX_ENTRIES }
        requires next { (w : Whole) → StandsFor self.old w → next_grain self.old.control.grain w work.now ≡ GhostSome grain }
        ensures filled { (w : Whole) → IsTold (StandsFor self.old) history.old w →
            Filled result (StandsFor self.new) self.old.control.grain w work.now grain history.old history.new }
        ensures control { self.new.control ≡ self.old.control }
        ensures disks { disks_in self.new.lanes ≡ disks_in self.old.lanes }
        ensures quiet { QuietBy history.old.entries self.old → StaysUp result (QuietBy history.new.entries self.new) }
        ensures limit { length history.new.entries ≤ MAX_ENTRIES }
    {
        let place = match self.ready_lane(grain.0, history) {
            Ok(place) => place,
            Err(stop) => return Err(stop),
        };
        let number = history.len() as u64;
        let lane = &mut self.lanes[place];
        let entry = fill_lane(self.alloc, lane, number, work, grain);
        let moved = has_moved(&entry);
        log_telling(history, entry, moved)
    }
}
