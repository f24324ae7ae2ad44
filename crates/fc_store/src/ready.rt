//! The lane of a grain, made ready for one more entry.

ghost use Rattle.std.specs.Prelude.{◌<◌, length, IfErr, IfOk};
ghost use Rattle.fc_legal.specs.Added.{TellsSome};
ghost use Rattle.fc_stands.specs.Store.{StandsFor};
ghost use Rattle.fc_store.specs.Ready.{IsReadyAt, IsRoomier, IsStopped};

use crate::store::Store;
use fc_apart::log::is_full;
use fc_base::limits::MAX_ENTRIES;
use fc_base::outcome::NoMemory;
use fc_entry::history::History;
use fc_entry::stop::Stop;
use fc_mdisk::mdisk::Mdisk;

impl<D: Mdisk> Store<D> {
    /// The place of a grain's lane, once room for an entry was made in it, where the history has room for one too. Else the
    /// answer is `LogFull`, or `NoMemory` where memory was wanted. Either way the store stands for what it did.
    pub fn ready_lane(&mut self, grain: u32, history: &History) -> Result<usize, Stop>
        requires stands { TellsSome (StandsFor self.old) history.now }
        ensures ready { IfOk result (λ place. IsReadyAt self.new grain place) }
        ensures room { IfOk result (λ place. length history.now.entries < MAX_ENTRIES) }
        ensures stopped { IfErr result (λ stop. IsStopped stop history.now) }
        ensures kept { IsRoomier self.old self.new }
    {
        if is_full(history) {
            return Err(Stop::LogFull);
        }
        let place = grain as usize % self.lanes.len();
        let lane = &mut self.lanes[place];
        match lane.make_room(self.alloc) {
            Ok(()) => {}
            Err(NoMemory) => return Err(Stop::NoMemory),
        }
        Ok(place)
    }
}
