//! The mappings that are followed, and what is noted of their volumes.

ghost use Rattle.std.specs.Prelude.{◌≡◌, ◌≢◌, ◌↔◌, [], map, length, OnOk, OnErr, IsTrue, IfSome, true, All, is_some};
ghost use Rattle.std.specs.List.{list_any};
ghost use Rattle.fc_bits.specs.Grains.{count_set};
ghost use Rattle.fc_changed.specs.Notes.Note.{Wrote, Left, Cut, Forgotten};
ghost use Rattle.fc_changed.specs.Row.{after_note, row_names, is_of, restart_in};
ghost use Rattle.fc_diff.specs.State.{with_ready, after_beginning, CanBegin};
ghost use Rattle.fc_diff.specs.Told.{row_after, FitsRow};

use crate::table::Table;
use crate::tracked::{Event, Tracked};
use fc_base::ids::{MapId, VolId};
use fc_base::outcome::NoMemory;
use fc_bits::GrainSet;
use std::alloc::Global;
use std::marker::Model;

/// The incremental mappings that one lane follows, and at which grains the two volumes of each show the same. Contracts see
/// a row for each, in the order of their first triggers, and those that stand ready for theirs: room for their rows is taken
/// beforehand. Grains are those of the lane, counted from 0.
#[derive(Drop)]
pub struct Changes {
    table: Table,
    followed: usize,
}

impl Model for Changes {
    ghost use Rattle.std.specs.Prelude.{◌≤◌, length};
    ghost use Rattle.fc_diff.specs.State.{ChangesState};
    ghost use Rattle.fc_diff.specs.Index.{state_of};

    ghost Value = { ChangesState };

    ghost view = { λ c. state_of c.followed c.table };

    ghost invariant = { λ c. c.followed ≤ length c.table };
}

impl Changes {
    /// No mapping is followed, and none stands ready. Takes no memory.
    pub fn new(alloc: Global) -> Changes
        ensures { result ≡ record { rows = []; ready = [] } }
    {
        Changes {
            table: Table::new(alloc),
            followed: 0,
        }
    }

    /// Lets go of the mappings that stand ready. Takes no memory.
    pub fn release(&mut self)
        ensures { self.new ≡ record self.old { ready = [] } }
    {
        self.table.truncate(self.followed);
    }

    /// Makes the mapping ready for its first trigger, whose volumes have so many grains in the lane. One that is followed
    /// already stays as it is. Refused, all is as it was; want of memory is the only cause.
    pub fn make_ready(
        &mut self,
        alloc: Global,
        map: MapId,
        source: VolId,
        target: VolId,
        grains: u32,
    ) -> Result<(), NoMemory>
        requires fresh { All (λ new. new.map ≢ map.0) self.old.ready }
        ensures ok { OnOk result (self.new ≡ record self.old { ready = with_ready self.old.rows (record { map = map.0; source = source.0; target = target.0; grains = grains }) self.old.ready }) }
        ensures err { OnErr result (self.new ≡ self.old) }
    {
        if self.is_following(map) {
            return Ok(());
        }
        self.table.add(alloc, map.0, source.0, target.0, grains)
    }

    /// A trigger of the mapping made the target a copy of the source. The volumes of each mapping that joins the two are the
    /// same; those of each other one that names the target differ. An incremental mapping is followed from its first trigger
    /// on; it is the first of those that stand ready. Takes no memory.
    pub fn began(&mut self, map: MapId, source: VolId, target: VolId, incremental: bool)
        requires { CanBegin self.old map.0 source.0 target.0 incremental }
        ensures { self.new ≡ after_beginning self.old map.0 source.0 target.0 incremental }
    {
        self.tell(Event::Began {
            source: source.0,
            target: target.0,
        });
        if incremental && !self.is_following(map) {
            self.followed = self.table.begin(self.followed);
        }
    }

    /// The grain of the volume was written, or a failed write spoiled it. Takes no memory, and changes one bit of each
    /// mapping that names the volume.
    pub fn wrote(&mut self, volume: VolId, grain: u32)
        ensures { self.new ≡ record self.old { rows = after_note self.old.rows (Wrote volume.0 grain) } }
    {
        self.tell(Event::Wrote {
            volume: volume.0,
            grain,
        });
    }

    /// A copy to the target left its chain, when its slot held these grains. Where it didn't hold the grain, the volumes of
    /// each mapping that names the target differ. Such a mapping has as many grains. Takes no memory.
    pub fn left(&mut self, target: VolId, held: &GrainSet)
        requires sizes { All (λ row. row_names row target.0 ≡ true → length row.same ≡ length held.now) self.old.rows }
        ensures { self.new ≡ record self.old { rows = after_note self.old.rows (Left target.0 held.now) } }
    {
        self.tell(Event::Left {
            target: target.0,
            held,
        });
    }

    /// The target was cut, since a copy to it left incomplete. The volumes of each mapping that names it differ, but for one
    /// whose volumes were last joined by a trigger into this target. Takes no memory.
    pub fn cut(&mut self, target: VolId)
        ensures { self.new ≡ record self.old { rows = after_note self.old.rows (Cut target.0) } }
    {
        self.tell(Event::Cut { target: target.0 });
    }

    /// Follows the mapping no more. Takes no memory.
    pub fn forget(&mut self, map: MapId)
        ensures { self.new ≡ record self.old { rows = after_note self.old.rows (Forgotten map.0) } }
    {
        self.followed = self.table.forget(self.followed, map.0);
    }

    /// The grains that the mapping needn't copy where it starts again. None exactly where it isn't followed.
    pub fn restart(&self, map: MapId) -> Option<&GrainSet>
        ensures followed { is_some result ≡ list_any (is_of map.0) self.now.rows }
        ensures grains { IfSome result (λ same. same.now ≡ restart_in map.0 self.now.rows) }
    {
        match self.table.place_of(self.followed, map.0) {
            Some(place) => Some(self.table.same(place)),
            None => None,
        }
    }

    /// How many grains the mapping needn't copy where it starts again; 0 where it isn't followed.
    pub fn restart_count(&self, map: MapId) -> u32
        ensures { result ≡ count_set (restart_in map.0 self.now.rows) }
    {
        match self.table.place_of(self.followed, map.0) {
            Some(place) => self.table.same(place).count(),
            None => 0,
        }
    }

    /// The mappings that are followed, in the order of their first triggers.
    pub fn rows(&self) -> &[Tracked]
        ensures { result.now ≡ self.now.rows }
    {
        self.table.first(self.followed)
    }

    /// Whether no mapping is followed: then there is nothing to note.
    pub fn is_empty(&self) -> bool
        ensures { IsTrue result ↔ (self.now.rows ≡ []) }
    {
        self.followed == 0
    }

    /// Whether the mapping is followed.
    fn is_following(&self, map: MapId) -> bool
        ensures { result ≡ list_any (is_of map.0) self.now.rows }
    {
        self.table.place_of(self.followed, map.0).is_some()
    }

    /// Tells each mapping that is followed of an event that names its volume.
    fn tell(&mut self, event: Event)
        requires { All (FitsRow event) self.old.rows }
        ensures { self.new ≡ record self.old { rows = map (row_after event.entry) self.old.rows } }
    {
        self.table.tell(self.followed, event);
    }
}

#[cfg(test)]
mod tests;
