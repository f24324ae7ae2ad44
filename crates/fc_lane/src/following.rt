//! Reads, writes, copies and cleanings of a lane, with what they change for incremental mappings.

ghost use Rattle.std.specs.Prelude.{◌≡◌, ◌<◌, ◌^◌, ◌%◌, IsSome, fold};
ghost use Rattle.fc_base.specs.declared.request.Request.TheVariants.{Clean, Copy, Read, Write};
ghost use Rattle.fc_bits.specs.Grains.{count_set};
ghost use Rattle.fc_base.specs.declared.request.WritePart.{WritePart};
ghost use Rattle.fc_changed.specs.Row.{after_note, restart_in};
ghost use Rattle.fc_entry.specs.Picture.{grain_of_block};
ghost use Rattle.fc_follow.specs.Following.{Followed, rows_entry, torn_notes, write_notes};
ghost use Rattle.fc_lane.specs.Entering.{HasFollowed};
ghost use Rattle.fc_lane.specs.Lane.{IsFollowing, IsReady, of};
ghost use Rattle.fc_lane.specs.Turns.{CanPick, clean_of, copy_of};
ghost use Rattle.fc_rules.specs.LaneFits.{FitsPart};
ghost use Rattle.fc_rules.specs.LaneRight.{done_write};
ghost use Rattle.fc_rules.specs.LaneTold.{place_of};
ghost use Rattle.fc_rules.specs.LaneTurn.{cleaned_slot, copied_slot};

use crate::lane::Lane;
use crate::worker::Worker;
use fc_base::ids::{GrainNo, MapId};
use fc_base::request::{Pick, ReadPart, Reply, Request, Side, WritePart};
use fc_entry::entry::Entry;
use fc_mdisk::mdisk::Mdisk;
use std::alloc::Global;

impl<D: Mdisk> Lane<D> {
    /// Notes what the entry changed: the grain that it wrote, or spoiled of what a volume shows. Takes no memory.
    pub(crate) fn note(&mut self, entry: &Entry)
        requires number { (part : WritePart) → entry.now.request ≡ Write part → grain_of_block self.old.grains.grain part.block < 2 ^ 32 }
        ensures { self.new ≡ record self.old { changes = record self.old.changes { rows = rows_entry (of self.old) self.old.changes.rows entry.now } } }
    {
        if self.changes.is_empty() {
            return;
        }
        self.note_done(entry);
        self.note_torn(entry);
    }

    /// Notes the write that the entry did.
    fn note_done(&mut self, entry: &Entry)
        requires number { (part : WritePart) → entry.now.request ≡ Write part → grain_of_block self.old.grains.grain part.block < 2 ^ 32 }
        ensures { self.new ≡ record self.old { changes = record self.old.changes { rows = fold after_note self.old.changes.rows (write_notes (of self.old) (done_write entry.now.request entry.now.reply)) } } }
    {
        let Request::Write(part) = entry.request else {
            return;
        };
        let Reply::Done = entry.reply else {
            return;
        };
        let grain = (part.block / self.body.grains.grain().blocks() as u64) as u32;
        self.changes.wrote(part.volume, grain / self.lanes as u32);
    }

    /// Notes the grain that the entry left torn, if the volume showed it.
    fn note_torn(&mut self, entry: &Entry)
        ensures { self.new ≡ record self.old { changes = record self.old.changes { rows = fold after_note self.old.changes.rows (torn_notes (of self.old) entry.now.torn) } } }
    {
        let Some(torn) = entry.torn else {
            return;
        };
        match torn.side {
            Side::Now => self
                .changes
                .wrote(torn.volume, torn.grain.0 / self.lanes as u32),
            Side::Under => {}
        }
    }

    /// With how many of the lane's grains the mapping's next copy would begin: its restart set. 0 of a mapping that isn't
    /// incremental, or that never began.
    pub fn restart(&self, map: MapId) -> u32
        ensures { result ≡ count_set (restart_in map.0 self.now.changes.rows) }
    {
        self.changes.restart_count(map)
    }

    /// Reads blocks of one grain of a volume: the bytes that the volume's holder has there. A volume that isn't online
    /// answers how it may be reached, and a lost grain a medium error.
    pub fn read(&mut self, alloc: Global, number: u64, actor: u32, part: ReadPart) -> Entry
        requires can { (f : Followed) × IsFollowing self.old f × FitsPart (of self.old) f.told part.volume part.block part.count }
        requires number { grain_of_block self.old.grains.grain part.block < 2 ^ 32 }
        ensures followed { HasFollowed self.old (λ told. FitsPart (of self.old) told part.volume part.block part.count) number actor (Read part) result self.new }
        ensures entry_room { self.new.entry_room ≡ self.old.entry_room }
    {
        let entry = self.read_told(alloc, number, actor, part);
        self.note(&entry);
        entry
    }

    /// Writes blocks of one grain of a volume, with all moves that this owes before it. A volume that isn't online answers how
    /// it may be reached; a part of a lost grain can't be written. It stops at the first call of a disk that fails; what was
    /// done before stays done.
    pub fn write(&mut self, alloc: Global, number: u64, actor: u32, part: WritePart) -> Entry
        requires can { (f : Followed) × IsFollowing self.old f × FitsPart (of self.old) f.told part.volume part.block part.count }
        requires number { grain_of_block self.old.grains.grain part.block < 2 ^ 32 }
        requires ready { IsReady self.old }
        ensures { HasFollowed self.old (λ told. FitsPart (of self.old) told part.volume part.block part.count) number actor (Write part) result self.new }
    {
        let entry = self.write_told(alloc, number, actor, part);
        self.note(&entry);
        entry
    }

    /// Copies a grain of a mapping in the background: its target gets its own copy, after all moves that this asks for. It
    /// stops at the first call of a disk that fails; what was done before stays done.
    pub fn copy(
        &mut self,
        alloc: Global,
        number: u64,
        actor: u32,
        map: MapId,
        grain: GrainNo,
    ) -> Entry
        requires can { (f : Followed) × IsFollowing self.old f × IsSome (copied_slot f.told.sheet.slots map.0 (place_of (of self.old) grain.0)) }
        requires of_lane { grain.0 % self.old.lanes ≡ self.old.lane }
        requires ready { IsReady self.old }
        ensures { HasFollowed self.old (λ told. IsSome (copied_slot told.sheet.slots map.0 (place_of (of self.old) grain.0))) number actor (Copy map grain) result self.new }
    {
        let entry = self.fill_told(alloc, number, actor, Worker::Copier, map, grain);
        self.note(&entry);
        entry
    }

    /// Hands on a grain of a mapping's target to the copy that needs it, after all moves that this asks for. It stops at
    /// the first call of a disk that fails; what was done before stays done.
    pub fn clean(
        &mut self,
        alloc: Global,
        number: u64,
        actor: u32,
        map: MapId,
        grain: GrainNo,
    ) -> Entry
        requires can { (f : Followed) × IsFollowing self.old f × IsSome (cleaned_slot f.told.sheet.slots map.0 (place_of (of self.old) grain.0)) }
        requires of_lane { grain.0 % self.old.lanes ≡ self.old.lane }
        requires ready { IsReady self.old }
        ensures { HasFollowed self.old (λ told. IsSome (cleaned_slot told.sheet.slots map.0 (place_of (of self.old) grain.0))) number actor (Clean map grain) result self.new }
    {
        let entry = self.fill_told(alloc, number, actor, Worker::Cleaner, map, grain);
        self.note(&entry);
        entry
    }

    /// A copier's turn: a copy of the first mapping by id that has one to make in the lane, at its least grain, and Idle exactly
    /// where none has; or the copy of a mapping's grain that is named. It stops at the first call of a disk that fails; what
    /// was done before stays done.
    pub fn copy_turn(&mut self, alloc: Global, number: u64, actor: u32, pick: Pick) -> Entry
        requires can { (f : Followed) × IsFollowing self.old f × CanPick (of self.old) (copied_slot f.told.sheet.slots) pick }
        requires ready { IsReady self.old }
        ensures { HasFollowed self.old (λ told. CanPick (of self.old) (copied_slot told.sheet.slots) pick) number actor (copy_of self.old.lane pick) result self.new }
    {
        let entry = self.turn_told(alloc, number, actor, Worker::Copier, pick);
        self.note(&entry);
        entry
    }

    /// A cleaner's turn: a cleaning of the first mapping by id that has one to make in the lane, at its least grain, and Idle
    /// exactly where none has; or the cleaning of a mapping's grain that is named. It stops at the first call of a disk that
    /// fails; what was done before stays done.
    pub fn clean_turn(&mut self, alloc: Global, number: u64, actor: u32, pick: Pick) -> Entry
        requires can { (f : Followed) × IsFollowing self.old f × CanPick (of self.old) (cleaned_slot f.told.sheet.slots) pick }
        requires ready { IsReady self.old }
        ensures { HasFollowed self.old (λ told. CanPick (of self.old) (cleaned_slot told.sheet.slots) pick) number actor (clean_of self.old.lane pick) result self.new }
    {
        let entry = self.turn_told(alloc, number, actor, Worker::Cleaner, pick);
        self.note(&entry);
        entry
    }
}
