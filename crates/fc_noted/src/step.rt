//! One step of what a line asks.

ghost use Rattle.std.specs.Prelude.{◌≡◌, ◌≢◌, ◌≤◌, ◌↔◌, List, [], ◌∷◌, ◌++◌, length, true, None, Some, IfErr, IsErrOf, IsTrue, OnErr, OnOk};
ghost use Rattle.fc_changed.specs.Row.{Row};
ghost use Rattle.fc_entry.specs.HistoryState.{HistoryState};
ghost use Rattle.fc_format.specs.Halves.{Image};
ghost use Rattle.fc_format.specs.Ranges.{HasGoodIds};
ghost use Rattle.fc_image.specs.declared.image.MetaImage.{MetaImage as ImageValue};
ghost use Rattle.fc_legal.specs.Whole.{Whole};
ghost use Rattle.fc_marks.specs.Meter.{IsCutShort, IsMetered, Meter, with_record};
ghost use Rattle.fc_meta.specs.Answers.{LeavesEither, found_with, more_calls};
ghost use Rattle.fc_meta.specs.States.{IsResting, disk_of, found, room_of};
ghost use Rattle.fc_metadisk.specs.Disk.{LeavesOnly};
ghost use Rattle.fc_noted.specs.Making.{CopiesNext, GoesBehind, IsMarkedNext, KeepLanes, KeepsCount, StepMade, WayMade, done};
ghost use Rattle.fc_noted.specs.Noted.{CanStep, IsAt, IsDoing};
ghost use Rattle.fc_noted.specs.Stopping.{AsksSome};
ghost use Rattle.law_noted.specs.DataSteps.{copies_nothing};
ghost use Rattle.law_noted.specs.Going.{marks_left, volume_noted};
ghost use Rattle.law_noted.specs.Records.{record_after};
ghost use Rattle.fc_steps.specs.UnderWay.{next_of};
ghost use Rattle.fc_steps.specs.declared.stepping.Next.TheVariants.{Move as NextMove, Own, Over};
ghost use Rattle.fc_stands.specs.Store.{StandsFor};
ghost use Rattle.fc_store.specs.Stepping.{lane_in};

use crate::noted::{Noted, UnderWay};
use fc_apart::log::log;
use fc_base::ids::{GrainNo, VolId};
use fc_base::request::{Move, Side, WritePart};
use fc_entry::entry::Entry;
use fc_entry::history::History;
use fc_image::MetaRecord;
use fc_lane::doing::Doing;
use fc_marks::{Mark, NotedStop, calls_to_put, forget, put_record, remember, wants_mark};
use fc_mdisk::mdisk::Mdisk;
use fc_metadisk::MetaDisk;
use fc_steps::ask::Ask;
use fc_steps::body::StepEnd;
use fc_steps::stepping::Next;
use fc_steps::stop::Stop;

/// The record of a step that ended so: of a move, of the write itself, or of a write that failed. None where a step stopped and tore
/// nothing.
pub(crate) fn record_after(next: Next, end: &StepEnd, grain: GrainNo) -> Option<MetaRecord>
    ensures { result ≡ record_after next end.now grain }
{
    match end.stop {
        Some(Stop::Failed(Some(torn))) => Some(MetaRecord::Torn {
            volume: torn.volume,
            grain: torn.grain,
            side: torn.side,
        }),
        Some(_) => None,
        None => match next {
            Next::Move(mv) => Some(MetaRecord::Pair {
                slot: mv.slot,
                volume: mv.volume,
                grain: mv.grain,
                in_place: mv.in_place,
                empty: end.calls == 0 && !mv.in_place,
            }),
            Next::Own(part) => Some(MetaRecord::Written {
                volume: part.volume,
                grain,
            }),
            Next::Over => None,
        },
    }
}

impl<D: Mdisk, M: MetaDisk> Noted<D, M> {
    /// Makes one step of what the line at hand asks: it puts the record of the last step of data; marks a write that is next; makes
    /// the next step of an entry; finishes an entry and logs it; or begins the next one, which is logged at once where it has no
    /// steps. A command is done and logged in one step, with metadata made anew. False exactly where nothing of the line is left.
    ///
    /// A step calls either the disks of data or that of metadata; a move that copies nothing calls that of metadata alone. Wherever
    /// a stop falls in it, what is then on the disks may be recovered (`LeavesRecoverable`).
    ///
    /// LogFull where one more entry would pass the greatest number, MetaFailed where a call of the disk of metadata failed, MetaFull
    /// where metadata don't fit it, NoMemory where memory was wanted. Behind each of them no step may be made any more.
    pub fn make_step(&mut self, history: &mut History) -> Result<bool, NotedStop>
        requires can { CanStep M.seen M.may_leave self.old history.old }
        ensures made { StepMade M.seen M.may_leave M.moment M.left_since M.calls result self.old self.new history.old history.new }
        ensures full { IsErrOf result NotedStop.LogFull → (w : Whole) (least : List Row) → IsAt M.seen M.may_leave self.old history.old w least → AsksSome self.old.store.control.grain self.old.script w }
        ensures lanes { KeepLanes self.old.store self.new.store }
        ensures live { IsTrue self.new.live ↔ OnErr result ⊥ }
        ensures counted { KeepsCount M.seen M.fault_count M.calls result self.old self.new }
    {
        let made = self.step(history);
        if made.is_err() {
            self.live = false;
        }
        made
    }

    /// The same, whatever it leaves of `live`.
    fn step(&mut self, history: &mut History) -> Result<bool, NotedStop>
        requires can { CanStep M.seen M.may_leave self.old history.old }
        ensures made { StepMade M.seen M.may_leave M.moment M.left_since M.calls result self.old self.new history.old history.new }
        ensures full { IsErrOf result NotedStop.LogFull → (w : Whole) (least : List Row) → IsAt M.seen M.may_leave self.old history.old w least → AsksSome self.old.store.control.grain self.old.script w }
        ensures lanes { KeepLanes self.old.store self.new.store }
        ensures live { self.new.live ≡ self.old.live }
        ensures counted { KeepsCount M.seen M.fault_count M.calls result self.old self.new }
    {
        match self.under_way.take() {
            None => self.begin_next(history),
            Some(way) => {
                self.go_on(way, history)?;
                Ok(true)
            }
        }
    }

    /// The next step of an entry that is under way.
    fn go_on(&mut self, way: UnderWay, history: &mut History) -> Result<(), NotedStop>
        requires at { (w : Whole) × (least : List Row) × IsDoing M.seen M.may_leave self.old way history.old w least }
        requires taken { self.old.under_way ≡ None }
        requires live { self.old.live ≡ true }
        requires room { length history.old.entries ≤ 262144 }
        ensures made { WayMade M.seen M.may_leave M.moment M.left_since M.calls result self.old way self.new history.old history.new }
        ensures lanes { KeepLanes self.old.store self.new.store }
        ensures live { self.new.live ≡ self.old.live }
        ensures counted { KeepsCount M.seen M.fault_count M.calls result self.old self.new }
    {
        if let Some(record) = way.due {
            return self.put_due(way, record);
        }
        match way.doing.next() {
            Next::Over => self.finish(way, history),
            Next::Own(part) => self.own(way, part),
            Next::Move(mv) => self.make_move(way, mv),
        }
    }

    /// Puts a record into metadata, and counts the calls that this takes before they are made.
    fn put(&mut self, note: MetaRecord) -> Result<(), NotedStop>
        requires rests { IsResting M.seen M.may_leave self.old.meta }
        requires ids { (image : ImageValue) → found M.seen self.old.meta ≡ Image image → HasGoodIds image }
        ensures rests { OnOk result (IsResting M.seen M.may_leave self.new.meta) }
        ensures found { OnOk result (found M.seen self.new.meta ≡ found_with (found M.seen self.old.meta) (note ∷ [])) }
        ensures any_moment { LeavesOnly M.moment M.left_since (disk_of self.old.meta) (disk_of self.new.meta)
            (LeavesEither (found M.seen self.old.meta) (found_with (found M.seen self.old.meta) (note ∷ []))) }
        ensures not_log { IsErrOf result NotedStop.LogFull → ⊥ }
        ensures metered { OnOk result ((m : Meter) → IsMetered M.seen self.old.meta m → IsMetered M.seen self.new.meta (with_record (room_of M.seen self.old.meta) note m)) }
        ensures calls { (m : Meter) → IsMetered M.seen self.old.meta m → self.old.calls ≡ more_calls m.calls 0 →
            self.new.calls ≡ more_calls (with_record (room_of M.seen self.old.meta) note m).calls 0 }
        ensures short { IfErr result (λ stop. IsCutShort M.seen M.calls stop self.old.meta self.new.meta (with_record (room_of M.seen self.old.meta) note)) }
        ensures counted { KeepsCount M.seen M.fault_count M.calls result self.old self.new }
        ensures others { self.new ≡ record self.old { meta = self.new.meta; calls = self.new.calls } }
    {
        let calls = calls_to_put(&self.meta, note);
        self.calls = self.calls.saturating_add(calls);
        put_record(self.alloc, &mut self.meta, note)
    }

    /// Puts the record of the last step of data.
    fn put_due(&mut self, way: UnderWay, note: MetaRecord) -> Result<(), NotedStop>
        requires at { (w : Whole) × (least : List Row) × (history : HistoryState) × IsDoing M.seen M.may_leave self.old way history w least }
        requires live { self.old.live ≡ true }
        requires due { way.due ≡ Some note }
        ensures made { (history : HistoryState) → WayMade M.seen M.may_leave M.moment M.left_since M.calls result self.old way self.new history history }
        ensures lanes { KeepLanes self.old.store self.new.store }
        ensures live { self.new.live ≡ self.old.live }
        ensures counted { KeepsCount M.seen M.fault_count M.calls result self.old self.new }
    {
        self.put(note)?;
        let UnderWay { place, doing, .. } = way;
        self.under_way = Some(UnderWay {
            place,
            doing,
            due: None,
        });
        Ok(())
    }

    /// Whether a move copies nothing: its slot has the grain on its own disk already, or the grain is lost where it would be read.
    fn copies_nothing(&self, way: &UnderWay, mv: &Move) -> bool
        requires at { (w : Whole) × (least : List Row) × (history : HistoryState) × IsDoing M.seen M.may_leave self.now way.now history w least }
        requires due { way.now.due ≡ None }
        requires next { next_of way.now.doing.steps ≡ NextMove mv.now }
        ensures { result ≡ copies_nothing (lane_in self.now.store way.now.place) way.now.doing.steps.place mv.now }
    {
        if mv.in_place {
            return true;
        }
        let lane = &self.store.all_lanes()[way.place];
        let at = way.doing.steps.place;
        match lane.cascade().holder(mv.slot, mv.grain.0) {
            Some(source) => lane.is_unreadable(lane.cascade().volume(source), at),
            None => true,
        }
    }

    /// A move. One that copies nothing calls no disk of data: its record is put before it is made.
    fn make_move(&mut self, way: UnderWay, mv: Move) -> Result<(), NotedStop>
        requires at { (w : Whole) × (least : List Row) × (history : HistoryState) × IsDoing M.seen M.may_leave self.old way history w least }
        requires live { self.old.live ≡ true }
        requires due { way.due ≡ None }
        requires next { next_of way.doing.steps ≡ NextMove mv }
        ensures made { (history : HistoryState) → WayMade M.seen M.may_leave M.moment M.left_since M.calls result self.old way self.new history history }
        ensures lanes { KeepLanes self.old.store self.new.store }
        ensures live { self.new.live ≡ self.old.live }
        ensures counted { KeepsCount M.seen M.fault_count M.calls result self.old self.new }
    {
        if !self.copies_nothing(&way, &mv) {
            self.data_step(way);
            return Ok(());
        }
        self.put(MetaRecord::Pair {
            slot: mv.slot,
            volume: mv.volume,
            grain: mv.grain,
            in_place: mv.in_place,
            empty: !mv.in_place,
        })?;
        let UnderWay {
            place,
            mut doing,
            ..
        } = way;
        self.store.step(place, &mut doing);
        self.under_way = Some(UnderWay {
            place,
            doing,
            due: None,
        });
        Ok(())
    }

    /// The write itself: it is marked first, where by metadata a row that names its volume has its grain as the same.
    fn own(&mut self, way: UnderWay, part: WritePart) -> Result<(), NotedStop>
        requires at { (w : Whole) × (least : List Row) × (history : HistoryState) × IsDoing M.seen M.may_leave self.old way history w least }
        requires live { self.old.live ≡ true }
        requires due { way.due ≡ None }
        requires next { next_of way.doing.steps ≡ Own part }
        ensures made { (history : HistoryState) → WayMade M.seen M.may_leave M.moment M.left_since M.calls result self.old way self.new history history }
        ensures lanes { KeepLanes self.old.store self.new.store }
        ensures live { self.new.live ≡ self.old.live }
        ensures counted { KeepsCount M.seen M.fault_count M.calls result self.old self.new }
    {
        let grain = way.doing.steps.grain;
        let rows = self.store.all_lanes()[way.place].changes().rows();
        let place = way.doing.steps.place;
        if !wants_mark(rows, self.marks.as_slice(), part.volume, grain, place) {
            self.data_step(way);
            return Ok(());
        }
        remember(&mut self.marks, part.volume, grain)?;
        let volume = part.volume;
        self.put(MetaRecord::Changing { volume, grain })?;
        self.under_way = Some(way);
        Ok(())
    }

    /// A step of data. Its record waits then.
    fn data_step(&mut self, way: UnderWay)
        requires at { (w : Whole) × (least : List Row) × (history : HistoryState) × IsDoing M.seen M.may_leave self.old way history w least }
        requires live { self.old.live ≡ true }
        requires due { way.due ≡ None }
        requires next { next_of way.doing.steps ≢ Over }
        requires marked { IsMarkedNext self.old way }
        requires copies { CopiesNext self.old way }
        ensures made { (history : HistoryState) → WayMade M.seen M.may_leave M.moment M.left_since M.calls done self.old way self.new history history }
        ensures lanes { KeepLanes self.old.store self.new.store }
        ensures live { self.new.live ≡ self.old.live }
        ensures counted { KeepsCount M.seen M.fault_count M.calls done self.old self.new }
    {
        let UnderWay {
            place,
            mut doing,
            ..
        } = way;
        let next = doing.next();
        let grain = doing.steps.grain;
        let end = self.store.step(place, &mut doing);
        let due = record_after(next, &end, grain);
        self.under_way = Some(UnderWay { place, doing, due });
    }

    /// The entry of steps that are over is logged.
    fn finish(&mut self, way: UnderWay, history: &mut History) -> Result<(), NotedStop>
        requires at { (w : Whole) × (least : List Row) × IsDoing M.seen M.may_leave self.old way history.old w least }
        requires live { self.old.live ≡ true }
        requires due { way.due ≡ None }
        requires over { next_of way.doing.steps ≡ Over }
        requires taken { self.old.under_way ≡ None }
        ensures made { WayMade M.seen M.may_leave M.moment M.left_since M.calls result self.old way self.new history.old history.new }
        ensures lanes { KeepLanes self.old.store self.new.store }
        ensures live { self.new.live ≡ self.old.live }
        ensures counted { KeepsCount M.seen M.fault_count M.calls result self.old self.new }
    {
        let UnderWay { place, doing, .. } = way;
        let grain = doing.steps.grain;
        let written = volume_noted(&doing);
        let entry = self.store.finish(place, doing);
        forget_noted(&mut self.marks, written, grain);
        self.log_entry(entry, history)
    }

    /// Lets the script go on behind an entry, and logs it. NoMemory where memory was wanted; the history is then as it was.
    pub(crate) fn log_entry(&mut self, entry: Entry, history: &mut History) -> Result<(), NotedStop>
        requires stands { (w : Whole) × StandsFor self.old.store w }
        requires number { entry.number ≡ length history.old.entries }
        ensures logged { OnOk result (history.new ≡ record history.old { entries = history.old.entries ++ entry ∷ [] }) }
        ensures goes { OnOk result (GoesBehind self.old.store.control.grain (StandsFor self.old.store) self.old.script entry self.new.script) }
        ensures unlogged { OnErr result (history.new ≡ history.old) }
        ensures stop { IfErr result (λ stop. stop ≡ NotedStop.NoMemory) }
        ensures others { self.new ≡ record self.old { script = self.new.script } }
    {
        self.script.answered(&self.store, &entry)?;
        log(history, entry)?;
        Ok(())
    }
}

/// The marks of a grain that an entry notes as changed are forgotten.
fn forget_noted(marks: &mut Vec<Mark>, written: Option<VolId>, grain: GrainNo)
    ensures { marks.new.items ≡ marks_left written grain marks.old.items }
{
    match written {
        Some(volume) => forget(marks, volume, grain),
        None => {}
    }
}

/// The volume whose grain an entry that is over notes as changed: it was written, or what the volume shows was torn.
fn volume_noted(doing: &Doing) -> Option<VolId>
    ensures { result ≡ volume_noted doing.now.steps }
{
    let Ask::Write(part) = doing.steps.ask else {
        return None;
    };
    match doing.steps.stop {
        None if doing.steps.written => Some(part.volume),
        Some(Stop::Failed(Some(torn))) => match torn.side {
            Side::Now => Some(torn.volume),
            Side::Under => None,
        },
        _ => None,
    }
}
