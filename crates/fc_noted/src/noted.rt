//! The noted store: how it begins, which line it answers, and its end.

ghost use Rattle.std.specs.Prelude.{◌≡◌, ◌≢◌, ◌<◌, ◌^◌, [], Err, IfErr, IfOk, List, Ok, OnErr, OnOk, length, map, replicate, true, vec_len};
ghost use Rattle.std.specs.List.{All};
ghost use Rattle.fc_base.specs.Count.{HasRisen};
ghost use Rattle.fc_changed.specs.Row.{Row};
ghost use Rattle.fc_entry.specs.HistoryState.{HistoryState};
ghost use Rattle.fc_lanes.specs.Dealing.{Begin, all_dealt, pools_dealt};
ghost use Rattle.fc_legal.specs.Agenda.{line_read};
ghost use Rattle.fc_legal.specs.Whole.{Whole, opened};
ghost use Rattle.fc_marks.specs.Stops.{stop_of_meta};
ghost use Rattle.fc_mdisk.specs.Disk.{DiskState, IsFresh};
ghost use Rattle.fc_marks.specs.Meter.{IsCalledUpTo};
ghost use Rattle.fc_meta.specs.Answers.{more_calls};
ghost use Rattle.fc_meta.specs.States.{room_of};
ghost use Rattle.fc_format.specs.Halves.{half_size};
ghost use Rattle.fc_metadisk.specs.Disk.{LeavesOnly, Only};
ghost use Rattle.fc_held.specs.Held.{HaveVolumes, HoldAllOf};
ghost use Rattle.fc_noted.specs.Metered.{FirstPasses};
ghost use Rattle.fc_noted.specs.Noted.{BeginsOver, IsNotedAt, NoHistory};
ghost use Rattle.fc_noted.specs.Stopping.{LeavesFirst, opened_meta, over_meta};
ghost use Rattle.fc_script.specs.Passage.{GoesOn};
ghost use Rattle.fc_script.specs.Script.{agenda_of};
ghost use Rattle.fc_stands.specs.Store.{StandsFor};

use fc_base::command::Line;
use fc_base::fault::WordFault;
use fc_base::limits::LANES;
use fc_base::outcome::NoMemory;
use fc_base::size::GrainSize;
use fc_desk::Control;
use fc_held::all_named;
use fc_image::MetaRecord;
use fc_imaging::image_of;
use fc_lane::doing::Doing;
use fc_lanes::deal::{deal, make_lanes};
use fc_marks::{Mark, NotedStop};
use fc_mdisk::mdisk::Mdisk;
use fc_meta::{Meta, MetaError};
use fc_metadisk::MetaDisk;
use fc_recovered::LaneDisks;
use fc_script::script::Script;
use fc_store::store::Store;
use std::alloc::Global;

/// An entry that is under way in a lane.
#[derive(Drop)]
pub struct UnderWay {
    /// The lane, by its place.
    pub place: usize,
    /// Its steps, and how far they came.
    pub doing: Doing,
    /// The record of its last step, until it is put into metadata.
    pub due: Option<MetaRecord>,
}

/// A store with the writer of its metadata.
#[derive(Drop)]
pub struct Noted<D: Mdisk, M: MetaDisk> {
    pub(crate) alloc: Global,
    pub(crate) store: Store<D>,
    pub(crate) meta: Meta<M>,
    // the writes that were marked and not done, since metadata was last made anew
    pub(crate) marks: Vec<Mark>,
    // the id that the next volume gets by metadata: the disks of volumes from it on have no name
    pub(crate) named: u32,
    // how many disks of data all lanes have
    pub(crate) disks: usize,
    // what the line at hand still asks
    pub(crate) script: Script,
    // the entry that is under way
    pub(crate) under_way: Option<UnderWay>,
    // whether steps may be made: no error came yet
    pub(crate) live: bool,
    // how many writes and syncs metadata has cost, those of a step that failed included
    pub(crate) calls: u64,
}

impl<D: Mdisk, M: MetaDisk> Noted<D, M> {
    /// A noted store without volumes, over fresh disks, which are dealt to the lanes in turn, and over a disk of zeros for its
    /// metadata, on which the first image is written. Refused, the disks of data are gone; that of metadata comes back, and stands
    /// for no image or for the first one.
    pub fn open(
        alloc: Global,
        grain: GrainSize,
        disks: Vec<D>,
        disk: M,
    ) -> Result<Noted<D, M>, (M, NotedStop)>
        requires few { vec_len disks < 2 ^ 30 }
        requires fresh { All IsFresh (map D.meaning disks.items) }
        requires zeros { M.seen disk ≡ replicate (length (M.seen disk)) 0 }
        requires synced { Only (M.seen disk) (M.may_leave disk) }
        ensures noted { IfOk result (λ n. IsNotedAt M.seen M.may_leave n NoHistory (opened (pools_dealt LANES (map D.meaning disks.items))) []) }
        ensures live { IfOk result (λ n. n.live ≡ true) }
        ensures any_moment { LeavesOnly M.moment M.left_since disk (opened_meta result) LeavesFirst }
    {
        let count = disks.len();
        let store = match first_store(alloc, grain, disks) {
            Ok(store) => store,
            Err(NoMemory) => return Err((disk, NotedStop::NoMemory)),
        };
        match Noted::over(alloc, store, count, disk) {
            Ok(noted) => Ok(noted),
            Err((_, disk, stop)) => Err((disk, stop)),
        }
    }

    /// As `open`, over a store that `first_store` made of so many disks. Refused, the store comes back, and the disk of metadata.
    pub fn over(
        alloc: Global,
        store: Store<D>,
        count: usize,
        disk: M,
    ) -> Result<Noted<D, M>, (Store<D>, M, NotedStop)>
        requires begins { (disks : List DiskState) × BeginsOver count disks store }
        requires zeros { M.seen disk ≡ replicate (length (M.seen disk)) 0 }
        requires synced { Only (M.seen disk) (M.may_leave disk) }
        ensures noted { IfOk result (λ n. (disks : List DiskState) → BeginsOver count disks store → IsNotedAt M.seen M.may_leave n NoHistory (opened (pools_dealt LANES disks)) []) }
        ensures store { IfOk result (λ n. n.store ≡ store) }
        ensures live { IfOk result (λ n. n.live ≡ true) }
        ensures any_moment { LeavesOnly M.moment M.left_since disk (over_meta result) LeavesFirst }
        ensures counted { IfOk result (λ n. (n.calls ≡ 4) × (M.calls n.meta.disk ≡ more_calls 4 (M.calls disk)) × (M.fault_count n.meta.disk ≡ M.fault_count disk)
            × (room_of M.seen n.meta ≡ half_size (M.seen disk))) }
        ensures within { IfErr result (λ e. e.2 ≡ NotedStop.MetaFailed → IsCalledUpTo 4 (M.calls disk) (M.calls e.1)) }
        ensures failed { IfErr result (λ e. e.2 ≡ NotedStop.MetaFailed → HasRisen (M.fault_count disk) (M.fault_count e.1)) }
        ensures full { IfErr result (λ e. e.2 ≡ NotedStop.MetaFull → FirstPasses (half_size (M.seen disk))) }
        ensures back { IfErr result (λ e. e.0 ≡ store) }
        ensures not_log { IfErr result (λ e. e.2 ≢ NotedStop.LogFull) }
    {
        let image = match image_of(alloc, store.control(), store.all_lanes()) {
            Ok(image) => image,
            Err(NoMemory) => return Err((store, disk, NotedStop::NoMemory)),
        };
        match Meta::open(alloc, disk, &image) {
            Ok(meta) => Ok(Noted {
                alloc,
                store,
                meta,
                marks: Vec::new(alloc),
                named: image.next_volume,
                disks: count,
                script: Script::Over,
                under_way: None,
                live: true,
                calls: 4,
            }),
            Err((disk, error)) => Err((store, disk, stop_of(error))),
        }
    }

    /// Takes up a line, which `make_step` then answers. Nothing may be left of the line before. Refused, for want of memory alone,
    /// nothing was done.
    pub fn begin_line(&mut self, line: Line) -> Result<(), NoMemory>
        requires at { (history : HistoryState) × (w : Whole) × (least : List Row) × IsNotedAt M.seen M.may_leave self.old history w least }
        ensures line { OnOk result ((w : Whole) → StandsFor self.old.store w →
            GoesOn self.old.store.control.grain w (line_read self.old.store.control.grain w (Ok line) []) (agenda_of self.old.store.control.grain self.new.script)) }
        ensures refused { OnErr result (self.new ≡ self.old) }
        ensures at { (history : HistoryState) (w : Whole) (least : List Row) → IsNotedAt M.seen M.may_leave self.old history w least → IsNotedAt M.seen M.may_leave self.new history w least }
        ensures others { self.new ≡ record self.old { script = self.new.script } }
    {
        match Script::of_line(&self.store, line) {
            Ok(script) => {
                self.script = script;
                Ok(())
            }
            Err(NoMemory) => Err(NoMemory),
        }
    }

    /// Takes up a line with this fault in its words, which `make_step` then tells. Nothing may be left of the line before.
    pub fn begin_unread(&mut self, fault: WordFault)
        requires at { (history : HistoryState) × (w : Whole) × (least : List Row) × IsNotedAt M.seen M.may_leave self.old history w least }
        ensures line { (w : Whole) → StandsFor self.old.store w →
            GoesOn self.old.store.control.grain w (line_read self.old.store.control.grain w (Err fault) []) (agenda_of self.old.store.control.grain self.new.script) }
        ensures at { (history : HistoryState) (w : Whole) (least : List Row) → IsNotedAt M.seen M.may_leave self.old history w least → IsNotedAt M.seen M.may_leave self.new history w least }
        ensures others { self.new ≡ record self.old { script = self.new.script } }
    {
        self.script = Script::Unread(fault);
    }

    /// The store.
    pub fn store(&self) -> &Store<D>
        ensures { result.now ≡ self.now.store }
    {
        &self.store
    }

    /// Whether steps may be made: no error came yet.
    pub fn is_live(&self) -> bool
        ensures { result ≡ self.now.live }
    {
        self.live
    }

    /// The store, and the disk of metadata. It takes no memory.
    pub fn into_store(self) -> (Store<D>, M)
        ensures store { result.0 ≡ self.store }
        ensures meta { result.1 ≡ self.meta.disk }
    {
        let Noted { store, meta, .. } = self;
        (store, meta.into_disk())
    }

    /// The disks of data lane by lane, each with the name of its volume, and the disk of metadata. The disk of a volume that metadata
    /// doesn't know yet has no name.
    ///
    /// Want of memory alone refuses, and then the disks of data are gone.
    pub fn into_disks(self) -> Result<(Vec<LaneDisks<D>>, M), (M, NoMemory)>
        requires { HaveVolumes self.disks self.store }
        ensures held { IfOk result (λ back. HoldAllOf self.named self.store.lanes back.0.items) }
        ensures meta { IfOk result (λ back. back.1 ≡ self.meta.disk) }
        ensures refused { IfErr result (λ back. back.0 ≡ self.meta.disk) }
    {
        let Noted {
            alloc,
            store,
            meta,
            named,
            disks,
            ..
        } = self;
        match all_named(alloc, store, named, disks) {
            Ok(back) => Ok((back, meta.into_disk())),
            Err(NoMemory) => Err((meta.into_disk(), NoMemory)),
        }
    }
}

/// A store without volumes, whose lanes begin over these disks, which are dealt to them in turn. Refused, the disks are gone.
pub fn first_store<D: Mdisk>(
    alloc: Global,
    grain: GrainSize,
    disks: Vec<D>,
) -> Result<Store<D>, NoMemory>
    requires few { vec_len disks < 2 ^ 30 }
    requires fresh { All IsFresh (map D.meaning disks.items) }
    ensures stands { IfOk result (λ s. StandsFor s (opened (pools_dealt LANES (map D.meaning disks.items)))) }
    ensures grain { IfOk result (λ s. s.control.grain ≡ grain) }
    ensures begin { IfOk result (λ s. Begin grain LANES (all_dealt LANES (map D.meaning disks.items)) s.lanes) }
{
    let lists = match deal(alloc, LANES as usize, disks) {
        Ok(lists) => lists,
        Err(NoMemory) => return Err(NoMemory),
    };
    let lanes = match make_lanes(alloc, grain, lists) {
        Ok(lanes) => lanes,
        Err(NoMemory) => return Err(NoMemory),
    };
    Ok(Store::from_parts_in(alloc, Control::new(alloc, grain), lanes))
}

/// The stop of an error of the writer.
fn stop_of(error: MetaError) -> NotedStop
    ensures { result ≡ stop_of_meta error }
{
    NotedStop::from(error)
}
