//! A session is run until a call of its disk of metadata.

ghost use Rattle.std.specs.Prelude.{◌≡◌, ◌<◌, ◌≤◌, ◌^◌, ◌+◌, ◌++◌, [], List, OnErr, OnOk, is_err, length, map, vec_capacity, vec_len, ℕ};
ghost use Rattle.std.specs.List.{All};
ghost use Rattle.fc_call.specs.Call.{Call, empty};
ghost use Rattle.fc_entry.specs.Text.{HasNames, history_text};
ghost use Rattle.fc_entry.specs.Written.{Written};
ghost use Rattle.fc_format.specs.Halves.{Image as FoundImage, half_size, recovered};
ghost use Rattle.fc_image.specs.declared.image.MetaImage.{MetaImage as Said};
ghost use Rattle.fc_legal.specs.Agenda.{Agenda};
ghost use Rattle.fc_legal.specs.Whole.{Whole};
ghost use Rattle.fc_mdisk.specs.Disk.{DiskState, IsFresh};
ghost use Rattle.fc_meta.specs.States.{room_of};
ghost use Rattle.fc_metadisk.specs.Stop.{StopLeaves, StopState, found_after, new_stop};
ghost use Rattle.fc_noted.specs.Noted.{NoHistory};
ghost use Rattle.fc_noted.specs.Stopping.{AreCounted, Leaves};
ghost use Rattle.fc_recovered.specs.Recovered.{CanRecover};
ghost use Rattle.fc_recovery_text.specs.Recovering.{IsFoundGood, IsStateFront, IsStateText, KeepDisks};
ghost use Rattle.fc_run.specs.Output.{IsWritten};
ghost use Rattle.fc_run.specs.Takes.{EachGave};
ghost use Rattle.fc_stopped.specs.Calls.{half_of_disk};
ghost use Rattle.fc_stopped.specs.Ending.{EndsUnopened, IsOpened, IsUnopened, StatePut, StatusWritten, TextEnds, all_disks, over_disks, own_disks};
ghost use Rattle.fc_stopped.specs.Far.{status_unwritten};
ghost use Rattle.fc_stopped.specs.Lines.{HasLanes};
ghost use Rattle.fc_stopped.specs.Stopped.{ComeBack, IsLeftFront, IsState, StopEnds};
ghost use Rattle.fc_stopped.specs.Text.{far_text};

use crate::countdown::Countdown;
use crate::far::{Far, far_of, put_far};
use crate::lines::NotedLines;
use crate::nowhere::Nowhere;
use fc_base::name::Name;
use fc_base::outcome::{Failed, NoMemory};
use fc_base::size::GrainSize;
use fc_call::status::Status;
use fc_entry::history::History;
use fc_entry::text::put_history;
use fc_io::sink::Sink;
use fc_io::source::Source;
use fc_marks::NotedStop;
use fc_mdisk::mdisk::Mdisk;
use fc_metadisk::StopMeta;
use fc_noted::{Noted, first_store};
use fc_recovered::LaneDisks;
use fc_recovery_text::{Unwritten, put_first_state, put_state};
use fc_run::form::Form;
use fc_run::session::run_session;
use std::alloc::Global;
use std::collections::VecDeque;
use std::mem;

/// How many bytes the disk of metadata has.
pub const META_BYTES: u32 = 67_108_864;

/// The size of a grain.
const GRAIN: GrainSize = GrainSize::K64;

/// Gives `main` its name: actor 0.
fn add_main(alloc: Global, history: &mut History) -> Result<(), NoMemory>
    requires { history.old ≡ empty }
    ensures ok { OnOk result (history.new ≡ NoHistory) }
    ensures err { OnErr result (history.new ≡ history.old) }
{
    match Name::new(alloc, b"main") {
        Ok(Some(name)) => match history.actor(alloc, &name) {
            Ok(_) => Ok(()),
            Err(refused) => Err(refused),
        },
        Ok(None) => unreachable!(),
        Err(refused) => Err(refused),
    }
}

/// Gives the disks of a lane back, into room that was taken for them.
fn give_lane<D: Mdisk>(lane: LaneDisks<D>, disks: &mut Vec<D>)
    requires room { vec_len disks.old + length lane ≤ vec_capacity disks.old }
    ensures given { map D.meaning disks.new.items ≡ map D.meaning disks.old.items ++ own_disks lane }
    ensures room { vec_capacity disks.old ≤ vec_capacity disks.new }
{
    let mut left = VecDeque::from(lane.into_vec());
    while let Some(named) = left.pop_front() {
        let _room_is_there = disks.push(named.into_disk());
    }
}

/// Gives disks back, into room that was taken for them.
fn give_back<D: Mdisk>(lanes: Vec<LaneDisks<D>>, disks: &mut Vec<D>)
    requires none { disks.old.items ≡ [] }
    requires room { length (all_disks lanes.items) ≤ vec_capacity disks.old }
    ensures { map D.meaning disks.new.items ≡ all_disks lanes.items }
{
    let mut left = VecDeque::from(lanes);
    while let Some(lane) = left.pop_front() {
        give_lane(lane, disks);
    }
}

/// Puts the text of a history, and sends on what waits.
fn put_text_alone<K: Sink>(history: &History, sink: &mut K) -> Result<(), Failed>
    requires { HasNames history.now }
    ensures { IsWritten (K.meaning sink.old) (history_text history.now) (is_err result) (K.meaning sink.new) }
{
    match put_history(history, sink) {
        Ok(()) => sink.flush(),
        Err(failed) => Err(failed),
    }
}

/// Puts the text of a history, and how far the session came.
fn put_text_and_far<K: Sink>(history: &History, far: Far, sink: &mut K) -> Result<(), Failed>
    requires { HasNames history.now }
    ensures { Written (K.meaning sink.old) (history_text history.now ++ far_text far) (is_err result) (K.meaning sink.new) }
{
    put_history(history, sink)?;
    put_far(far, sink)
}

/// The status of a call whose state wasn't written whole.
fn status_unwritten(unwritten: Unwritten) -> Status
    ensures { result ≡ status_unwritten unwritten }
{
    match unwritten {
        Unwritten::Failed => Status::WriteFault,
        Unwritten::NoMemory => Status::NoMemory,
    }
}

/// The status of a call that wrote its state, or didn't; what waits is sent on.
fn status_of<K: Sink>(written: Result<(), Unwritten>, sink: &mut K) -> Status
    ensures { StatusWritten written result (K.meaning sink.old) (K.meaning sink.new) }
{
    match written {
        Ok(()) => match sink.flush() {
            Ok(()) => Status::Done,
            Err(Failed) => Status::WriteFault,
        },
        Err(unwritten) => status_unwritten(unwritten),
    }
}

/// Ends a call whose session came so far: writes the text of the history, how far it came, and what is recovered. The disks of data
/// come back.
fn end_at<D: Mdisk, K: Sink>(
    alloc: Global,
    far: Far,
    meta: Countdown,
    lanes: Vec<LaneDisks<D>>,
    sink: &mut K,
    history: &History,
) -> (Vec<LaneDisks<D>>, Status)
    requires named { HasNames history.now }
    requires good { IsFoundGood (recovered (found_after meta)) }
    requires can { (image : Said) → recovered (found_after meta) ≡ FoundImage image → CanRecover GrainSize.K64 image lanes.items }
    ensures kept { KeepDisks lanes.items result.0.items }
    ensures put { StatePut (history_text history.now ++ far_text far) (λ text. IsStateText GrainSize.K64 (recovered (found_after meta)) lanes.items text result.0.items)
        (λ text. IsStateFront GrainSize.K64 (recovered (found_after meta)) lanes.items text result.0.items) result.1 (K.meaning sink.old) (K.meaning sink.new) }
{
    match put_text_and_far(history, far, sink) {
        Ok(()) => {
            let (lanes, written) = put_state(alloc, GRAIN, meta.after(), lanes, sink);
            (lanes, status_of(written, sink))
        }
        Err(Failed) => (lanes, Status::WriteFault),
    }
}

/// The same, of a noted store, whose disks come back as they are behind the reads.
fn end_far<D: Mdisk, K: Sink>(
    alloc: Global,
    far: Far,
    noted: Noted<D, Countdown>,
    sink: &mut K,
    disks: &mut Vec<D>,
    history: &History,
) -> Status
    requires named { HasNames history.now }
    requires left { (last : Whole) × (left : Agenda) × Leaves GrainSize.K64 StopLeaves noted last left }
    requires lanes { (old : List DiskState) × HasLanes (over_disks old) noted.store.lanes × (length old ≤ vec_capacity disks.old) }
    requires none { disks.old.items ≡ [] }
    ensures put { (call : Call) (last : Whole) (left : Agenda) → call.disks' ≡ map D.meaning disks.new.items → Leaves GrainSize.K64 StopLeaves noted last left →
        StatePut (history_text history.now ++ far_text far) (IsState call last left) (IsLeftFront call last left) result (K.meaning sink.old) (K.meaning sink.new) }
    ensures disks { (old : List DiskState) (last : Whole) → HasLanes (over_disks old) noted.store.lanes → AreCounted last noted.store.lanes →
        ComeBack result old (map D.meaning disks.new.items) last }
{
    match noted.into_disks() {
        Ok((lanes, meta)) => {
            let (lanes, status) = end_at(alloc, far, meta, lanes, sink, history);
            give_back(lanes, disks);
            status
        }
        Err((_, NoMemory)) => Status::NoMemory,
    }
}

/// Ends a call whose session ended with this status: writes the text of the history.
fn end_with<K: Sink>(status: Status, sink: &mut K, history: &History) -> Status
    requires { HasNames history.now }
    ensures { TextEnds (history_text history.now) status result (K.meaning sink.old) (K.meaning sink.new) }
{
    match put_text_alone(history, sink) {
        Ok(()) => status,
        Err(Failed) => Status::WriteFault,
    }
}

/// The same, of a noted store, whose disks come back as they are.
fn end_short<D: Mdisk, K: Sink>(
    status: Status,
    noted: Noted<D, Countdown>,
    sink: &mut K,
    disks: &mut Vec<D>,
    history: &History,
) -> Status
    requires named { HasNames history.now }
    requires lanes { (old : List DiskState) × HasLanes (over_disks old) noted.store.lanes × (length old ≤ vec_capacity disks.old) }
    requires none { disks.old.items ≡ [] }
    ensures text { TextEnds (history_text history.now) status result (K.meaning sink.old) (K.meaning sink.new) }
    ensures disks { (old : List DiskState) (last : Whole) → HasLanes (over_disks old) noted.store.lanes → AreCounted last noted.store.lanes →
        ComeBack result old (map D.meaning disks.new.items) last }
{
    let (store, _) = noted.into_store();
    store.give_disks(disks);
    end_with(status, sink, history)
}

/// Ends a call of which the first image wasn't written: there is no entry.
fn end_unopened<K: Sink>(
    alloc: Global,
    call: u32,
    meta: Countdown,
    stop: NotedStop,
    sink: &mut K,
) -> Status
    requires { IsUnopened (found_after meta) stop }
    ensures { EndsUnopened call (recovered (found_after meta)) stop result (K.meaning sink.old) (K.meaning sink.new) }
{
    let far = match stop {
        NotedStop::MetaFailed => Far::ToCall(call),
        NotedStop::MetaFull => Far::ToFull,
        NotedStop::NoMemory => return Status::NoMemory,
        NotedStop::LogFull => unreachable!(),
    };
    match put_far(far, sink) {
        Ok(()) => {
            let written = put_first_state(alloc, GRAIN, meta.after(), sink);
            status_of(written, sink)
        }
        Err(Failed) => Status::WriteFault,
    }
}

/// Runs a session over a noted store, to its end or the call at which its disk of metadata fails.
fn run_noted<D: Mdisk, S: Source, K: Sink>(
    alloc: Global,
    call: u32,
    noted: Noted<D, Countdown>,
    source: &mut S,
    sink: &mut K,
    disks: &mut Vec<D>,
    history: &mut History,
) -> Status
    requires begun { history.old ≡ NoHistory }
    requires stands { (old : List DiskState) × IsOpened noted old call × (length old ≤ vec_capacity disks.old) }
    requires none { disks.old.items ≡ [] }
    ensures ends { (old : List DiskState) → IsOpened noted old call → StopEnds call (room_of (λ (d : StopState). d.bytes) noted.meta)
        (record {
          status = result;
          source = S.meaning source.old;
          source' = S.meaning source.new;
          sink = K.meaning sink.old;
          sink' = K.meaning sink.new;
          disks = old;
          disks' = map D.meaning disks.new.items;
          history = history.new;
        }) }
    ensures takes { EachGave (S.meaning source.old) (S.meaning source.new) }
    ensures limit { length history.new.entries ≤ 262144 }
{
    let mut lines = NotedLines {
        alloc,
        noted,
        stop: None,
    };
    let ended = run_session(
        alloc,
        Form::Summary,
        source,
        &mut Nowhere,
        &mut lines,
        history,
    );
    let NotedLines { noted, stop, .. } = lines;
    match far_of(ended, stop, call) {
        Ok(far) => end_far(alloc, far, noted, sink, disks, history),
        Err(status) => end_short(status, noted, sink, disks, history),
    }
}

/// As `run_until`, over any disk of metadata that stops at this call.
pub fn run_over<D: Mdisk, S: Source, K: Sink>(
    alloc: Global,
    call: u32,
    meta: StopMeta,
    source: &mut S,
    sink: &mut K,
    disks: &mut Vec<D>,
    history: &mut History,
) -> Status
    requires empty { history.old ≡ empty }
    requires few { vec_len disks.old < 2 ^ 30 }
    requires fresh { All IsFresh (map D.meaning disks.old.items) }
    requires counted { 0 < call }
    requires zeros { (size : ℕ) × (meta ≡ new_stop size call) }
    ensures ends { StopEnds call (half_size meta.bytes)
        (record {
          status = result;
          source = S.meaning source.old;
          source' = S.meaning source.new;
          sink = K.meaning sink.old;
          sink' = K.meaning sink.new;
          disks = map D.meaning disks.old.items;
          disks' = map D.meaning disks.new.items;
          history = history.new;
        }) }
    ensures takes { EachGave (S.meaning source.old) (S.meaning source.new) }
    ensures limit { length history.new.entries ≤ 262144 }
{
    match add_main(alloc, history) {
        Ok(()) => {}
        Err(NoMemory) => return Status::NoMemory,
    }
    let count = disks.len();
    let Ok(room) = Vec::with_capacity(alloc, count) else {
        return Status::NoMemory;
    };
    let taken = mem::replace(disks, room);
    let store = match first_store(alloc, GRAIN, taken) {
        Ok(store) => store,
        Err(NoMemory) => return Status::NoMemory,
    };
    match Noted::over(alloc, store, count, Countdown::of(meta)) {
        Ok(noted) => run_noted(alloc, call, noted, source, sink, disks, history),
        Err((store, meta, stop)) => {
            store.give_disks(disks);
            end_unopened(alloc, call, meta, stop, sink)
        }
    }
}

/// Runs a session whose metadata stands on a disk that fails at this write or sync, counted from 1, and at every later one. It is
/// read to its end, or until the disk of metadata fails or is full; then the text of the entries that were acknowledged is written,
/// how far the session came, and what is recovered.
pub fn run_until<D: Mdisk, S: Source, K: Sink>(
    alloc: Global,
    call: u32,
    source: &mut S,
    sink: &mut K,
    disks: &mut Vec<D>,
    history: &mut History,
) -> Status
    requires empty { history.old ≡ empty }
    requires few { vec_len disks.old < 2 ^ 30 }
    requires fresh { All IsFresh (map D.meaning disks.old.items) }
    requires counted { 0 < call }
    ensures ends { StopEnds call half_of_disk
        (record {
          status = result;
          source = S.meaning source.old;
          source' = S.meaning source.new;
          sink = K.meaning sink.old;
          sink' = K.meaning sink.new;
          disks = map D.meaning disks.old.items;
          disks' = map D.meaning disks.new.items;
          history = history.new;
        }) }
    ensures takes { EachGave (S.meaning source.old) (S.meaning source.new) }
    ensures limit { length history.new.entries ≤ 262144 }
{
    match StopMeta::new(alloc, META_BYTES, call) {
        Ok(meta) => run_over(alloc, call, meta, source, sink, disks, history),
        Err(NoMemory) => Status::NoMemory,
    }
}
