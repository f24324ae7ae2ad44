//! A trace that is given as bytes, with a session behind it, if there is one, judged entry by entry.

ghost use Rattle.std.specs.Prelude.{◌≡◌, ◌≤◌, ◌<◌, ◌+◌, ◌↔◌, [], ◌∷◌, ◌++◌, List, ℕ, length, take, IfErr, IfOk, IfSome, IsTrue, None, OnOk};
ghost use Rattle.fc_check.specs.Progress.{IsJudged, IsProgress};
ghost use Rattle.fc_check.specs.Traces.{IsTraceOf, nothing_told};
ghost use Rattle.fc_check.specs.Verdict.{IsSaid};
ghost use Rattle.fc_check_follow.specs.Ways.{AreAfter};
ghost use Rattle.fc_entry.specs.declared.entry.Entry.{Entry};
ghost use Rattle.fc_reading.specs.Header.{AreFour};
ghost use Rattle.fc_reading.specs.Stops.{StopsAt};
ghost use Rattle.fc_reading_entries.specs.Entries.{IsEntryText, ReadNext};
ghost use Rattle.fc_reading_notes.specs.Told.{IfMalformed};
ghost use Rattle.fc_trace.specs.Trace.{header_text};
ghost use Rattle.fc_trace.specs.declared.header.Header.{Header};

use crate::session::judge_session;
use crate::verdict::Verdict;
use fc_base::limits::MAX_ENTRIES;
use fc_base::outcome::NoMemory;
use fc_check_follow::Candidates;
use fc_entry::history::History;
use fc_entry::stop::Stop;
use fc_reading::header::read_header;
use fc_reading_entries::entries::read_entry;
use fc_reading_notes::notes::NotTold;
use fc_trace::header::Header;
use std::alloc::Global;

/// What is known of a trace as far as it was read.
#[derive(Drop)]
pub struct Progress {
    /// Its entries.
    pub history: History,
    /// All that may be told after them, where all are right.
    pub candidates: Candidates,
    /// The first that isn't right.
    pub wrong: Option<u64>,
}

impl Progress {
    /// What is known behind the first line. Refused for want of memory alone.
    pub fn open(alloc: Global, header: &Header) -> Result<Progress, NoMemory>
        ensures progress { IfOk result (λ progress. IsProgress header.now progress) }
        ensures none { IfOk result (λ progress. progress.history ≡ nothing_told) }
    {
        match Candidates::open(alloc, header.grain, &header.lanes) {
            Ok(candidates) => Ok(Progress {
                history: History::new(alloc),
                candidates,
                wrong: None,
            }),
            Err(refused) => Err(refused),
        }
    }

    /// What is said where the bytes end with the trace.
    fn verdict(&self) -> Verdict
        ensures { (header : Header) (bytes : List ℕ) → IsProgress header self.now → IsTraceOf header self.now.history bytes → IsSaid result bytes }
    {
        match self.wrong {
            Some(number) => Verdict::No(number),
            None => Verdict::Yes(self.history.len() as u64),
        }
    }
}

/// Goes on behind the last entry, and answers whether it isn't right. Where memory is wanted, the candidates may stand for anything.
fn follow_last(
    alloc: Global,
    history: &History,
    candidates: &mut Candidates,
) -> Result<bool, NoMemory>
    requires some { 0 < length history.now.entries }
    requires room { candidates.old.entries < 262144 }
    ensures after { OnOk result ((before : List Entry) (entry : Entry) → history.now.entries ≡ before ++ entry ∷ []
        → AreAfter candidates.old.grain candidates.old.ways entry candidates.new.ways) }
    ensures grain { OnOk result (candidates.new.grain ≡ candidates.old.grain) }
    ensures counted { OnOk result (candidates.new.entries ≡ candidates.old.entries + 1) }
    ensures wrong { IfOk result (λ wrong. IsTrue wrong ↔ (candidates.new.ways ≡ [])) }
{
    match candidates.follow(alloc, history.entry(history.len() - 1)) {
        Ok(()) => Ok(candidates.is_empty()),
        Err(refused) => Err(refused),
    }
}

/// Reads the next entry from the front of the bytes, and follows it where all before it are right: its length. Refused with the place
/// of the first byte with which no such entry goes on, what is known is as it was; for want of memory it may be anything.
pub fn read_next(
    alloc: Global,
    header: &Header,
    bytes: &[u8],
    progress: &mut Progress,
) -> Result<usize, NotTold>
    requires known { IsProgress header.now progress.old }
    requires room { length progress.old.history.entries < 262144 }
    ensures within { IfOk result (λ count. count ≤ length bytes.now) }
    ensures read { IfOk result (λ count. ReadNext header.now.grain progress.old.history bytes.now count progress.new.history) }
    ensures known { OnOk result (IsProgress header.now progress.new) }
    ensures named { OnOk result (progress.old.wrong ≡ None → IfSome progress.new.wrong (λ number. number ≡ length progress.old.history.entries)) }
    ensures malformed { IfErr result (λ stop. IfMalformed stop
        (StopsAt (IsEntryText header.now.grain (length progress.old.history.entries)) bytes.now)) }
{
    match read_entry(alloc, header.grain, &mut progress.history, bytes) {
        Ok(count) => match progress.wrong {
            Some(_) => Ok(count),
            None => match follow_last(alloc, &progress.history, &mut progress.candidates) {
                Ok(false) => Ok(count),
                Ok(true) => {
                    progress.wrong = Some((progress.history.len() - 1) as u64);
                    Ok(count)
                }
                Err(NoMemory) => Err(NotTold::NoMemory),
            },
        },
        Err(stop) => Err(stop),
    }
}

/// Judges the entries behind the first line, which ends at this place.
fn judge_entries(
    alloc: Global,
    header: &Header,
    start: usize,
    bytes: &[u8],
) -> Result<Verdict, Stop>
    requires within { start ≤ length bytes.now }
    requires lanes { AreFour header.now.lanes }
    requires line { take start bytes.now ≡ header_text header.now.grain header.now.lanes }
    ensures { IsJudged result bytes.now }
{
    let mut progress = match Progress::open(alloc, header) {
        Ok(progress) => progress,
        Err(NoMemory) => return Err(Stop::NoMemory),
    };
    let mut place = start;
    while place < bytes.len() {
        if bytes[place] == b's' {
            return judge_session(alloc, header, &progress.history, place, bytes);
        }
        if progress.history.len() == MAX_ENTRIES {
            return Err(Stop::LogFull);
        }
        match read_next(alloc, header, &bytes[place..], &mut progress) {
            Ok(count) => place += count,
            Err(NotTold::Malformed(stopped)) => {
                return Ok(Verdict::Malformed((place + stopped) as u64));
            }
            Err(NotTold::NoMemory) => return Err(Stop::NoMemory),
        }
    }
    Ok(progress.verdict())
}

/// Judges the bytes of a trace, behind which a line `session` and the bytes of a session may stand. At the place of an entry an `s` begins
/// that line; behind it any bytes may stand, and a block that isn't ended at their end is left out.
///
/// Without a session, `Yes` says that the entries, so many, are those of a legal history of a store over the disks of the first line;
/// `No`, which entry is the first that isn't right after those before it. With a session, `Yes` says that they are a whole run of its
/// lines and blocks over such a store, each actor known by its name; `No`, which entry is the first that can't stand there in a run of
/// them, or, where all can and a line remains, how many entries there are. `Malformed` says that the bytes are no trace with or without
/// a session: the place of the first byte with which none goes on, or their end.
///
/// A wrong entry doesn't stop the reading, so `No` is said of a whole trace alone. Nothing is said where a byte other than `s` stands
/// behind entry 262,144 (`LogFull`), nor for want of memory.
pub fn judge(alloc: Global, bytes: &[u8]) -> Result<Verdict, Stop>
    ensures { IsJudged result bytes.now }
{
    match read_header(bytes) {
        Ok((header, start)) => judge_entries(alloc, &header, start, bytes),
        Err(place) => Ok(Verdict::Malformed(place as u64)),
    }
}
