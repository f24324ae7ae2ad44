//! The trace that a source gives, viewed.

ghost use Rattle.std.specs.Prelude.{◌≡◌, ◌≢◌, ◌<◌, ◌≤◌, ◌+◌, ◌^◌, ◌++◌, [], ◌∷◌, List, ℕ, Ok, Err, IfErr, IfOk, MatchResult, OnOk, length, take};
ghost use Rattle.fc_check.specs.Traces.{nothing_told};
ghost use Rattle.fc_reading.specs.Header.{AreFour};
ghost use Rattle.fc_trace.specs.Trace.{header_text};
ghost use Rattle.fc_entry.specs.HistoryState.{HistoryState};
ghost use Rattle.fc_entry.specs.declared.entry.Entry.{Entry};
ghost use Rattle.fc_trace.specs.declared.header.Header.{Header as ToldHeader};
ghost use Rattle.fc_view.specs.Behind.{IsBehind, IsNext, IsWant, WasShown};
ghost use Rattle.fc_view.specs.Views.{EndsAs, IsView, IsViewOf};

use crate::behind::Behind;
use crate::draw::of_canvas;
use crate::stop::ViewStop;
use fc_base::limits::MAX_ENTRIES;
use fc_base::outcome::NoMemory;
use fc_check::input::{InputEnd, take_input};
use fc_check::judge::read_next;
use fc_check::session::take_line;
use fc_drawing::canvas::Canvas;
use fc_drawing::drawing::{Seen, Sums};
use fc_io::source::Source;
use fc_reading::header::read_header;
use fc_reading_notes::notes::NotTold;
use fc_trace::header::Header;
use std::alloc::Global;

/// One entry more: it was drawn, or ends the view.
#[derive(Clone, Copy, PartialEq, Eq)]
pub enum Next {
    /// The entry is right, and was drawn where it is to be; so many bytes are its text.
    Drawn(usize),
    /// The view ends so.
    Ends(Seen),
}

/// Draws the last entry, which was read and is right, where all before it may have been told in so many ways.
fn draw_last<C: Canvas>(
    alloc: Global,
    header: &Header,
    behind: &mut Behind,
    ways: usize,
    at: Option<u64>,
    canvas: &mut C,
) -> Result<(), ViewStop>
    requires some { 0 < length behind.old.progress.history.entries }
    requires numbered { (before : List Entry) (entry : Entry) → behind.old.progress.history.entries ≡ before ++ entry ∷ [] → entry.number < 2 ^ 32 }
    requires told { behind.old.progress.candidates.ways ≢ [] }
    ensures shown { OnOk result ((before : List Entry) (entry : Entry) → behind.old.progress.history.entries ≡ before ++ entry ∷ []
        → WasShown header.now.grain ways at (length before) entry behind.old behind.new (C.drawn canvas.old) (C.drawn canvas.new)) }
    ensures progress { behind.new.progress ≡ behind.old.progress }
    ensures refused { IfErr result IsWant }
{
    match behind.go_on(alloc, header.grain, ways) {
        Ok(step) => behind.draw(alloc, header.grain, at, &step, canvas),
        Err(NoMemory) => Err(ViewStop::NoMemory),
    }
}

/// Reads the next entry from the front of the bytes, the first of which stands at this place, and draws it.
fn draw_next<C: Canvas>(
    alloc: Global,
    header: &Header,
    behind: &mut Behind,
    at: Option<u64>,
    place: usize,
    bytes: &[u8],
    canvas: &mut C,
) -> Result<Next, ViewStop>
    requires known { IsBehind header.now behind.old }
    requires room { length behind.old.progress.history.entries < 262144 }
    requires within { place + length bytes.now < 2 ^ 64 }
    ensures next { IfOk result (λ next. IsNext header.now at behind.old bytes.now place next behind.new (C.drawn canvas.old) (C.drawn canvas.new)) }
    ensures refused { IfErr result IsWant }
{
    let ways = behind.progress.candidates.len();
    match read_next(alloc, header, bytes, &mut behind.progress) {
        Ok(count) => match behind.progress.wrong {
            Some(number) => Ok(Next::Ends(Seen::Wrong(number))),
            None => match draw_last(alloc, header, behind, ways, at, canvas) {
                Ok(()) => Ok(Next::Drawn(count)),
                Err(stop) => Err(stop),
            },
        },
        Err(NotTold::Malformed(stopped)) => {
            Ok(Next::Ends(Seen::Malformed((place + stopped) as u64)))
        }
        Err(NotTold::NoMemory) => Err(ViewStop::NoMemory),
    }
}

/// How a view ends at the `s` of a session's line, which stands at this place, the first of the bytes.
fn seen_at_session(entries: usize, place: usize, bytes: &[u8]) -> Seen
    requires { place + length bytes.now < 2 ^ 64 }
    ensures { (header : ToldHeader) (history : HistoryState) → entries ≡ length history.entries → EndsAs result header history place bytes.now }
{
    match take_line(bytes) {
        Ok(_) => Seen::Right(entries as u64),
        Err(stopped) => Seen::Malformed((place + stopped) as u64),
    }
}

/// Draws the entries behind the first line, which ends at this place.
fn draw_entries<C: Canvas>(
    alloc: Global,
    header: &Header,
    behind: &mut Behind,
    start: usize,
    bytes: &[u8],
    at: Option<u64>,
    canvas: &mut C,
) -> Result<Seen, ViewStop>
    requires within { start ≤ length bytes.now }
    requires lanes { AreFour header.now.lanes }
    requires line { take start bytes.now ≡ header_text header.now.grain header.now.lanes }
    requires known { IsBehind header.now behind.old }
    requires none { behind.old.progress.history ≡ nothing_told }
    ensures { IsView result at bytes.now (C.drawn canvas.old) (C.drawn canvas.new) }
{
    let mut place = start;
    while place < bytes.len() {
        if bytes[place] == b's' {
            let told = behind.progress.history.len();
            return Ok(seen_at_session(told, place, &bytes[place..]));
        }
        if behind.progress.history.len() == MAX_ENTRIES {
            return Err(ViewStop::LogFull);
        }
        match draw_next(alloc, header, behind, at, place, &bytes[place..], canvas) {
            Ok(Next::Drawn(count)) => place += count,
            Ok(Next::Ends(seen)) => return Ok(seen),
            Err(stop) => return Err(stop),
        }
    }
    let all = behind.progress.history.len();
    Ok(Seen::Right(all as u64))
}

/// Puts all moves and the room of volumes, where all entries are right and all were to be drawn.
fn sum_up<C: Canvas>(
    behind: &Behind,
    seen: Seen,
    at: Option<u64>,
    canvas: &mut C,
) -> Result<(), ViewStop>
    ensures same { OnOk result (C.drawn canvas.new ≡ C.drawn canvas.old) }
    ensures refused { IfErr result IsWant }
{
    match (seen, at, behind.progress.candidates.first()) {
        (Seen::Right(_), None, Some(way)) => of_canvas(canvas.sum_up(Sums {
            registry: way.registry(),
            sheet: &behind.sheet,
            totals: &behind.totals,
        })),
        _ => Ok(()),
    }
}

/// What was seen, where the canvas took what was put behind it.
fn seen_where(put: Result<(), ViewStop>, seen: Seen) -> Result<Seen, ViewStop>
    ensures { MatchResult put (λ done. result ≡ Ok seen) (λ stop. result ≡ Err stop) }
{
    match put {
        Ok(()) => Ok(seen),
        Err(stop) => Err(stop),
    }
}

/// Draws the entries of a trace whose first line ends at this place, and sums up.
fn draw_trace<C: Canvas>(
    alloc: Global,
    header: &Header,
    start: usize,
    bytes: &[u8],
    at: Option<u64>,
    canvas: &mut C,
) -> Result<Seen, ViewStop>
    requires within { start ≤ length bytes.now }
    requires lanes { AreFour header.now.lanes }
    requires line { take start bytes.now ≡ header_text header.now.grain header.now.lanes }
    ensures { IsView result at bytes.now (C.drawn canvas.old) (C.drawn canvas.new) }
{
    match Behind::open(alloc, header) {
        Ok(mut behind) => {
            match draw_entries(alloc, header, &mut behind, start, bytes, at, canvas) {
                Ok(seen) => seen_where(sum_up(&behind, seen, at, canvas), seen),
                Err(stop) => Err(stop),
            }
        }
        Err(NoMemory) => Err(ViewStop::NoMemory),
    }
}

/// Draws the entries of a trace from its first line on, and sums up.
fn draw_bytes<C: Canvas>(
    alloc: Global,
    bytes: &[u8],
    at: Option<u64>,
    canvas: &mut C,
) -> Result<Seen, ViewStop>
    ensures { IsView result at bytes.now (C.drawn canvas.old) (C.drawn canvas.new) }
{
    match read_header(bytes) {
        Ok((header, start)) => draw_trace(alloc, &header, start, bytes, at, canvas),
        Err(place) => Ok(Seen::Malformed(place as u64)),
    }
}

/// Says how the view ends.
fn end_view<C: Canvas>(seen: Seen, canvas: &mut C) -> Result<(), ViewStop>
    ensures same { OnOk result (C.drawn canvas.new ≡ C.drawn canvas.old) }
    ensures refused { IfErr result IsWant }
{
    of_canvas(canvas.end(seen))
}

/// Draws the trace that these bytes are on a canvas: each of its right entries up to the first that isn't, or the one with the number
/// `at`, and says at the end where it isn't right. A line `session` ends the trace, and what stands behind it isn't looked at.
///
/// `Right` says that all entries, so many, are right; `Wrong`, which one is the first that isn't; `Malformed`, at which byte no trace
/// goes on, or that it ends too early. `LogFull` is answered where a byte other than `s` stands behind entry 262,144, `WriteFault` where
/// the canvas refuses a part, and `NoMemory` for want of memory; then a front of the drawings may have been laid out.
pub fn view_bytes<C: Canvas>(
    alloc: Global,
    bytes: &[u8],
    at: Option<u64>,
    canvas: &mut C,
) -> Result<Seen, ViewStop>
    ensures { IsView result at bytes.now (C.drawn canvas.old) (C.drawn canvas.new) }
{
    match draw_bytes(alloc, bytes, at, canvas) {
        Ok(seen) => seen_where(end_view(seen, canvas), seen),
        Err(stop) => Err(stop),
    }
}

/// Draws the trace that a source gives on a canvas, as `view_bytes` does its bytes. All of it is taken first, in pieces of at most
/// 64 KiB, at most 67,108,864 bytes, and then the byte past them is asked for. Where a call of the source failed, `ReadFault` is
/// answered, and where that byte came `TooLong`; then nothing is drawn.
pub fn view<S: Source, C: Canvas>(
    alloc: Global,
    source: &mut S,
    at: Option<u64>,
    canvas: &mut C,
) -> Result<Seen, ViewStop>
    ensures { IsViewOf result at (S.meaning source.old) (S.meaning source.new) (C.drawn canvas.old) (C.drawn canvas.new) }
{
    match take_input(alloc, source) {
        Ok(input) => match input.end {
            InputEnd::Over => view_bytes(alloc, input.bytes.as_slice(), at, canvas),
            InputEnd::Fault => Err(ViewStop::ReadFault),
            InputEnd::TooLong => Err(ViewStop::TooLong),
        },
        Err(_) => Err(ViewStop::NoMemory),
    }
}
