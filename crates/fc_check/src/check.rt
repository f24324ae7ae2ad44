//! The trace that a source gives, judged, with the session behind it, if there is one.

ghost use Rattle.std.specs.Prelude.{◌≡◌, List, ℕ, length};
ghost use Rattle.fc_check.specs.Checked.{Answers, IsChecked};
ghost use Rattle.fc_check.specs.Input.{EndsTaking, WereTaken};
ghost use Rattle.fc_check.specs.Progress.{IsJudged};
ghost use Rattle.fc_check.specs.Traces.{BeginsInput};
ghost use Rattle.fc_check.specs.Verdict.{IsSaid};
ghost use Rattle.fc_io.specs.Source.{SourceState};

use crate::input::{InputEnd, take_input};
use crate::judge::judge;
use crate::verdict::{CheckStop, Verdict};
use fc_entry::stop::Stop;
use fc_io::source::Source;
use std::alloc::Global;

/// The answer where nothing else is met in the bytes that were taken: the verdict at the end of all, or what ended them.
fn at_end(verdict: Verdict, end: InputEnd) -> Result<Verdict, CheckStop>
    ensures { (before after : SourceState) (bytes past : List ℕ) → IsSaid verdict bytes → BeginsInput bytes
        → EndsTaking end before past after → Answers result before bytes past after }
{
    match end {
        InputEnd::Over => Ok(verdict),
        InputEnd::Fault => Err(CheckStop::ReadFault),
        InputEnd::TooLong => Err(CheckStop::TooLong),
    }
}

/// The answer where this verdict is right of the bytes that were taken, so many. A byte that no input goes on with is met in them, and
/// comes before what ended them.
fn first_met(verdict: Verdict, count: usize, end: InputEnd) -> Result<Verdict, CheckStop>
    ensures { (before after : SourceState) (bytes past : List ℕ) → IsSaid verdict bytes → length bytes ≡ count
        → EndsTaking end before past after → Answers result before bytes past after }
{
    match verdict {
        Verdict::Malformed(place) => {
            if place < count as u64 {
                return Ok(Verdict::Malformed(place));
            }
            at_end(Verdict::Malformed(place), end)
        }
        Verdict::Yes(entries) => at_end(Verdict::Yes(entries), end),
        Verdict::No(number) => at_end(Verdict::No(number), end),
    }
}

/// The answer, by what is said of the bytes that were taken, so many, and by how taking them ended.
fn answer(said: Result<Verdict, Stop>, count: usize, end: InputEnd) -> Result<Verdict, CheckStop>
    ensures { (before after : SourceState) (bytes past : List ℕ) → IsJudged said bytes → length bytes ≡ count
        → EndsTaking end before past after → Answers result before bytes past after }
{
    match said {
        Ok(verdict) => first_met(verdict, count, end),
        Err(Stop::LogFull) => Err(CheckStop::LogFull),
        Err(Stop::NoMemory) => Err(CheckStop::NoMemory),
    }
}

/// Judges the trace that a source gives, and the session behind it, if there is one, as `judge` does their bytes. They are taken from
/// the source in pieces of at most 64 KiB, and at most 67,108,864; then the byte past them is asked for. Each call but the last takes
/// at least one byte.
///
/// `Yes` and `No` are said of all that the source had. What is met first in the bytes, in their order, is answered before any `No`:
/// `Malformed` at a byte of them, or at their end, where the source is at its end; `LogFull` at the first byte behind entry 262,144, if
/// it isn't the `s` of a session's line; `ReadFault` where a call of the source failed, so that its count of faults rose in this call or
/// stands at its last value; and `TooLong` at the byte past the greatest input. Where memory is wanted, `NoMemory` is answered, and
/// some bytes were taken, maybe none.
pub fn check<S: Source>(alloc: Global, source: &mut S) -> Result<Verdict, CheckStop>
    ensures { IsChecked result (S.meaning source.old) (S.meaning source.new) }
{
    match take_input(alloc, source) {
        Ok(input) => answer(
            judge(alloc, input.bytes.as_slice()),
            input.bytes.len(),
            input.end,
        ),
        Err(_) => Err(CheckStop::NoMemory),
    }
}
