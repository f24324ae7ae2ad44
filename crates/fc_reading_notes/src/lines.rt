//! The lines of what an entry did, each behind the word that begins it.

ghost use Rattle.std.specs.Prelude.{◌≡◌, ◌≤◌, ◌+◌, map};
ghost use Rattle.fc_reading.specs.Pieces.{Reads};
ghost use Rattle.fc_reading.specs.Readers.{one_of_at};
ghost use Rattle.fc_reading_notes.specs.Answers.{ReadsOr};
ghost use Rattle.fc_reading_notes.specs.Lines.{calls_at, count_at, effect_at, ending_at, first_ends, id_at, kept_at, last_at, last_ends, move_at, pair_at, pairs_at, range_at, ranges_at, state_at, state_of, torn_at};

use crate::between::between;
use crate::stop::ReadStop;
use fc_base::ids::{GrainNo, MapId, SlotId, VolId};
use fc_base::list::List;
use fc_base::ranges::{Range, Ranges};
use fc_base::request::{Effect, Move, Pair, Side, Torn};
use fc_base::state::MapState;
use fc_reading::pieces::{Malformed, field, number, one_of, word};
use std::alloc::Global;

/// What an entry of a lane cost.
#[derive(Clone, Copy)]
pub struct LaneCalls {
    /// The reads and writes that the entry made on disks.
    pub calls: u32,
    /// The faults of all disks that the lane ever had, as the entry began.
    pub faults_before: u64,
    /// The same as the entry ended.
    pub faults_after: u64,
}

/// The greatest number of 32 bits.
const MOST: u64 = 4_294_967_295;

/// Takes a number of 32 bits from the front, and the word that must stand behind it.
pub fn take_id<'a>(behind: &[u8], bytes: &'a [u8]) -> Result<(u32, &'a [u8]), Malformed>
    ensures { Reads (λ found. (found.0, found.1.now)) result (id_at behind.now bytes.now) }
{
    let (value, rest) = field(MOST, behind, bytes)?;
    Ok((value as u32, rest))
}

/// Takes a number of 64 bits from the front, and the word that must stand behind it.
pub fn take_count<'a>(behind: &[u8], bytes: &'a [u8]) -> Result<(u64, &'a [u8]), Malformed>
    ensures { Reads (λ found. (found.0, found.1.now)) result (count_at behind.now bytes.now) }
{
    field(u64::MAX, behind, bytes)
}

/// Takes a number of 32 bits from the front, and one of some words behind it, by its number.
pub fn take_ending<'a>(
    words: &[&[u8]],
    bytes: &'a [u8],
) -> Result<(u32, usize, &'a [u8]), Malformed>
    ensures { Reads (λ found. ((found.0, found.1), found.2.now)) result (ending_at (map (λ word. word.now) words.now) bytes.now) }
{
    let (value, rest) = number(MOST, bytes)?;
    let (end, rest) = one_of(words, rest)?;
    Ok((value as u32, end, rest))
}

/// Takes the line of the calls and faults of an entry of a lane.
pub(crate) fn take_calls(bytes: &[u8]) -> Result<(LaneCalls, &[u8]), Malformed>
    ensures { Reads (λ found. (found.0, found.1.now)) result (calls_at bytes.now) }
{
    let rest = word(b"+ calls ", bytes)?;
    let (calls, rest) = take_id(b" faults ", rest)?;
    let (faults_before, rest) = take_count(b" ", rest)?;
    let (faults_after, rest) = take_count(b"\n", rest)?;
    let found = LaneCalls {
        calls,
        faults_before,
        faults_after,
    };
    Ok((found, rest))
}

/// Takes a move.
pub(crate) fn take_move(bytes: &[u8]) -> Result<(Move, &[u8]), Malformed>
    ensures { Reads (λ found. (found.0, found.1.now)) result (move_at bytes.now) }
{
    let (slot, rest) = take_count(b" ", bytes)?;
    let (volume, rest) = take_id(b" ", rest)?;
    let (grain, end, rest) = take_ending(&[b"\n", b" in place\n"], rest)?;
    let made = Move {
        slot: SlotId(slot),
        volume: VolId(volume),
        grain: GrainNo(grain),
        in_place: end == 1,
    };
    Ok((made, rest))
}

/// Takes a torn grain.
pub(crate) fn take_torn(bytes: &[u8]) -> Result<(Torn, &[u8]), Malformed>
    ensures { Reads (λ found. (found.0, found.1.now)) result (torn_at bytes.now) }
{
    let (volume, rest) = take_id(b" ", bytes)?;
    let (grain, rest) = take_id(b" ", rest)?;
    let (side, rest) = one_of(&[b"now\n", b"under\n"], rest)?;
    let torn = Torn {
        volume: VolId(volume),
        grain: GrainNo(grain),
        side: if side == 0 { Side::Now } else { Side::Under },
    };
    Ok((torn, rest))
}

/// The state with this number, in the order in which they are declared.
pub fn state_of(number: usize) -> MapState
    ensures { result ≡ state_of number }
{
    match number {
        0 => MapState::Empty,
        1 => MapState::IdleOrCopied,
        2 => MapState::Preparing,
        3 => MapState::Prepared,
        4 => MapState::Copying,
        5 => MapState::Stopping,
        _ => MapState::Stopped,
    }
}

/// Takes a state and the end of its line.
pub fn take_state(bytes: &[u8]) -> Result<(MapState, &[u8]), Malformed>
    ensures { Reads (λ found. (found.0, found.1.now)) result (state_at bytes.now) }
{
    let words: [&[u8]; 7] = [
        b"empty\n",
        b"idle_or_copied\n",
        b"preparing\n",
        b"prepared\n",
        b"copying\n",
        b"stopping\n",
        b"stopped\n",
    ];
    let (state, rest) = one_of(&words, bytes)?;
    Ok((state_of(state), rest))
}

/// Takes a pair of a trigger, and says whether one more follows.
fn take_pair(bytes: &[u8]) -> Result<(Pair, bool, &[u8]), Malformed>
    ensures { Reads (λ found. ((found.0, found.1), found.2.now)) result (pair_at bytes.now) }
{
    let (map, rest) = take_id(b":", bytes)?;
    let (source, rest) = take_id(b">", rest)?;
    let (target, end, rest) = take_ending(&[b"\n", b" ", b"i\n", b"i "], rest)?;
    let pair = Pair {
        map: MapId(map),
        source: VolId(source),
        target: VolId(target),
        incremental: end >= 2,
    };
    Ok((pair, end == 1 || end == 3, rest))
}

/// Takes the pairs of a trigger, one at least.
fn take_pairs(alloc: Global, bytes: &[u8]) -> Result<(List<Pair>, &[u8]), ReadStop>
    ensures { ReadsOr (λ found. (found.0, found.1.now)) result (pairs_at bytes.now) }
{
    let mut pairs = List::new(alloc);
    let mut rest = bytes;
    for _ in 0..bytes.len() {
        match take_pair(rest) {
            Ok((pair, more, behind)) => {
                pairs.push(pair)?;
                if !more {
                    return Ok((pairs, behind));
                }
                rest = behind;
            }
            Err(stopped) => return Err(ReadStop::Malformed(stopped)),
        }
    }
    Err(ReadStop::Malformed(Malformed { left: rest.len() }))
}

/// Takes what stands behind a grain that may begin a range: the end of the line, a dash, or a comma, by its
/// number. A dash or a comma stands there only where a grain behind it has room.
fn take_first_end(first: u32, bytes: &[u8]) -> Result<(usize, &[u8]), Malformed>
    ensures { Reads (λ found. (found.0, found.1.now)) result (one_of_at (first_ends first) bytes.now) }
{
    if first == u32::MAX {
        one_of(&[b"\n"], bytes)
    } else if first == u32::MAX - 1 {
        one_of(&[b"\n", b"-"], bytes)
    } else {
        one_of(&[b"\n", b"-", b","], bytes)
    }
}

/// Takes what stands behind the last grain of a range: the end of the line or a comma, by its number. A comma
/// stands there only where a grain behind it has room.
fn take_last_end(last: u32, bytes: &[u8]) -> Result<(usize, &[u8]), Malformed>
    ensures { Reads (λ found. (found.0, found.1.now)) result (one_of_at (last_ends last) bytes.now) }
{
    if last >= u32::MAX - 1 {
        one_of(&[b"\n"], bytes)
    } else {
        one_of(&[b"\n", b","], bytes)
    }
}

/// Takes the last grain of a range behind its first, and says whether one more range follows.
fn take_last(first: u32, bytes: &[u8]) -> Result<(Range, bool, &[u8]), Malformed>
    requires { first + 1 ≤ 4294967295 }
    ensures { Reads (λ found. ((found.0, found.1), found.2.now)) result (last_at first bytes.now) }
{
    let (last, rest) = between(u64::from(first) + 1, MOST, bytes)?;
    let last = last as u32;
    let (end, rest) = take_last_end(last, rest)?;
    Ok((Range { first, last }, end == 1, rest))
}

/// Takes a range of grains, the first of them no less than `least`, and says whether one more range follows.
fn take_range(least: u32, bytes: &[u8]) -> Result<(Range, bool, &[u8]), Malformed>
    ensures { Reads (λ found. ((found.0, found.1), found.2.now)) result (range_at least bytes.now) }
{
    let (first, rest) = between(u64::from(least), MOST, bytes)?;
    let first = first as u32;
    let (end, rest) = take_first_end(first, rest)?;
    if end == 1 {
        take_last(first, rest)
    } else {
        Ok((Range { first, last: first }, end == 2, rest))
    }
}

/// Takes ranges of grains, one at least, rising and never touching.
fn take_ranges(alloc: Global, bytes: &[u8]) -> Result<(Ranges, &[u8]), ReadStop>
    ensures { ReadsOr (λ found. (found.0, found.1.now)) result (ranges_at bytes.now) }
{
    let mut ranges = Ranges::new(alloc);
    let mut rest = bytes;
    let mut least = 0;
    for _ in 0..bytes.len() {
        match take_range(least, rest) {
            Ok((range, more, behind)) => {
                ranges.push(range)?;
                if !more {
                    return Ok((ranges, behind));
                }
                least = range.last + 2;
                rest = behind;
            }
            Err(stopped) => return Err(ReadStop::Malformed(stopped)),
        }
    }
    Err(ReadStop::Malformed(Malformed { left: rest.len() }))
}

/// Takes the grains that a volume keeps, and the end of their line.
fn take_kept(alloc: Global, bytes: &[u8]) -> Result<(Ranges, &[u8]), ReadStop>
    ensures { ReadsOr (λ found. (found.0, found.1.now)) result (kept_at bytes.now) }
{
    if !bytes.is_empty() && bytes[0] == b'n' {
        let rest = word(b"none\n", bytes)?;
        Ok((Ranges::new(alloc), rest))
    } else {
        take_ranges(alloc, bytes)
    }
}

/// Takes a volume that came, and its grains.
fn take_made(bytes: &[u8]) -> Result<(Effect, &[u8]), ReadStop>
    ensures { ReadsOr (λ found. (found.0, found.1.now)) result (effect_at 0 bytes.now) }
{
    let (volume, rest) = take_id(b" ", bytes)?;
    let (grains, rest) = take_id(b"\n", rest)?;
    let effect = Effect::Make {
        volume: VolId(volume),
        grains,
    };
    Ok((effect, rest))
}

/// Takes a cut.
fn take_cut(alloc: Global, bytes: &[u8]) -> Result<(Effect, &[u8]), ReadStop>
    ensures { ReadsOr (λ found. (found.0, found.1.now)) result (effect_at 4 bytes.now) }
{
    let (volume, rest) = take_id(b" ", bytes)?;
    match take_kept(alloc, rest) {
        Ok((kept, rest)) => {
            let volume = VolId(volume);
            Ok((Effect::Cut { volume, kept }, rest))
        }
        Err(stop) => Err(stop),
    }
}

/// Takes a mapping's new state.
fn take_new_state(bytes: &[u8]) -> Result<(Effect, &[u8]), ReadStop>
    ensures { ReadsOr (λ found. (found.0, found.1.now)) result (effect_at 5 bytes.now) }
{
    let (map, rest) = take_id(b" ", bytes)?;
    let (state, rest) = take_state(rest)?;
    let effect = Effect::State {
        map: MapId(map),
        state,
    };
    Ok((effect, rest))
}

/// Takes an effect behind its word, which is told by its number.
pub(crate) fn take_effect(
    alloc: Global,
    word: usize,
    bytes: &[u8],
) -> Result<(Effect, &[u8]), ReadStop>
    ensures { ReadsOr (λ found. (found.0, found.1.now)) result (effect_at word bytes.now) }
{
    match word {
        0 => take_made(bytes),
        1 => {
            let (volume, rest) = take_id(b"\n", bytes)?;
            Ok((
                Effect::Remove {
                    volume: VolId(volume),
                },
                rest,
            ))
        }
        2 => {
            let pairs = List::new(alloc);
            Ok((Effect::Trigger { pairs }, bytes))
        }
        3 => match take_pairs(alloc, bytes) {
            Ok((pairs, rest)) => Ok((Effect::Trigger { pairs }, rest)),
            Err(stop) => Err(stop),
        },
        4 => take_cut(alloc, bytes),
        5 => take_new_state(bytes),
        _ => {
            let (map, rest) = take_id(b"\n", bytes)?;
            Ok((Effect::Gone { map: MapId(map) }, rest))
        }
    }
}
