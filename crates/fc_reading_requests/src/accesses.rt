//! Accesses of hosts, copies and cleanings, and workers' turns.

ghost use Rattle.std.specs.Prelude.{◌≡◌, [], ◌∷◌};
ghost use Rattle.fc_reading.specs.Pieces.{Reads};
ghost use Rattle.fc_reading.specs.Readers.{field_at};
ghost use Rattle.fc_reading_notes.specs.Answers.{ReadsOr};
ghost use Rattle.fc_reading_requests.specs.Asked.{last_block};
ghost use Rattle.fc_reading_requests.specs.Lines.{behind_access, lane_at, two_at};

use crate::asked::Asked;
use crate::parts::{MOST, take_byte_and, take_field, take_object_and};
use fc_base::ids::{GrainNo, MapId};
use fc_base::name::Ref;
use fc_reading::pieces::{Malformed, field};
use fc_reading_notes::stop::ReadStop;
use std::alloc::Global;

/// Takes two numbers, and the arrow.
pub(crate) fn take_two(bytes: &[u8]) -> Result<(u32, u32, &[u8]), Malformed>
    ensures { Reads (λ found. ((found.0, found.1), found.2.now)) result (two_at bytes.now) }
{
    let (first, rest) = take_field(b" ", bytes)?;
    let (second, rest) = take_field(b" -> ", rest)?;
    Ok((first, second, rest))
}

/// The last block that an access may name: of a volume by its id as a host's may, of one by its name as a line
/// may.
fn last_block(volume: &Ref) -> u64
    ensures { result ≡ last_block volume.now }
{
    match volume {
        Ref::Id(_) => u64::MAX,
        Ref::Name(_) => MOST,
    }
}

/// Takes the first block of an access of this volume, and the space behind it.
fn take_block<'a>(volume: &Ref, bytes: &'a [u8]) -> Result<(u64, &'a [u8]), Malformed>
    ensures { Reads (λ found. (found.0, found.1.now)) result
        (field_at (last_block volume.now) (32 ∷ []) bytes.now) }
{
    field(last_block(volume), b" ", bytes)
}

/// Takes a read behind its word.
fn take_read(alloc: Global, bytes: &[u8]) -> Result<(Asked, &[u8]), ReadStop>
    ensures { ReadsOr (λ found. (found.0, found.1.now)) result (behind_access 1 bytes.now) }
{
    let (volume, rest) = take_object_and(alloc, b" ", bytes)?;
    let (block, rest) = take_block(&volume, rest)?;
    let (count, rest) = take_field(b" -> ", rest)?;
    let asked = Asked::Read {
        volume,
        block,
        count,
    };
    Ok((asked, rest))
}

/// Takes a write behind its word.
fn take_write(alloc: Global, bytes: &[u8]) -> Result<(Asked, &[u8]), ReadStop>
    ensures { ReadsOr (λ found. (found.0, found.1.now)) result (behind_access 2 bytes.now) }
{
    let (volume, rest) = take_object_and(alloc, b" ", bytes)?;
    let (block, rest) = take_block(&volume, rest)?;
    let (count, rest) = take_field(b" ", rest)?;
    let (byte, rest) = take_byte_and(b" -> ", rest)?;
    let asked = Asked::Write {
        volume,
        block,
        count,
        byte,
    };
    Ok((asked, rest))
}

/// Takes a lane, and the arrow.
fn take_lane(bytes: &[u8]) -> Result<(u8, &[u8]), Malformed>
    ensures { Reads (λ found. (found.0, found.1.now)) result (lane_at bytes.now) }
{
    let (lane, rest) = field(255, b" -> ", bytes)?;
    Ok((lane as u8, rest))
}

/// Takes what stands behind the word of an access, a copy, a cleaning or a turn, which is told by its number.
pub(crate) fn take_access(
    alloc: Global,
    word: usize,
    bytes: &[u8],
) -> Result<(Asked, &[u8]), ReadStop>
    ensures { ReadsOr (λ found. (found.0, found.1.now)) result (behind_access word bytes.now) }
{
    match word {
        0 => Ok((Asked::Unread, bytes)),
        1 => take_read(alloc, bytes),
        2 => take_write(alloc, bytes),
        3 => {
            let (map, grain, rest) = take_two(bytes)?;
            let asked = Asked::Copy {
                map: MapId(map),
                grain: GrainNo(grain),
            };
            Ok((asked, rest))
        }
        4 => {
            let (map, grain, rest) = take_two(bytes)?;
            let asked = Asked::Clean {
                map: MapId(map),
                grain: GrainNo(grain),
            };
            Ok((asked, rest))
        }
        5 => {
            let (lane, rest) = take_lane(bytes)?;
            Ok((Asked::CopyTurn { lane }, rest))
        }
        _ => {
            let (lane, rest) = take_lane(bytes)?;
            Ok((Asked::CleanTurn { lane }, rest))
        }
    }
}
