//! Commands on volumes, disks and time.

ghost use Rattle.std.specs.Prelude.{◌≡◌};
ghost use Rattle.fc_reading.specs.Pieces.{Reads};
ghost use Rattle.fc_reading_notes.specs.Answers.{ReadsOr};
ghost use Rattle.fc_reading_requests.specs.Lines.{behind_volume, size_at, sized, unit_of};

use crate::accesses::take_two;
use crate::asked::Asked;
use crate::parts::{take_field, take_name_and, take_number, take_object_and};
use fc_base::command::{Command, Unit};
use fc_base::name::Name;
use fc_reading::pieces::{Malformed, one_of};
use fc_reading_notes::stop::ReadStop;
use std::alloc::Global;

/// The unit of a new volume's size, by the number of what stands behind the size.
fn unit_of(end: usize) -> Option<Unit>
    ensures { result ≡ unit_of end }
{
    match end {
        0 | 1 => None,
        2 | 3 => Some(Unit::Kb),
        4 | 5 => Some(Unit::Mb),
        _ => Some(Unit::Gb),
    }
}

/// Takes the size of a new volume, and what stands behind it, by its number.
fn take_size(bytes: &[u8]) -> Result<(u32, usize, &[u8]), Malformed>
    ensures { Reads (λ found. ((found.0, found.1), found.2.now)) result (size_at bytes.now) }
{
    let ends: [&[u8]; 8] = [
        b" -> ",
        b" -thin -> ",
        b" -unit kb -> ",
        b" -unit kb -thin -> ",
        b" -unit mb -> ",
        b" -unit mb -thin -> ",
        b" -unit gb -> ",
        b" -unit gb -thin -> ",
    ];
    let (size, rest) = take_number(bytes)?;
    let (end, rest) = one_of(&ends, rest)?;
    Ok((size, end, rest))
}

/// The command that makes a volume, by the number of what stands behind its size.
fn mkvdisk(name: Option<Name>, size: u32, end: usize) -> Asked
    ensures { result ≡ sized name (size, end) }
{
    Asked::Command(Command::Mkvdisk {
        name,
        size,
        unit: unit_of(end),
        thin: end % 2 == 1,
    })
}

/// Takes what stands behind the first word of a command on volumes, disks or time, which is told by its number.
pub(crate) fn take_volume(
    alloc: Global,
    word: usize,
    bytes: &[u8],
) -> Result<(Asked, &[u8]), ReadStop>
    ensures { ReadsOr (λ found. (found.0, found.1.now)) result (behind_volume word bytes.now) }
{
    match word {
        0 => {
            let (name, rest) = take_name_and(alloc, b" -size ", bytes)?;
            let (size, end, rest) = take_size(rest)?;
            Ok((mkvdisk(Some(name), size, end), rest))
        }
        1 => {
            let (size, end, rest) = take_size(bytes)?;
            Ok((mkvdisk(None, size, end), rest))
        }
        2 => {
            let (volume, rest) = take_object_and(alloc, b" -> ", bytes)?;
            Ok((Asked::Command(Command::Rmvdisk { volume }), rest))
        }
        3 => {
            let (volume, rest) = take_object_and(alloc, b" ", bytes)?;
            let (grain, calls, rest) = take_two(rest)?;
            let command = Command::Armfault {
                volume,
                grain,
                calls,
            };
            Ok((Asked::Command(command), rest))
        }
        _ => {
            let (seconds, rest) = take_field(b" -> ", bytes)?;
            Ok((Asked::Command(Command::Advance { seconds }), rest))
        }
    }
}
