//! The first line of a trace.

ghost use Rattle.std.specs.Prelude.{◌≡◌, ◌≤◌, length, take, IfErr, IfOk};
ghost use Rattle.fc_trace.specs.Trace.{header_text};
ghost use Rattle.fc_reading.specs.Header.{IsHeader, header_at};
ghost use Rattle.fc_reading.specs.Pieces.{Reads};
ghost use Rattle.fc_reading.specs.Readers.{four_at};
ghost use Rattle.fc_reading.specs.Stops.{StopsAt};

use crate::pieces::{Malformed, field, one_of};
use fc_base::size::GrainSize;
use fc_trace::header::{Header, LaneDisks};

/// The greatest number of disks.
const MOST: u64 = 4_294_967_295;

/// Four numbers.
#[derive(Clone, Copy, PartialEq, Eq)]
struct Four {
    first: u32,
    second: u32,
    third: u32,
    fourth: u32,
}

/// Takes four numbers from the front, with a space between each two, and the word that must stand behind the last.
fn take_four<'a>(last: &[u8], bytes: &'a [u8]) -> Result<(Four, &'a [u8]), Malformed>
    ensures { Reads (λ found. ((found.0.first, (found.0.second, (found.0.third, found.0.fourth))), found.1.now)) result
        (four_at last.now bytes.now) }
{
    let (first, rest) = field(MOST, b" ", bytes)?;
    let (second, rest) = field(MOST, b" ", rest)?;
    let (third, rest) = field(MOST, b" ", rest)?;
    let (fourth, rest) = field(MOST, last, rest)?;
    let found = Four {
        first: first as u32,
        second: second as u32,
        third: third as u32,
        fourth: fourth as u32,
    };
    Ok((found, rest))
}

/// Takes the first line of a trace from the front, and hands out what is behind it.
fn take_header(bytes: &[u8]) -> Result<(Header, &[u8]), Malformed>
    ensures { Reads (λ found. (found.0, found.1.now)) result (header_at bytes.now) }
{
    let (grain, rest) = one_of(&[b"trace 64 4 flat ", b"trace 256 4 flat "], bytes)?;
    let (flat, rest) = take_four(b" thin ", rest)?;
    let (thin, rest) = take_four(b"\n", rest)?;
    let header = Header {
        grain: if grain == 0 {
            GrainSize::K64
        } else {
            GrainSize::K256
        },
        lanes: [
            LaneDisks {
                flat: flat.first,
                thin: thin.first,
            },
            LaneDisks {
                flat: flat.second,
                thin: thin.second,
            },
            LaneDisks {
                flat: flat.third,
                thin: thin.third,
            },
            LaneDisks {
                flat: flat.fourth,
                thin: thin.fourth,
            },
        ],
    };
    Ok((header, rest))
}

/// Reads the first line of a trace from the front of the bytes: what it says, and its length. Refused, with the place of the
/// first byte with which no such line goes on, or the end where the bytes end too early.
pub fn read_header(bytes: &[u8]) -> Result<(Header, usize), usize>
    ensures within { IfOk result (λ found. found.1 ≤ length bytes.now) }
    ensures found { IfOk result (λ found. take found.1 bytes.now ≡ header_text found.0.grain found.0.lanes) }
    ensures malformed { IfErr result (λ place. StopsAt IsHeader bytes.now place) }
{
    match take_header(bytes) {
        Ok((header, rest)) => Ok((header, bytes.len() - rest.len())),
        Err(stopped) => Err(bytes.len() - stopped.left),
    }
}
