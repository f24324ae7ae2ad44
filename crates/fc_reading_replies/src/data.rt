//! The bytes of a read, as runs of equal bytes.

ghost use Rattle.std.specs.Prelude.{◌≡◌, ◌<◌, ◌≤◌, IfOk, Some, None, if◌then◌else◌};
ghost use Rattle.fc_reading.specs.Pieces.{Reads};
ghost use Rattle.fc_reading_notes.specs.Answers.{ReadsOr};
ghost use Rattle.fc_reading_replies.specs.Data.{byte_at, data_at, digit_at, excluded_low, hex_value, is_hex, run_at, runs_at};

use fc_base::runs::{Run, Runs};
use fc_reading::pieces::{Malformed, one_of, word};
use fc_reading_notes::between::between;
use fc_reading_notes::stop::ReadStop;
use std::alloc::Global;

/// The value of a hexadecimal digit in lower case. None where the byte is none.
fn hex_value(byte: u8) -> Option<u8>
    ensures { result ≡ (if is_hex byte then Some (hex_value byte) else None) }
{
    if byte >= b'0' && byte <= b'9' {
        Some(byte - b'0')
    } else if byte >= b'a' && byte <= b'f' {
        Some(byte - b'a' + 10)
    } else {
        None
    }
}

/// Takes a hexadecimal digit, other than the excluded one.
fn take_digit(excluded: Option<u8>, bytes: &[u8]) -> Result<(u8, &[u8]), Malformed>
    ensures value { Reads (λ found. (found.0, found.1.now)) result (digit_at excluded bytes.now) }
    ensures small { IfOk result (λ found. found.0 < 16) }
{
    if bytes.is_empty() {
        return Err(Malformed { left: 0 });
    }
    match hex_value(bytes[0]) {
        Some(value) if excluded != Some(value) => Ok((value, &bytes[1..])),
        _ => Err(Malformed { left: bytes.len() }),
    }
}

/// The low digit that a byte with this high digit may not have, so as not to be the byte before it.
fn excluded_low(before: Option<u8>, high: u8) -> Option<u8>
    ensures { result ≡ excluded_low before high }
{
    match before {
        Some(byte) if byte / 16 == high => Some(byte % 16),
        _ => None,
    }
}

/// Takes a byte, two digits, other than the byte of the run before.
fn take_byte(before: Option<u8>, bytes: &[u8]) -> Result<(u8, &[u8]), Malformed>
    ensures { Reads (λ found. (found.0, found.1.now)) result (byte_at before bytes.now) }
{
    let (high, rest) = take_digit(None, bytes)?;
    let (low, rest) = take_digit(excluded_low(before, high), rest)?;
    Ok((16 * high + low, rest))
}

/// Takes a run, whose byte is other than the one of the run before, and says whether one more follows.
fn take_run(before: Option<u8>, bytes: &[u8]) -> Result<(Run, bool, &[u8]), Malformed>
    ensures { Reads (λ found. ((found.0, found.1), found.2.now)) result (run_at before bytes.now) }
{
    let (count, rest) = between(1, 4_294_967_295, bytes)?;
    let rest = word(b"*", rest)?;
    let (byte, rest) = take_byte(before, rest)?;
    let (end, rest) = one_of(&[b"\n", b","], rest)?;
    let run = Run {
        count: count as u32,
        byte,
    };
    Ok((run, end == 1, rest))
}

/// Takes runs, one at least, and the end of their line.
fn take_runs(alloc: Global, bytes: &[u8]) -> Result<(Runs, &[u8]), ReadStop>
    ensures { ReadsOr (λ found. (found.0, found.1.now)) result (runs_at bytes.now) }
{
    let mut runs = Runs::new(alloc);
    let mut before = None;
    let mut rest = bytes;
    for _ in 0..bytes.len() {
        match take_run(before, rest) {
            Ok((found, more, behind)) => {
                runs.push(found)?;
                if !more {
                    return Ok((runs, behind));
                }
                before = Some(found.byte);
                rest = behind;
            }
            Err(stopped) => return Err(ReadStop::Malformed(stopped)),
        }
    }
    Err(ReadStop::Malformed(Malformed { left: rest.len() }))
}

/// Takes the bytes of a read, which may be none, and the end of their line.
pub(crate) fn take_data(alloc: Global, bytes: &[u8]) -> Result<(Runs, &[u8]), ReadStop>
    ensures { ReadsOr (λ found. (found.0, found.1.now)) result (data_at bytes.now) }
{
    if !bytes.is_empty() && bytes[0] == b'\n' {
        let rest = word(b"\n", bytes)?;
        Ok((Runs::new(alloc), rest))
    } else {
        take_runs(alloc, bytes)
    }
}
