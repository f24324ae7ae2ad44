//! The rows of a report.

ghost use Rattle.std.specs.Prelude.{◌≡◌, IfOk};
ghost use Rattle.fc_reading_notes.specs.Answers.{ReadsOr};
ghost use Rattle.fc_reading_replies.specs.Rows.{row_at, rows_at};

use fc_base::list::List;
use fc_base::outcome::NoMemory;
use fc_base::request::Rows;
use fc_reading::pieces::Malformed;
use fc_reading_notes::stop::ReadStop;
use std::alloc::Global;

/// A list of these bytes.
fn copied(alloc: Global, bytes: &[u8]) -> Result<List<u8>, NoMemory>
    ensures { IfOk result (λ copy. copy ≡ bytes.now) }
{
    match Vec::from_slice(alloc, bytes) {
        Ok(items) => Ok(List::of(items)),
        Err(_) => Err(NoMemory),
    }
}

/// Takes a row up to its newline. It doesn't begin with `+`.
fn take_row(alloc: Global, bytes: &[u8]) -> Result<(List<u8>, &[u8]), ReadStop>
    ensures { ReadsOr (λ found. (found.0, found.1.now)) result (row_at bytes.now) }
{
    if !bytes.is_empty() && bytes[0] == b'+' {
        return Err(ReadStop::Malformed(Malformed { left: bytes.len() }));
    }
    for place in 0..bytes.len() {
        if bytes[place] == b'\n' {
            let row = copied(alloc, &bytes[..place])?;
            return Ok((row, &bytes[place + 1..]));
        }
    }
    Err(ReadStop::Malformed(Malformed { left: 0 }))
}

/// Takes so many rows of a report, each up to its newline. None begins with `+`.
pub fn take_rows(alloc: Global, count: u64, bytes: &[u8]) -> Result<(Rows, &[u8]), ReadStop>
    ensures { ReadsOr (λ found. (found.0, found.1.now)) result (rows_at count bytes.now) }
{
    let mut rows = List::new(alloc);
    let mut rest = bytes;
    for _ in 0..count {
        match take_row(alloc, rest) {
            Ok((row, behind)) => {
                rows.push(row)?;
                rest = behind;
            }
            Err(stop) => return Err(stop),
        }
    }
    Ok((rows, rest))
}
