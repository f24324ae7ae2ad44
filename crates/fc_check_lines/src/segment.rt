//! The next line or block of a session's bytes.

ghost use Rattle.std.specs.Prelude.{◌≡◌, ◌<◌, [], ◌∷◌, ◌==◌, length, IfOk, MatchOption, position};
ghost use Rattle.fc_check_lines.specs.Bytes.{BeginWith, segments_in};
ghost use Rattle.fc_entry.specs.Lines.{all_lines, without_return};

use fc_base::command::ScriptLine;
use fc_base::outcome::NoMemory;
use fc_blocks::block::{BlockRead, Taken};
use fc_blocks::reader::BlockReader;
use std::alloc::Global;

/// A line outside of blocks, or a block, as it was read.
#[derive(Drop)]
pub enum SegmentRead {
    /// A line outside of blocks, or its fault.
    Single(ScriptLine),
    /// A block.
    Block(BlockRead),
}

/// A line without the carriage return at its end, if it has one.
fn without_return(line: &[u8]) -> &[u8]
    ensures { result.now ≡ without_return line.now }
{
    let len = line.len();
    if len > 0 && line[len - 1] == b'\r' {
        &line[..len - 1]
    } else {
        line
    }
}

/// The place of the first newline.
fn line_end(bytes: &[u8]) -> Option<usize>
    ensures { result ≡ position (λ byte. byte == 10) bytes.now }
{
    bytes.iter().position(|byte| *byte == b'\n')
}

/// The first line of bytes, of which there is one or more, without its end; and the bytes behind it.
fn first_line(bytes: &[u8]) -> (&[u8], &[u8])
    requires { 0 < length bytes.now }
    ensures lines { all_lines bytes.now ≡ result.0.now ∷ all_lines result.1.now }
    ensures less { length result.1.now < length bytes.now }
{
    match line_end(bytes) {
        Some(end) => (without_return(&bytes[..end]), &bytes[end + 1..]),
        None => (bytes, &[]),
    }
}

/// The first line or block of bytes, and the bytes behind it; none where they have none. A block that isn't
/// ended is left out. Refused for want of memory alone.
pub(crate) fn next_segment(
    alloc: Global,
    bytes: &[u8],
) -> Result<Option<(SegmentRead, &[u8])>, NoMemory>
    ensures { IfOk result (λ found. MatchOption found (segments_in bytes.now ≡ [])
        (λ parts. BeginWith bytes.now parts.0 parts.1.now)) }
{
    let mut reader = BlockReader::new();
    let mut rest = bytes;
    'lines: while !rest.is_empty() {
        let (line, behind) = first_line(rest);
        rest = behind;
        match reader.read(alloc, line)? {
            Taken::Nothing => {}
            Taken::Single(line) => return Ok(Some((SegmentRead::Single(line), rest))),
            Taken::Block(block) => return Ok(Some((SegmentRead::Block(block), rest))),
        }
    }
    Ok(None)
}
