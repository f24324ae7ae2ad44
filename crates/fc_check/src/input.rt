//! All bytes of a source.

ghost use Rattle.std.specs.Prelude.{◌≡◌, ◌<◌, ◌≤◌, [], length, IfOk, OnErr};
ghost use Rattle.fc_check.specs.Input.{AfterPast, AfterPiece, TakenSome, TakenSoFar, TakenTo};

use fc_base::outcome::NoMemory;
use fc_io::source::Source;
use std::alloc::Global;

/// The greatest number of bytes of a piece.
const PIECE_BYTES: usize = 65_536;

/// The greatest input.
const INPUT_BYTES: usize = 67_108_864;

/// How taking an input ends.
#[derive(Clone, Copy, Debug, PartialEq, Eq)]
pub enum InputEnd {
    /// The source is at its end.
    Over,
    /// A call of the source failed.
    Fault,
    /// A byte past the greatest input was taken.
    TooLong,
}

/// The bytes that were taken from a source.
#[derive(Drop)]
pub struct Input {
    /// At most 67,108,864 bytes. One past them is not kept.
    pub bytes: Vec<u8>,
    /// How taking them ended.
    pub end: InputEnd,
}

/// Takes one piece through the buffer, and puts it behind the bytes. Answers how taking ends, where it ends. Where there is no memory
/// for the piece, the bytes are as they were.
fn take_piece<S: Source>(
    source: &mut S,
    buffer: &mut [u8],
    bytes: &mut Vec<u8>,
) -> Result<Option<InputEnd>, NoMemory>
    requires { 0 < length buffer.old }
    ensures taken { AfterPiece result (length buffer.old) (S.meaning source.old) bytes.old.items bytes.new.items (S.meaning source.new) }
    ensures faults { (S.meaning source.old).faults ≤ (S.meaning source.new).faults }
{
    match source.take(buffer) {
        Ok(0) => Ok(Some(InputEnd::Over)),
        Ok(n) => match bytes.extend_from_slice(&buffer[..n]) {
            Ok(()) => Ok(None),
            Err(_) => Err(NoMemory),
        },
        Err(_) => Ok(Some(InputEnd::Fault)),
    }
}

/// Asks for the byte past the greatest input.
fn take_past<S: Source>(source: &mut S, one: &mut [u8]) -> InputEnd
    requires { length one.old ≡ 1 }
    ensures { AfterPast result (S.meaning source.old) (S.meaning source.new) }
{
    match source.take(one) {
        Ok(0) => InputEnd::Over,
        Ok(_) => InputEnd::TooLong,
        Err(_) => InputEnd::Fault,
    }
}

/// Takes all bytes through the buffer, piece by piece, and asks for the byte past the greatest input.
fn take_pieces<S: Source>(
    source: &mut S,
    buffer: &mut [u8],
    bytes: &mut Vec<u8>,
) -> Result<InputEnd, NoMemory>
    requires some { 0 < length buffer.old }
    requires none { bytes.old.items ≡ [] }
    ensures taken { IfOk result (λ end. TakenTo end (S.meaning source.old) bytes.new.items (S.meaning source.new)) }
    ensures some { OnErr result (TakenSome (S.meaning source.old) (S.meaning source.new)) }
{
    while bytes.len() < INPUT_BYTES {
        let most = buffer.len().min(INPUT_BYTES - bytes.len());
        match take_piece(source, &mut buffer[..most], bytes) {
            Ok(None) => {}
            Ok(Some(end)) => return Ok(end),
            Err(refused) => return Err(refused),
        }
    }
    Ok(take_past(source, &mut buffer[..1]))
}

/// Takes all bytes of a source, in pieces of at most 64 KiB, and at most 67,108,864; then the byte past them is asked for, and isn't
/// kept. Where memory is wanted, some bytes were taken, maybe none, and none are answered.
pub fn take_input<S: Source>(alloc: Global, source: &mut S) -> Result<Input, NoMemory>
    ensures taken { IfOk result (λ input. TakenTo input.end (S.meaning source.old) input.bytes.items (S.meaning source.new)) }
    ensures some { OnErr result (TakenSome (S.meaning source.old) (S.meaning source.new)) }
{
    let mut bytes = Vec::new(alloc);
    match vec![in alloc; 0u8; PIECE_BYTES] {
        Ok(mut buffer) => match take_pieces(source, buffer.as_mut_slice(), &mut bytes) {
            Ok(end) => Ok(Input { bytes, end }),
            Err(refused) => Err(refused),
        },
        Err(_) => Err(NoMemory),
    }
}
