//! The parts of requests: names, objects, bytes.

ghost use Rattle.std.specs.Prelude.{◌≡◌, ◌<◌, ◌≤◌, IfOk, length, map};
ghost use Rattle.fc_base.specs.Names.{continues_name, starts_name};
ghost use Rattle.fc_reading.specs.Pieces.{Reads};
ghost use Rattle.fc_reading.specs.Readers.{is_decimal, one_of_at};
ghost use Rattle.fc_reading_notes.specs.Answers.{ReadsOr};
ghost use Rattle.fc_reading_notes.specs.Lines.{id_at};
ghost use Rattle.fc_reading_notes.specs.Lists.{first_byte_is};
ghost use Rattle.fc_reading_requests.specs.Parts.{byte_at, closed, delim_at, ended_by, hex_digits, is_dash, name_at, number_32, object_and, object_at, one_from_at};

use fc_base::name::{Name, Ref, is_name_text};
use fc_reading::pieces::{Malformed, field, number, one_of, word};
use fc_reading_notes::stop::ReadStop;
use std::alloc::Global;

/// The greatest number of 32 bits.
pub(crate) const MOST: u64 = 4_294_967_295;

/// Takes a number of 32 bits from the front.
pub(crate) fn take_number(bytes: &[u8]) -> Result<(u32, &[u8]), Malformed>
    ensures { Reads (λ found. (found.0, found.1.now)) result (number_32 bytes.now) }
{
    let (value, rest) = number(MOST, bytes)?;
    Ok((value as u32, rest))
}

/// Takes a number of 32 bits from the front, and the word that must stand behind it.
pub(crate) fn take_field<'a>(behind: &[u8], bytes: &'a [u8]) -> Result<(u32, &'a [u8]), Malformed>
    ensures { Reads (λ found. (found.0, found.1.now)) result (id_at behind.now bytes.now) }
{
    let (value, rest) = field(MOST, behind, bytes)?;
    Ok((value as u32, rest))
}

/// Takes one of some words from the front, from the first so numbered on, and hands out its number and what is
/// behind it.
pub(crate) fn one_from<'a>(
    words: &[&[u8]],
    first: usize,
    bytes: &'a [u8],
) -> Result<(usize, &'a [u8]), Malformed>
    requires { first ≤ length words.now }
    ensures value { Reads (λ found. (found.0, found.1.now)) result
        (one_from_at (map (λ word. word.now) words.now) first bytes.now) }
    ensures later { IfOk result (λ found. first ≤ found.0) }
{
    match one_of(&words[first..], bytes) {
        Ok((index, rest)) => Ok((index + first, rest)),
        Err(stopped) => Err(stopped),
    }
}

/// Whether a name may begin with this byte.
fn starts_name(byte: u8) -> bool
    ensures { result ≡ starts_name byte }
{
    is_name_text(&[byte])
}

/// Whether a name may go on with this byte.
fn continues_name(byte: u8) -> bool
    ensures { result ≡ continues_name byte }
{
    is_name_text(&[b'_', byte])
}

/// Takes the bytes of a name from the front.
fn take_name_bytes(bytes: &[u8]) -> Result<(&[u8], &[u8]), Malformed>
    ensures { Reads (λ found. (found.0.now, found.1.now)) result (name_at bytes.now) }
{
    if bytes.is_empty() || !starts_name(bytes[0]) {
        return Err(Malformed { left: bytes.len() });
    }
    for place in 1..bytes.len() {
        if !continues_name(bytes[place]) {
            return Ok((&bytes[..place], &bytes[place..]));
        }
        if place == 63 {
            return Err(Malformed {
                left: bytes.len() - place,
            });
        }
    }
    Ok((bytes, &[]))
}

/// Takes a name from the front.
pub(crate) fn take_name(alloc: Global, bytes: &[u8]) -> Result<(Name, &[u8]), ReadStop>
    ensures { ReadsOr (λ found. (found.0, found.1.now)) result (name_at bytes.now) }
{
    let (text, rest) = take_name_bytes(bytes)?;
    match Name::new(alloc, text) {
        Ok(Some(name)) => Ok((name, rest)),
        _ => Err(ReadStop::NoMemory),
    }
}

/// Whether a decimal digit comes first.
fn begins_with_digit(bytes: &[u8]) -> bool
    ensures { result ≡ first_byte_is is_decimal bytes.now }
{
    !bytes.is_empty() && bytes[0] >= b'0' && bytes[0] <= b'9'
}

/// Takes an id from the front, behind which no byte of a name may follow.
fn take_id(bytes: &[u8]) -> Result<(u32, &[u8]), Malformed>
    ensures { Reads (λ found. (found.0, found.1.now)) result (closed continues_name number_32 bytes.now) }
{
    let (id, rest) = take_number(bytes)?;
    if !rest.is_empty() && continues_name(rest[0]) {
        Err(Malformed { left: rest.len() })
    } else {
        Ok((id, rest))
    }
}

/// Takes an object from the front, by its id or its name.
pub(crate) fn take_object(alloc: Global, bytes: &[u8]) -> Result<(Ref, &[u8]), ReadStop>
    ensures { ReadsOr (λ found. (found.0, found.1.now)) result (object_at bytes.now) }
{
    if begins_with_digit(bytes) {
        let (id, rest) = take_id(bytes)?;
        Ok((Ref::Id(id), rest))
    } else {
        let (name, rest) = take_name(alloc, bytes)?;
        Ok((Ref::Name(name), rest))
    }
}

/// Takes an object from the front, and the word that must stand behind it.
pub(crate) fn take_object_and<'a>(
    alloc: Global,
    behind: &[u8],
    bytes: &'a [u8],
) -> Result<(Ref, &'a [u8]), ReadStop>
    ensures { ReadsOr (λ found. (found.0, found.1.now)) result (object_and behind.now bytes.now) }
{
    let (object, rest) = take_object(alloc, bytes)?;
    let rest = word(behind, rest)?;
    Ok((object, rest))
}

/// Takes a name from the front, and the word that must stand behind it.
pub fn take_name_and<'a>(
    alloc: Global,
    behind: &[u8],
    bytes: &'a [u8],
) -> Result<(Name, &'a [u8]), ReadStop>
    ensures { ReadsOr (λ found. (found.0, found.1.now)) result (ended_by name_at behind.now bytes.now) }
{
    let (name, rest) = take_name(alloc, bytes)?;
    let rest = word(behind, rest)?;
    Ok((name, rest))
}

/// Takes a hexadecimal digit in lower case from the front.
fn take_hex_digit(bytes: &[u8]) -> Result<(usize, &[u8]), Malformed>
    ensures value { Reads (λ found. (found.0, found.1.now)) result (one_of_at hex_digits bytes.now) }
    ensures within { IfOk result (λ found. found.0 < 16) }
{
    let digits: [&[u8]; 16] = [
        b"0", b"1", b"2", b"3", b"4", b"5", b"6", b"7", b"8", b"9", b"a", b"b", b"c", b"d", b"e",
        b"f",
    ];
    one_of(&digits, bytes)
}

/// Takes a byte as two hexadecimal digits from the front, and the word that must stand behind it.
pub(crate) fn take_byte_and<'a>(behind: &[u8], bytes: &'a [u8]) -> Result<(u8, &'a [u8]), Malformed>
    ensures { Reads (λ found. (found.0, found.1.now)) result (ended_by byte_at behind.now bytes.now) }
{
    let (high, rest) = take_hex_digit(bytes)?;
    let (low, rest) = take_hex_digit(rest)?;
    let rest = word(behind, rest)?;
    Ok(((16 * high + low) as u8, rest))
}

/// Takes a delimiter from the front, a printable byte other than the space, and the word that must stand behind
/// it.
pub(crate) fn take_delim_and<'a>(
    behind: &[u8],
    bytes: &'a [u8],
) -> Result<(u8, &'a [u8]), Malformed>
    ensures { Reads (λ found. (found.0, found.1.now)) result (ended_by delim_at behind.now bytes.now) }
{
    if bytes.is_empty() || bytes[0] < 33 || bytes[0] > 126 {
        return Err(Malformed { left: bytes.len() });
    }
    let rest = word(behind, &bytes[1..])?;
    Ok((bytes[0], rest))
}

/// Whether a dash comes first.
pub(crate) fn begins_with_dash(bytes: &[u8]) -> bool
    ensures { result ≡ first_byte_is is_dash bytes.now }
{
    !bytes.is_empty() && bytes[0] == b'-'
}
