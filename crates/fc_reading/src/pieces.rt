//! The pieces that texts are made of: words and numbers.

ghost use Rattle.std.specs.Prelude.{◌≡◌, ◌≤◌, ◌+◌, ◌*◌, ◌-◌, true, if◌then◌else◌, map, Some, None, IfOk, IfSome};
ghost use Rattle.fc_reading.specs.Pieces.{Reads};
ghost use Rattle.fc_reading.specs.Readers.{field_at, goes_on, is_decimal, number_at, one_of_at, word_at};

/// The bytes can't go on as they began: so many are left, from the first one with which they can't.
#[derive(Clone, Copy, Debug, PartialEq, Eq)]
pub struct Malformed {
    /// How many bytes are left; none where they end too early.
    pub left: usize,
}

/// Takes a word from the front, and hands out what is behind it.
pub fn word<'a>(word: &[u8], bytes: &'a [u8]) -> Result<&'a [u8], Malformed>
    ensures { Reads (λ rest. rest.now) result (word_at word.now bytes.now) }
{
    for place in 0..word.len() {
        if place == bytes.len() {
            return Err(Malformed { left: 0 });
        }
        if bytes[place] != word[place] {
            return Err(Malformed {
                left: bytes.len() - place,
            });
        }
    }
    Ok(&bytes[word.len()..])
}

/// Takes one of some words from the front, and hands out its number and what is behind it. Where none stands there, the one
/// that goes furthest says where it stops.
pub fn one_of<'a>(words: &[&[u8]], bytes: &'a [u8]) -> Result<(usize, &'a [u8]), Malformed>
    ensures { Reads (λ found. (found.0, found.1.now)) result (one_of_at (map (λ word. word.now) words.now) bytes.now) }
{
    let mut left = bytes.len();
    for index in 0..words.len() {
        match word(words[index], bytes) {
            Ok(rest) => return Ok((index, rest)),
            Err(stopped) => left = left.min(stopped.left),
        }
    }
    Err(Malformed { left })
}

/// Whether the byte is a decimal digit.
fn is_digit(byte: u8) -> bool
    ensures { result ≡ is_decimal byte }
{
    byte >= b'0' && byte <= b'9'
}

/// The number with one more digit. None where a 0 begins it, or it would be more than `most`.
fn more(most: u64, value: u64, byte: u8) -> Option<u64>
    requires { is_decimal byte ≡ true }
    ensures value { result ≡ (if goes_on most value byte then Some (value * 10 + (byte - 48)) else None) }
    ensures within { IfSome result (λ next. next ≤ most) }
{
    if value == 0 {
        return None;
    }
    let digit = u64::from(byte - b'0');
    match value.checked_mul(10) {
        None => None,
        Some(tens) => match tens.checked_add(digit) {
            Some(next) if next <= most => Some(next),
            _ => None,
        },
    }
}

/// Takes a number from the front: decimal digits, without leading zeros, no more than `most`; and hands out what is behind it.
pub fn number(most: u64, bytes: &[u8]) -> Result<(u64, &[u8]), Malformed>
    ensures value { Reads (λ found. (found.0, found.1.now)) result (number_at most bytes.now) }
    ensures within { IfOk result (λ found. found.0 ≤ most) }
{
    if bytes.is_empty() || !is_digit(bytes[0]) || u64::from(bytes[0] - b'0') > most {
        return Err(Malformed { left: bytes.len() });
    }
    let mut value = u64::from(bytes[0] - b'0');
    for place in 1..bytes.len() {
        if !is_digit(bytes[place]) {
            return Ok((value, &bytes[place..]));
        }
        match more(most, value, bytes[place]) {
            Some(next) => value = next,
            None => {
                return Err(Malformed {
                    left: bytes.len() - place,
                });
            }
        }
    }
    Ok((value, &[]))
}

/// Takes a number from the front, no more than `most`, and the word that must stand behind it; and hands out what is behind both.
pub fn field<'a>(most: u64, behind: &[u8], bytes: &'a [u8]) -> Result<(u64, &'a [u8]), Malformed>
    ensures value { Reads (λ found. (found.0, found.1.now)) result (field_at most behind.now bytes.now) }
    ensures within { IfOk result (λ found. found.0 ≤ most) }
{
    let (value, rest) = number(most, bytes)?;
    let rest = word(behind, rest)?;
    Ok((value, rest))
}
