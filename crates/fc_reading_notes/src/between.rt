//! Numbers between two bounds.

ghost use Rattle.std.specs.Prelude.{◌≡◌, ◌≤◌, ◌+◌, ◌*◌, ◌-◌, ◌&&◌, true, if◌then◌else◌, Some, None, IfOk, IfSome};
ghost use Rattle.fc_reading.specs.Pieces.{Reads};
ghost use Rattle.fc_reading.specs.Readers.{is_decimal};
ghost use Rattle.fc_reading_notes.specs.Between.{between_at, ended, is_begun, may_begin, may_go_on};

use fc_reading::pieces::Malformed;

/// Whether a number from `least` to `most` begins with the digits of this one, which isn't 0.
fn is_begun(least: u64, most: u64, value: u64) -> bool
    requires order { least ≤ most }
    requires small { most ≤ 4294967295 }
    ensures { result ≡ is_begun least most value }
{
    let mut low = value;
    let mut high = value;
    for _ in 0..most + 1 {
        if low > most {
            return false;
        }
        if high >= least {
            return true;
        }
        low *= 10;
        high = high * 10 + 9;
    }
    false
}

/// The number that this digit begins. None where it begins none from `least` to `most`, or it is no digit.
fn first_digit(least: u64, most: u64, byte: u8) -> Option<u64>
    requires order { least ≤ most }
    requires small { most ≤ 4294967295 }
    ensures value { result ≡ (if is_decimal byte && may_begin least most (byte - 48) then Some (byte - 48) else None) }
    ensures within { IfSome result (λ next. next ≤ most) }
{
    if byte < b'0' || byte > b'9' {
        return None;
    }
    let digit = u64::from(byte - b'0');
    if digit == 0 {
        return if least == 0 { Some(0) } else { None };
    }
    if is_begun(least, most, digit) {
        Some(digit)
    } else {
        None
    }
}

/// The number with one more digit. None where a 0 begins it, or none from `least` to `most` begins so.
fn next_digit(least: u64, most: u64, value: u64, byte: u8) -> Option<u64>
    requires order { least ≤ most }
    requires small { most ≤ 4294967295 }
    requires within { value ≤ most }
    requires digit { is_decimal byte ≡ true }
    ensures value { result ≡ (if may_go_on least most value byte then Some (value * 10 + (byte - 48)) else None) }
    ensures within { IfSome result (λ next. next ≤ most) }
{
    let next = value * 10 + u64::from(byte - b'0');
    if value > 0 && is_begun(least, most, next) {
        Some(next)
    } else {
        None
    }
}

/// What the digits so far are, where none follows: the number, if it is no less than `least`.
fn end_number(least: u64, value: u64, rest: &[u8]) -> Result<(u64, &[u8]), Malformed>
    ensures { Reads (λ found. (found.0, found.1.now)) result (ended least value rest.now) }
{
    if value >= least {
        Ok((value, rest))
    } else {
        Err(Malformed { left: rest.len() })
    }
}

/// Takes a number from the front: decimal digits, without leading zeros, from `least` to `most`; and hands out
/// what is behind it.
pub fn between(least: u64, most: u64, bytes: &[u8]) -> Result<(u64, &[u8]), Malformed>
    requires order { least ≤ most }
    requires small { most ≤ 4294967295 }
    ensures value { Reads (λ found. (found.0, found.1.now)) result (between_at least most bytes.now) }
    ensures low { IfOk result (λ found. least ≤ found.0) }
    ensures high { IfOk result (λ found. found.0 ≤ most) }
{
    if bytes.is_empty() {
        return Err(Malformed { left: 0 });
    }
    let Some(first) = first_digit(least, most, bytes[0]) else {
        return Err(Malformed { left: bytes.len() });
    };
    let mut value = first;
    for place in 1..bytes.len() {
        if bytes[place] < b'0' || bytes[place] > b'9' {
            return end_number(least, value, &bytes[place..]);
        }
        match next_digit(least, most, value, bytes[place]) {
            Some(next) => value = next,
            None => {
                return Err(Malformed {
                    left: bytes.len() - place,
                });
            }
        }
    }
    end_number(least, value, &[])
}
