//! Values that words say: numbers, objects, choices, bytes.

ghost use Rattle.std.specs.Prelude.{◌≡◌, map};
ghost use Rattle.std.specs.Option.{ok_or};
ghost use Rattle.std.specs.Char.{is_digit};
ghost use Rattle.std.specs.List.{list_all};
ghost use Rattle.fc_words.specs.Answers.{Answers};
ghost use Rattle.fc_words.specs.Digits.{pushed};
ghost use Rattle.fc_words.specs.Values.{is_numeral, number_in, hex_of, byte_of, delim_of, turns_of, unit_of, grain_size_of, preset_of, role_of, spelled, name_of, ref_at};

use crate::given::RoleWord;
use crate::refused::WordRefused;
use fc_base::command::{Preset, Unit};
use fc_base::fault::WordFault;
use fc_base::name::{Name, Ref};
use fc_base::size::GrainSize;
use std::alloc::Global;

/// Whether the byte is a decimal digit.
fn is_digit_byte(byte: u8) -> bool
    ensures { result ≡ is_digit byte 10 }
{
    byte >= b'0' && byte <= b'9'
}

/// Whether all bytes are decimal digits.
fn are_digits(word: &[u8]) -> bool
    ensures { result ≡ list_all (λ byte. is_digit byte 10) word.now }
{
    word.iter().all(|byte| is_digit_byte(*byte))
}

/// Whether the word is one decimal digit or more, and nothing else. False of the empty word.
pub fn is_numeral_word(word: &[u8]) -> bool
    ensures { result ≡ is_numeral word.now }
{
    word.len() > 0 && are_digits(word)
}

/// The number with one more digit. None where the byte is no digit, or the number 2^32 or more.
fn push_digit(value: u32, byte: u8) -> Option<u32>
    ensures { result ≡ pushed value byte }
{
    if !is_digit_byte(byte) {
        return None;
    }
    let digit = u32::from(byte - b'0');
    match value.checked_mul(10) {
        Some(tens) => tens.checked_add(digit),
        None => None,
    }
}

/// The number of a word of digits. None where it is another word, or the number 2^32 or more.
fn number(word: &[u8]) -> Option<u32>
    ensures { result ≡ number_in word.now }
{
    if word.is_empty() {
        return None;
    }
    let mut value: u32 = 0;
    for byte in word {
        match push_digit(value, *byte) {
            Some(next) => value = next,
            None => return None,
        }
    }
    Some(value)
}

/// A number below 2^32.
pub(crate) fn read_number(word: &[u8], at: u32) -> Result<u32, WordFault>
    ensures { result ≡ ok_or (number_in word.now) (WordFault.BadNumber at) }
{
    number(word).ok_or(WordFault::BadNumber(at))
}

/// The value of a hexadecimal digit of either case.
fn hex_digit(byte: u8) -> Option<u8>
    ensures { result ≡ hex_of byte }
{
    match byte {
        b'0'..=b'9' => Some(byte - b'0'),
        b'a'..=b'f' => Some(byte - b'a' + 10),
        b'A'..=b'F' => Some(byte - b'A' + 10),
        _ => None,
    }
}

/// Two hexadecimal digits of either case.
pub(crate) fn read_byte(word: &[u8], at: u32) -> Result<u8, WordFault>
    ensures { result ≡ ok_or (byte_of word.now) (WordFault.BadNumber at) }
{
    match word {
        [high, low] => match (hex_digit(*high), hex_digit(*low)) {
            (Some(high), Some(low)) => Ok(16 * high + low),
            _ => Err(WordFault::BadNumber(at)),
        },
        _ => Err(WordFault::BadNumber(at)),
    }
}

/// One printable byte other than the space.
pub(crate) fn read_delim(word: &[u8], at: u32) -> Result<u8, WordFault>
    ensures { result ≡ ok_or (delim_of word.now) (WordFault.BadName at) }
{
    match word {
        [byte] if *byte >= 33 && *byte <= 126 => Ok(*byte),
        _ => Err(WordFault::BadName(at)),
    }
}

/// A number of turns, 1 to 10,000.
pub(crate) fn read_turns(word: &[u8], at: u32) -> Result<u32, WordFault>
    ensures { result ≡ ok_or (turns_of word.now) (WordFault.BadNumber at) }
{
    match number(word) {
        Some(turns) if turns >= 1 && turns <= 10_000 => Ok(turns),
        _ => Err(WordFault::BadNumber(at)),
    }
}

/// The first of the choices that is spelled so. None where none is.
fn spelled<T: Copy>(word: &[u8], choices: &[(&[u8], T)]) -> Option<T>
    ensures { result ≡ spelled word.now (map (λ choice. (choice.0.now, choice.1)) choices.now) }
{
    for (spelling, choice) in choices {
        if word == *spelling {
            return Some(*choice);
        }
    }
    None
}

/// `kb`, `mb` or `gb`.
pub(crate) fn read_unit(word: &[u8], at: u32) -> Result<Unit, WordFault>
    ensures { result ≡ ok_or (unit_of word.now) (WordFault.BadNumber at) }
{
    let choices: [(&[u8], Unit); 3] = [(b"kb", Unit::Kb), (b"mb", Unit::Mb), (b"gb", Unit::Gb)];
    spelled(word, &choices).ok_or(WordFault::BadNumber(at))
}

/// `64` or `256`.
pub(crate) fn read_grain_size(word: &[u8], at: u32) -> Result<GrainSize, WordFault>
    ensures { result ≡ ok_or (grain_size_of word.now) (WordFault.BadNumber at) }
{
    let choices: [(&[u8], GrainSize); 2] = [(b"64", GrainSize::K64), (b"256", GrainSize::K256)];
    spelled(word, &choices).ok_or(WordFault::BadNumber(at))
}

/// `snapshot`, `clone` or `backup`.
pub(crate) fn read_preset(word: &[u8], at: u32) -> Result<Preset, WordFault>
    ensures { result ≡ ok_or (preset_of word.now) (WordFault.BadNumber at) }
{
    let choices: [(&[u8], Preset); 3] = [
        (b"snapshot", Preset::Snapshot),
        (b"clone", Preset::Clone),
        (b"backup", Preset::Backup),
    ];
    spelled(word, &choices).ok_or(WordFault::BadNumber(at))
}

/// `host`, `admin`, `copier` or `cleaner`.
pub(crate) fn read_role(word: &[u8], at: u32) -> Result<RoleWord, WordFault>
    ensures { result ≡ ok_or (role_of word.now) (WordFault.BadNumber at) }
{
    let choices: [(&[u8], RoleWord); 4] = [
        (b"host", RoleWord::Host),
        (b"admin", RoleWord::Admin),
        (b"copier", RoleWord::Copier),
        (b"cleaner", RoleWord::Cleaner),
    ];
    spelled(word, &choices).ok_or(WordFault::BadNumber(at))
}

/// A name.
pub(crate) fn read_name(alloc: Global, word: &[u8], at: u32) -> Result<Name, WordRefused>
    ensures { Answers result (ok_or (name_of word.now) (WordFault.BadName at)) }
{
    match Name::new(alloc, word) {
        Ok(Some(name)) => Ok(name),
        Ok(None) => Err(WordRefused::Fault(WordFault::BadName(at))),
        Err(_) => Err(WordRefused::NoMemory),
    }
}

/// An object by its id, where the word is digits, or by its name.
pub(crate) fn read_ref(alloc: Global, word: &[u8], at: u32) -> Result<Ref, WordRefused>
    ensures { Answers result (ref_at at word.now) }
{
    if is_numeral_word(word) {
        match read_number(word, at) {
            Ok(id) => Ok(Ref::Id(id)),
            Err(fault) => Err(WordRefused::Fault(fault)),
        }
    } else {
        match read_name(alloc, word, at) {
            Ok(name) => Ok(Ref::Name(name)),
            Err(refused) => Err(refused),
        }
    }
}
