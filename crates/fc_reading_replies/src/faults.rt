//! Faults in the words of a line.

ghost use Rattle.std.specs.Prelude.{◌≡◌, ◌≤◌, length, take, IfErr, IfOk};
ghost use Rattle.fc_reading.specs.Pieces.{Reads};
ghost use Rattle.fc_reading.specs.Readers.{one_of_at};
ghost use Rattle.fc_reading.specs.Stops.{StopsAt};
ghost use Rattle.fc_reading_replies.specs.Faults.{IsFault, IsUnread, fault_at, fault_of, fault_words, numbered_fault, unread_at, unread_text};

use fc_base::fault::{RequiredOption, WordFault};
use fc_reading::pieces::{Malformed, one_of, word};
use fc_reading_notes::lines::take_id;

/// The fault without a number that the text with this number tells.
fn fault_of(number: usize) -> WordFault
    ensures { result ≡ fault_of number }
{
    match number {
        0 => WordFault::UnknownCommand,
        1 => WordFault::LongLine,
        2 => WordFault::NoActor,
        3 => WordFault::NotInBlock,
        4 => WordFault::MissingOption(RequiredOption::Size),
        5 => WordFault::MissingOption(RequiredOption::Seconds),
        6 => WordFault::MissingOption(RequiredOption::Source),
        7 => WordFault::MissingOption(RequiredOption::Target),
        _ => WordFault::MissingOption(RequiredOption::Preset),
    }
}

/// The fault with a number that the words with this number begin.
fn numbered_fault(words: usize, number: u32) -> WordFault
    ensures { result ≡ numbered_fault words number }
{
    match words {
        0 => WordFault::UnknownOption(number),
        1 => WordFault::MissingWord(number),
        2 => WordFault::RepeatedOption(number),
        3 => WordFault::BadNumber(number),
        4 => WordFault::BadName(number),
        _ => WordFault::Limit(number),
    }
}

/// Takes the whole text of a fault, or the words that begin it, by their number.
fn take_words(bytes: &[u8]) -> Result<(usize, &[u8]), Malformed>
    ensures { Reads (λ found. (found.0, found.1.now)) result (one_of_at fault_words bytes.now) }
{
    let words: [&[u8]; 15] = [
        b"unknown command\n",
        b"long line\n",
        b"no actor\n",
        b"not in a block\n",
        b"missing option -size\n",
        b"missing option -seconds\n",
        b"missing option -source\n",
        b"missing option -target\n",
        b"missing option -preset\n",
        b"unknown option at word ",
        b"missing word ",
        b"option repeated at word ",
        b"bad number at word ",
        b"bad name at word ",
        b"limit ",
    ];
    one_of(&words, bytes)
}

/// Takes a fault and the end of its line.
fn take_fault(bytes: &[u8]) -> Result<(WordFault, &[u8]), Malformed>
    ensures { Reads (λ found. (found.0, found.1.now)) result (fault_at bytes.now) }
{
    let (words, rest) = take_words(bytes)?;
    if words < 9 {
        return Ok((fault_of(words), rest));
    }
    let (number, rest) = take_id(b"\n", rest)?;
    Ok((numbered_fault(words - 9, number), rest))
}

/// Takes the reply of a line with a fault in its words, and the end of its line.
pub fn take_unread(bytes: &[u8]) -> Result<(WordFault, &[u8]), Malformed>
    ensures { Reads (λ found. (found.0, found.1.now)) result (unread_at bytes.now) }
{
    let rest = word(b"refused ", bytes)?;
    take_fault(rest)
}

/// Reads from the front of the bytes the reply of a line with a fault in its words, up to its newline: the
/// fault, and the length. Refused, with the place of the first byte with which no such reply goes on, or the
/// end where the bytes end too early.
pub fn read_fault(bytes: &[u8]) -> Result<(WordFault, usize), usize>
    ensures within { IfOk result (λ found. found.1 ≤ length bytes.now) }
    ensures found { IfOk result (λ found. take found.1 bytes.now ≡ unread_text found.0) }
    ensures fits { IfOk result (λ found. IsFault found.0) }
    ensures malformed { IfErr result (λ place. StopsAt IsUnread bytes.now place) }
{
    match take_unread(bytes) {
        Ok((fault, rest)) => Ok((fault, bytes.len() - rest.len())),
        Err(stopped) => Err(bytes.len() - stopped.left),
    }
}
