//! Text in several parts, and numbers.

ghost use Rattle.std.specs.Prelude.{◌≡◌, ◌<◌, ◌++◌, false, decimal, is_err};
ghost use Rattle.std.specs.Fmt.{digit_glyph};
ghost use Rattle.std.specs.List.{flat_map};
ghost use Rattle.fc_base.specs.CommandText.{byte_word};
ghost use Rattle.fc_entry.specs.Text.{two_numbers};
ghost use Rattle.fc_entry.specs.Written.{Written};

use fc_base::outcome::Failed;
use fc_io::sink::Sink;
use itoa::Buffer;

/// Puts all parts, one behind the other. Failed, a front of the whole was added.
pub fn put_all<K: Sink>(sink: &mut K, parts: &[&[u8]]) -> Result<(), Failed>
    ensures { Written (K.meaning sink.old) (flat_map (λ part. part.now) parts.now) (is_err result) (K.meaning sink.new) }
{
    for part in parts {
        match sink.put(part) {
            Ok(()) => {}
            Err(failed) => return Err(failed),
        }
    }
    Ok(())
}

/// Puts a text. Failed, a front of it was added.
pub fn put_text<K: Sink>(sink: &mut K, text: &[u8]) -> Result<(), Failed>
    ensures { Written (K.meaning sink.old) text.now (is_err result) (K.meaning sink.new) }
{
    sink.put(text)
}

/// Puts a text and a word behind it. Failed, a front of both was added.
pub fn put_word<K: Sink>(sink: &mut K, text: &[u8], word: &[u8]) -> Result<(), Failed>
    ensures { Written (K.meaning sink.old) (text.now ++ word.now) (is_err result) (K.meaning sink.new) }
{
    put_all(sink, &[text, word])
}

/// Puts a text and a decimal number behind it. Failed, a front of both was added.
pub fn put_number<K: Sink>(sink: &mut K, text: &[u8], number: u32) -> Result<(), Failed>
    ensures { Written (K.meaning sink.old) (text.now ++ decimal number) (is_err result) (K.meaning sink.new) }
{
    let mut digits = Buffer::new();
    put_all(sink, &[text, digits.format(number).as_bytes()])
}

/// Puts a text and two decimal numbers behind it, with a space between them. Failed, a front of it all was added.
pub fn put_numbers<K: Sink>(
    sink: &mut K,
    text: &[u8],
    first: u32,
    second: u32,
) -> Result<(), Failed>
    ensures { Written (K.meaning sink.old) (text.now ++ two_numbers first second) (is_err result) (K.meaning sink.new) }
{
    let mut first_digits = Buffer::new();
    let mut second_digits = Buffer::new();
    put_all(
        sink,
        &[
            text,
            first_digits.format(first).as_bytes(),
            b" ",
            second_digits.format(second).as_bytes(),
        ],
    )
}

/// The two hexadecimal digits of a byte, in lower case.
pub(crate) fn byte_digits(byte: u8) -> [u8; 2]
    ensures { result ≡ byte_word byte }
{
    [digit(byte / 16), digit(byte % 16)]
}

/// The hexadecimal digit of a number below 16, in lower case.
fn digit(value: u8) -> u8
    requires { value < 16 }
    ensures { result ≡ digit_glyph false value }
{
    if value < 10 {
        b'0' + value
    } else {
        b'a' + (value - 10)
    }
}
