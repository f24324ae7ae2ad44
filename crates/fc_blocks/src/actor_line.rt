//! `actor` lines, as far as the name.
//!
//! A faulty line is read once more here: where it is an `actor` line, the fault of its name comes before its own.

ghost use Rattle.std.specs.Prelude.{◌≡◌, [], ◌∷◌, None, Some, MatchOption, not};
ghost use Rattle.std.specs.List.{position};
ghost use Rattle.fc_blocks.specs.ActorLines.{actor_words, behind_actor, first_name, naming};
ghost use Rattle.fc_words.specs.Lines.{is_prefix};
ghost use Rattle.fc_words.specs.Words.{is_blank, words_of};

use fc_base::limits::MAX_LINE_BYTES;
use fc_base::name::is_name_text;

/// Whether the byte parts words: a space or a tab.
fn is_blank_byte(byte: u8) -> bool
    ensures { result ≡ is_blank byte }
{
    byte == b' ' || byte == b'\t'
}

/// The place of the first byte of a word.
fn word_start(line: &[u8]) -> Option<usize>
    ensures { result ≡ position (λ byte. not (is_blank byte)) line.now }
{
    line.iter().position(|byte| !is_blank_byte(*byte))
}

/// The place of the first blank.
fn word_end(line: &[u8]) -> Option<usize>
    ensures { result ≡ position is_blank line.now }
{
    line.iter().position(|byte| is_blank_byte(*byte))
}

/// The first word of a line, and what stands behind it. None where the line has no words.
fn first_word(line: &[u8]) -> Option<(&[u8], &[u8])>
    ensures { MatchOption result (words_of line.now ≡ [])
        (λ parts. words_of line.now ≡ parts.0.now ∷ words_of parts.1.now) }
{
    let Some(start) = word_start(line) else {
        return None;
    };
    let (_, rest) = line.split_at(start);
    match word_end(rest) {
        Some(end) => Some(rest.split_at(end)),
        None => Some((rest, &[])),
    }
}

/// Whether the word is `svctask` or `svcinfo`, which are passed over in front of a line.
fn is_prefix_word(word: &[u8]) -> bool
    ensures { result ≡ is_prefix word.now }
{
    word == b"svctask".as_slice() || word == b"svcinfo".as_slice()
}

/// The line from the word that names it on.
fn naming_part(line: &[u8]) -> &[u8]
    ensures { words_of result.now ≡ naming (words_of line.now) }
{
    match first_word(line) {
        Some((first, behind)) if is_prefix_word(first) => behind,
        _ => line,
    }
}

/// What stands behind the word `actor`, where that names the line.
fn behind_actor_word(line: &[u8]) -> Option<&[u8]>
    ensures { MatchOption result (behind_actor (words_of line.now) ≡ None)
        (λ behind. behind_actor (words_of line.now) ≡ Some (words_of behind.now)) }
{
    match first_word(line) {
        Some((first, behind)) if first == b"actor".as_slice() => Some(behind),
        _ => None,
    }
}

/// Of an `actor` line what stands behind `actor`. None of any other line, as one that is too long is.
pub fn actor_part(line: &[u8]) -> Option<&[u8]>
    ensures { MatchOption result (actor_words line.now ≡ None)
        (λ behind. actor_words line.now ≡ Some (words_of behind.now)) }
{
    if line.len() > MAX_LINE_BYTES {
        return None;
    }
    behind_actor_word(naming_part(line))
}

/// The name of an actor, by what stands behind the word `actor`. None where the first word there is no name.
pub fn actor_name(behind: &[u8]) -> Option<&[u8]>
    ensures { MatchOption result (first_name (words_of behind.now) ≡ None)
        (λ name. first_name (words_of behind.now) ≡ Some name.now) }
{
    match first_word(behind) {
        Some((word, _)) if is_name_text(word) => Some(word),
        _ => None,
    }
}
