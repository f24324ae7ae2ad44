//! Words of a line, read in place.

ghost use Rattle.std.specs.Prelude.{◌≡◌, [], ◌∷◌, false, MatchOption};
ghost use Rattle.std.specs.List.{position, prefix_len};
ghost use Rattle.fc_words.specs.Words.{is_blank, starts_blank, words_of};

/// Whether the byte parts words: a space or a tab.
fn is_blank_byte(byte: u8) -> bool
    ensures { result ≡ is_blank byte }
{
    byte == b' ' || byte == b'\t'
}

/// The place of the first blank.
fn first_blank(line: &[u8]) -> Option<usize>
    ensures { result ≡ position is_blank line.now }
{
    line.iter().position(|byte| is_blank_byte(*byte))
}

/// The line from its first word on.
fn skip_blanks(line: &[u8]) -> &[u8]
    ensures words { words_of result.now ≡ words_of line.now }
    ensures at_word { starts_blank result.now ≡ false }
{
    let mut rest = line;
    while !rest.is_empty() {
        if !is_blank_byte(rest[0]) {
            return rest;
        }
        rest = &rest[1..];
    }
    rest
}

/// The first word of a line, and what stands behind it. None where the line has no words.
pub fn split_word(line: &[u8]) -> Option<(&[u8], &[u8])>
    ensures { MatchOption result (words_of line.now ≡ [])
        (λ parts. words_of line.now ≡ parts.0.now ∷ words_of parts.1.now) }
{
    let rest = skip_blanks(line);
    if rest.is_empty() {
        return None;
    }
    match first_blank(rest) {
        Some(end) => Some(rest.split_at(end)),
        None => Some((rest, &[])),
    }
}
