//! What a part of a row stands for.
//!
//! `<09>` is the byte with these two hexadecimal digits, `<61*63>` that byte 63 times, `<u0009>` the character of this number in
//! hexadecimal digits, and `<>` nothing, so that a word can be empty; all else is itself.

use std::alloc::{AllocError, Global};

/// The byte of two hexadecimal digits.
fn byte_of(digits: &str) -> Option<u8> {
    if digits.len() != 2 {
        return None;
    }
    u8::from_str_radix(digits, 16).ok()
}

/// The character of a number in hexadecimal digits.
fn character_of(digits: &str) -> Option<char> {
    char::from_u32(u32::from_str_radix(digits, 16).ok()?)
}

/// Adds the byte of `09`, or so many of that of `61*63`. False where it is neither.
fn add_bytes(bytes: &mut Vec<u8>, written: &str) -> Result<bool, AllocError> {
    let (digits, count) = written.split_once('*').unwrap_or((written, "1"));
    let (Some(byte), Ok(count)) = (byte_of(digits), count.parse::<u16>()) else {
        return Ok(false);
    };
    for _ in 0..count {
        bytes.push(byte)?;
    }
    Ok(true)
}

/// Adds the bytes of the character of `u0009`. False where it isn't one.
fn add_character(alloc: Global, bytes: &mut Vec<u8>, digits: &str) -> Result<bool, AllocError> {
    let Some(character) = character_of(digits) else {
        return Ok(false);
    };
    let mut text = String::new(alloc);
    text.push(character)?;
    bytes.extend_from_slice(text.as_bytes())?;
    Ok(true)
}

/// Adds what stands between `<` and `>`. False where it stands for nothing.
fn add_written(alloc: Global, bytes: &mut Vec<u8>, written: &str) -> Result<bool, AllocError> {
    if written.is_empty() {
        return Ok(true);
    }
    match written.strip_prefix('u') {
        Some(digits) => add_character(alloc, bytes, digits),
        None => add_bytes(bytes, written),
    }
}

/// The bytes that a part of a row stands for; blanks around it aren't part of it. None where a `<` begins nothing.
pub fn bytes_of(alloc: Global, part: &str) -> Result<Option<Vec<u8>>, AllocError> {
    let mut bytes = Vec::new(alloc);
    let mut pieces = part.trim().split('<');
    if let Some(first) = pieces.next() {
        bytes.extend_from_slice(first.as_bytes())?;
    }
    for piece in pieces {
        let Some((written, rest)) = piece.split_once('>') else {
            return Ok(None);
        };
        if !add_written(alloc, &mut bytes, written)? {
            return Ok(None);
        }
        bytes.extend_from_slice(rest.as_bytes())?;
    }
    Ok(Some(bytes))
}

/// The text that a part of a row stands for. None where a `<` begins nothing, or the bytes are no text.
pub fn text_of(alloc: Global, part: &str) -> Result<Option<String>, AllocError> {
    match bytes_of(alloc, part)? {
        Some(bytes) => Ok(String::from_utf8(bytes).ok()),
        None => Ok(None),
    }
}
