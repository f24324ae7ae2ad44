//! Phrases: a text, and what stands behind it.

ghost use Rattle.std.specs.Prelude.{◌++◌, is_err};
ghost use Rattle.std.specs.List.{flat_map};
ghost use Rattle.fc_entry.specs.Phrase.{phrase_text};
ghost use Rattle.fc_entry.specs.Text.{volume_text};
ghost use Rattle.fc_entry.specs.Written.{Written};

use crate::parts::{put_number, put_numbers, put_text, put_word};
use fc_base::ids::VolId;
use fc_base::outcome::Failed;
use fc_io::sink::Sink;

/// A text, and what stands behind it.
#[derive(Clone, Copy)]
pub enum Phrase<'a> {
    /// The text alone.
    Text(&'a [u8]),
    /// A word behind it.
    Word(&'a [u8], &'a [u8]),
    /// A decimal number behind it.
    Number(&'a [u8], u32),
    /// Two decimal numbers behind it, with a space between them.
    Numbers(&'a [u8], u32, u32),
    /// The ids of volumes behind it, each behind a space.
    Volumes(&'a [u8], &'a [VolId]),
}

/// Puts volumes, each behind a space.
fn put_volumes<K: Sink>(volumes: &[VolId], sink: &mut K) -> Result<(), Failed>
    ensures { Written (K.meaning sink.old) (flat_map volume_text volumes.now) (is_err result)
        (K.meaning sink.new) }
{
    for volume in volumes {
        match put_number(sink, b" ", volume.0) {
            Ok(()) => {}
            Err(failed) => return Err(failed),
        }
    }
    Ok(())
}

/// Puts a text and volumes behind it.
fn put_listed<K: Sink>(text: &[u8], volumes: &[VolId], sink: &mut K) -> Result<(), Failed>
    ensures { Written (K.meaning sink.old) (text.now ++ flat_map volume_text volumes.now) (is_err result)
        (K.meaning sink.new) }
{
    put_text(sink, text)?;
    put_volumes(volumes, sink)
}

/// Puts a phrase. Failed, a front of it was added.
pub(crate) fn put_phrase<K: Sink>(phrase: Phrase<'_>, sink: &mut K) -> Result<(), Failed>
    ensures { Written (K.meaning sink.old) (phrase_text phrase.entry) (is_err result) (K.meaning sink.new) }
{
    match phrase {
        Phrase::Text(text) => put_text(sink, text),
        Phrase::Word(text, word) => put_word(sink, text, word),
        Phrase::Number(text, number) => put_number(sink, text, number),
        Phrase::Numbers(text, first, second) => put_numbers(sink, text, first, second),
        Phrase::Volumes(text, volumes) => put_listed(text, volumes, sink),
    }
}
