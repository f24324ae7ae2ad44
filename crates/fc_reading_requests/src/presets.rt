//! The line of a preset.

ghost use Rattle.std.specs.Prelude.{◌≡◌};
ghost use Rattle.fc_reading.specs.Pieces.{Reads};
ghost use Rattle.fc_reading_notes.specs.Answers.{ReadsOr};
ghost use Rattle.fc_reading_requests.specs.Presets.{behind_preset, given_name_at, named_at, preset_at, preset_of};

use crate::asked::Asked;
use crate::parts::{take_name_and, take_object_and};
use fc_base::command::{Command, Preset};
use fc_base::name::Name;
use fc_reading::pieces::{Malformed, one_of};
use fc_reading_notes::stop::ReadStop;
use std::alloc::Global;

/// What the copy is for, by the number of the word that says it.
fn preset_of(index: usize) -> Preset
    ensures { result ≡ preset_of index }
{
    match index {
        0 => Preset::Snapshot,
        1 => Preset::Clone,
        _ => Preset::Backup,
    }
}

/// Takes what the copy is for.
fn take_purpose(bytes: &[u8]) -> Result<(Preset, &[u8]), Malformed>
    ensures { Reads (λ found. (found.0, found.1.now)) result (preset_at bytes.now) }
{
    let (index, rest) = one_of(&[b"snapshot", b"clone", b"backup"], bytes)?;
    Ok((preset_of(index), rest))
}

/// Takes a name and the arrow behind ` -name `; behind the arrow, word 0, there is none.
fn take_named(alloc: Global, word: usize, bytes: &[u8]) -> Result<(Option<Name>, &[u8]), ReadStop>
    ensures { ReadsOr (λ found. (found.0, found.1.now)) result (named_at word bytes.now) }
{
    if word == 0 {
        return Ok((None, bytes));
    }
    let (name, rest) = take_name_and(alloc, b" -> ", bytes)?;
    Ok((Some(name), rest))
}

/// Takes the name of what is made, where one was given, and the arrow.
fn take_given_name(alloc: Global, bytes: &[u8]) -> Result<(Option<Name>, &[u8]), ReadStop>
    ensures { ReadsOr (λ found. (found.0, found.1.now)) result (given_name_at bytes.now) }
{
    let (word, rest) = one_of(&[b" -> ", b" -name "], bytes)?;
    take_named(alloc, word, rest)
}

/// Takes what stands behind the word that begins the line of a preset.
pub(crate) fn take_preset(alloc: Global, bytes: &[u8]) -> Result<(Asked, &[u8]), ReadStop>
    ensures { ReadsOr (λ found. (found.0, found.1.now)) result (behind_preset bytes.now) }
{
    let (source, rest) = take_object_and(alloc, b" -preset ", bytes)?;
    let (preset, rest) = take_purpose(rest)?;
    let (name, rest) = take_given_name(alloc, rest)?;
    let command = Command::Mkpreset {
        source,
        preset,
        name,
    };
    Ok((Asked::Command(command), rest))
}
