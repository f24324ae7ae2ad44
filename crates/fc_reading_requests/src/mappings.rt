//! Commands that make mappings and groups.

ghost use Rattle.std.specs.Prelude.{◌≡◌, ◌≤◌, ◌+◌, IfOk};
ghost use Rattle.fc_reading.specs.Pieces.{Reads};
ghost use Rattle.fc_reading_notes.specs.Answers.{ReadsOr};
ghost use Rattle.fc_reading_requests.specs.Mappings.{a_mapping, behind_making, given_at, grain_size_of, later_at, settings_at};
ghost use Rattle.fc_reading_requests.specs.Parts.{name_at, number_32, object_at};

use crate::asked::Asked;
use crate::parts::{one_from, take_name, take_name_and, take_number, take_object, take_object_and};
use fc_base::command::Command;
use fc_base::name::{Name, Ref};
use fc_base::size::GrainSize;
use fc_reading::pieces::Malformed;
use fc_reading_notes::stop::ReadStop;
use std::alloc::Global;

/// The options of a new mapping.
#[derive(Drop)]
struct Settings {
    /// Its name, where one was given.
    name: Option<Name>,
    /// Its group, where one was given.
    group: Option<Ref>,
    /// Its copy rate, where one was given.
    copy_rate: Option<u32>,
    /// Its clean rate, where one was given.
    clean_rate: Option<u32>,
    /// The number of what stands behind its rates.
    end: usize,
}

/// Takes one of the options of a new mapping with a value, from the first so numbered on, or what ends them
/// all, by its number.
fn take_later(first: usize, bytes: &[u8]) -> Result<(usize, &[u8]), Malformed>
    requires { first ≤ 4 }
    ensures value { Reads (λ found. (found.0, found.1.now)) result (later_at first bytes.now) }
    ensures later { IfOk result (λ found. first ≤ found.0) }
{
    let words: [&[u8]; 16] = [
        b" -name ",
        b" -consistgrp ",
        b" -copyrate ",
        b" -cleanrate ",
        b" -> ",
        b" -autodelete -> ",
        b" -incremental -> ",
        b" -incremental -autodelete -> ",
        b" -grainsize 64 -> ",
        b" -grainsize 64 -autodelete -> ",
        b" -grainsize 64 -incremental -> ",
        b" -grainsize 64 -incremental -autodelete -> ",
        b" -grainsize 256 -> ",
        b" -grainsize 256 -autodelete -> ",
        b" -grainsize 256 -incremental -> ",
        b" -grainsize 256 -incremental -autodelete -> ",
    ];
    one_from(&words, first, bytes)
}

/// Takes the name of a new mapping, and what stands behind it, where the option for it is next.
fn take_given_name(
    alloc: Global,
    next: usize,
    bytes: &[u8],
) -> Result<(Option<Name>, usize, &[u8]), ReadStop>
    ensures value { ReadsOr (λ found. ((found.0, found.1), found.2.now)) result
        (given_at 0 name_at next bytes.now) }
    ensures later { IfOk result (λ found. 1 ≤ found.1) }
{
    match next {
        0 => {
            let (name, rest) = take_name(alloc, bytes)?;
            let (next, rest) = take_later(1, rest)?;
            Ok((Some(name), next, rest))
        }
        _ => Ok((None, next, bytes)),
    }
}

/// Takes the group of a new mapping, and what stands behind it, where the option for it is next.
fn take_given_group(
    alloc: Global,
    next: usize,
    bytes: &[u8],
) -> Result<(Option<Ref>, usize, &[u8]), ReadStop>
    requires { 1 ≤ next }
    ensures value { ReadsOr (λ found. ((found.0, found.1), found.2.now)) result
        (given_at 1 object_at next bytes.now) }
    ensures later { IfOk result (λ found. 2 ≤ found.1) }
{
    if next != 1 {
        return Ok((None, next, bytes));
    }
    let (group, rest) = take_object(alloc, bytes)?;
    let (next, rest) = take_later(2, rest)?;
    Ok((Some(group), next, rest))
}

/// Takes a rate of a new mapping, and what stands behind it, where the option for it is next.
fn take_given_rate(
    number: usize,
    next: usize,
    bytes: &[u8],
) -> Result<(Option<u32>, usize, &[u8]), Malformed>
    requires order { number ≤ next }
    requires small { number ≤ 3 }
    ensures value { Reads (λ found. ((found.0, found.1), found.2.now)) result
        (given_at number number_32 next bytes.now) }
    ensures later { IfOk result (λ found. number + 1 ≤ found.1) }
{
    if next != number {
        return Ok((None, next, bytes));
    }
    let (rate, rest) = take_number(bytes)?;
    let (next, rest) = take_later(number + 1, rest)?;
    Ok((Some(rate), next, rest))
}

/// Takes the options of a new mapping behind its target, and the arrow.
fn take_settings(alloc: Global, bytes: &[u8]) -> Result<(Settings, &[u8]), ReadStop>
    ensures { ReadsOr (λ found. (found.0, found.1.now)) result (settings_at bytes.now) }
{
    let (next, rest) = take_later(0, bytes)?;
    let (name, next, rest) = take_given_name(alloc, next, rest)?;
    let (group, next, rest) = take_given_group(alloc, next, rest)?;
    let (copy_rate, next, rest) = take_given_rate(2, next, rest)?;
    let (clean_rate, next, rest) = take_given_rate(3, next, rest)?;
    let settings = Settings {
        name,
        group,
        copy_rate,
        clean_rate,
        end: next - 4,
    };
    Ok((settings, rest))
}

/// The grain size of a new mapping, by the number of what stands behind its rates.
fn grain_size_of(end: usize) -> Option<GrainSize>
    ensures { result ≡ grain_size_of end }
{
    match end {
        0..=3 => None,
        4..=7 => Some(GrainSize::K64),
        _ => Some(GrainSize::K256),
    }
}

/// The command that makes a mapping.
fn mkfcmap(source: Ref, target: Ref, settings: Settings) -> Asked
    ensures { result ≡ a_mapping (source, (target, settings)) }
{
    Asked::Command(Command::Mkfcmap {
        source,
        target,
        name: settings.name,
        group: settings.group,
        copy_rate: settings.copy_rate,
        clean_rate: settings.clean_rate,
        grain_size: grain_size_of(settings.end),
        incremental: settings.end % 4 >= 2,
        autodelete: settings.end % 2 == 1,
    })
}

/// Takes what stands behind the first word of a command that makes a mapping or a group, which is told by its
/// number.
pub(crate) fn take_making(
    alloc: Global,
    word: usize,
    bytes: &[u8],
) -> Result<(Asked, &[u8]), ReadStop>
    ensures { ReadsOr (λ found. (found.0, found.1.now)) result (behind_making word bytes.now) }
{
    match word {
        0 => {
            let (source, rest) = take_object_and(alloc, b" -target ", bytes)?;
            let (target, rest) = take_object(alloc, rest)?;
            let (settings, rest) = take_settings(alloc, rest)?;
            Ok((mkfcmap(source, target, settings), rest))
        }
        1 => Ok((
            Asked::Command(Command::Mkfcconsistgrp { name: None }),
            bytes,
        )),
        _ => {
            let (name, rest) = take_name_and(alloc, b" -> ", bytes)?;
            let name = Some(name);
            Ok((Asked::Command(Command::Mkfcconsistgrp { name }), rest))
        }
    }
}
