//! Commands that show.

ghost use Rattle.std.specs.Prelude.{◌≡◌};
ghost use Rattle.fc_reading_notes.specs.Answers.{ReadsOr};
ghost use Rattle.fc_reading_requests.specs.Reports.{behind_dash, behind_report, behind_room, list_at, maybe_object_at, report_at};

use crate::asked::Asked;
use crate::parts::{begins_with_dash, take_delim_and, take_object_and};
use fc_base::command::Command;
use fc_base::name::Ref;
use fc_reading::pieces::{one_of, word};
use fc_reading_notes::stop::ReadStop;
use std::alloc::Global;

/// Takes the delimiter of a report on an object, where one was given, and the object, with the arrow behind it.
fn take_report(alloc: Global, bytes: &[u8]) -> Result<(Option<u8>, Ref, &[u8]), ReadStop>
    ensures { ReadsOr (λ found. ((found.0, found.1), found.2.now)) result (report_at bytes.now) }
{
    if begins_with_dash(bytes) {
        let rest = word(b"-delim ", bytes)?;
        let (delim, rest) = take_delim_and(b" ", rest)?;
        let (object, rest) = take_object_and(alloc, b" -> ", rest)?;
        Ok((Some(delim), object, rest))
    } else {
        let (object, rest) = take_object_and(alloc, b" -> ", bytes)?;
        Ok((None, object, rest))
    }
}

/// Takes an object, where one was named, and the arrow.
fn take_maybe_object(alloc: Global, bytes: &[u8]) -> Result<(Option<Ref>, &[u8]), ReadStop>
    ensures { ReadsOr (λ found. (found.0, found.1.now)) result (maybe_object_at bytes.now) }
{
    if begins_with_dash(bytes) {
        let rest = word(b"-> ", bytes)?;
        Ok((None, rest))
    } else {
        let (object, rest) = take_object_and(alloc, b" -> ", bytes)?;
        Ok((Some(object), rest))
    }
}

/// Takes the delimiter and the object of a list behind `-> `, word 0, or `-delim `.
fn take_behind_dash(
    alloc: Global,
    word: usize,
    bytes: &[u8],
) -> Result<(Option<u8>, Option<Ref>, &[u8]), ReadStop>
    ensures { ReadsOr (λ found. ((found.0, found.1), found.2.now)) result (behind_dash word bytes.now) }
{
    if word == 0 {
        return Ok((None, None, bytes));
    }
    let (delim, rest) = take_delim_and(b" ", bytes)?;
    let (object, rest) = take_maybe_object(alloc, rest)?;
    Ok((Some(delim), object, rest))
}

/// Takes the delimiter of a list, where one was given, and its object, where one was named, with the arrow
/// behind them.
fn take_list(alloc: Global, bytes: &[u8]) -> Result<(Option<u8>, Option<Ref>, &[u8]), ReadStop>
    ensures { ReadsOr (λ found. ((found.0, found.1), found.2.now)) result (list_at bytes.now) }
{
    if begins_with_dash(bytes) {
        let (index, rest) = one_of(&[b"-> ", b"-delim "], bytes)?;
        take_behind_dash(alloc, index, rest)
    } else {
        let (object, rest) = take_object_and(alloc, b" -> ", bytes)?;
        Ok((None, Some(object), rest))
    }
}

/// Takes what stands behind the first word of a command that shows, which is told by its number.
pub(crate) fn take_shown(
    alloc: Global,
    word: usize,
    bytes: &[u8],
) -> Result<(Asked, &[u8]), ReadStop>
    ensures { ReadsOr (λ found. (found.0, found.1.now)) result (behind_report word bytes.now) }
{
    match word {
        0 => {
            let (delim, map, rest) = take_list(alloc, bytes)?;
            Ok((Asked::Command(Command::Lsfcmap { map, delim }), rest))
        }
        1 => {
            let (delim, group, rest) = take_list(alloc, bytes)?;
            Ok((
                Asked::Command(Command::Lsfcconsistgrp { group, delim }),
                rest,
            ))
        }
        2 => Ok((Asked::Command(Command::Lsvdisk { delim: None }), bytes)),
        3 => {
            let (delim, rest) = take_delim_and(b" -> ", bytes)?;
            let delim = Some(delim);
            Ok((Asked::Command(Command::Lsvdisk { delim }), rest))
        }
        4 => {
            let (delim, map, rest) = take_report(alloc, bytes)?;
            Ok((
                Asked::Command(Command::Lsfcmapprogress { map, delim }),
                rest,
            ))
        }
        _ => {
            let (delim, map, rest) = take_report(alloc, bytes)?;
            let command = Command::Lsfcmapdependentmaps { map, delim };
            Ok((Asked::Command(command), rest))
        }
    }
}

/// Takes what stands behind the first word of the report on volumes' room, which is told by its number.
pub(crate) fn take_room(word: usize, bytes: &[u8]) -> Result<(Asked, &[u8]), ReadStop>
    ensures { ReadsOr (λ found. (found.0, found.1.now)) result (behind_room word bytes.now) }
{
    if word == 0 {
        return Ok((Asked::Command(Command::Lsvdiskroom { delim: None }), bytes));
    }
    let (delim, rest) = take_delim_and(b" -> ", bytes)?;
    let delim = Some(delim);
    Ok((Asked::Command(Command::Lsvdiskroom { delim }), rest))
}
