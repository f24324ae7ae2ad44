//! Commands that prepare, start, stop and remove mappings and groups.

ghost use Rattle.std.specs.Prelude.{◌≡◌, true, false};
ghost use Rattle.fc_reading_notes.specs.Answers.{ReadsOr};
ghost use Rattle.fc_reading_requests.specs.Runs.{behind_flagged, behind_running, behind_start, raised_at, started_at, stopped_at, way_of};

use crate::asked::Asked;
use crate::parts::{begins_with_dash, take_object_and};
use fc_base::command::{Command, StopWay};
use fc_base::name::Ref;
use fc_reading::pieces::{one_of, word};
use fc_reading_notes::stop::ReadStop;
use std::alloc::Global;

/// Takes a flag, if it stands there, and an object with the arrow behind it.
fn take_raised<'a>(
    alloc: Global,
    flag: &[u8],
    bytes: &'a [u8],
) -> Result<(bool, Ref, &'a [u8]), ReadStop>
    ensures { ReadsOr (λ found. ((found.0, found.1), found.2.now)) result (raised_at flag.now bytes.now) }
{
    if begins_with_dash(bytes) {
        let rest = word(flag, bytes)?;
        let (object, rest) = take_object_and(alloc, b" -> ", rest)?;
        Ok((true, object, rest))
    } else {
        let (object, rest) = take_object_and(alloc, b" -> ", bytes)?;
        Ok((false, object, rest))
    }
}

/// Takes what stands behind the first flag of a start, `-prep`, word 0, or `-restore`: whether each is raised,
/// and the object.
fn take_behind_start(
    alloc: Global,
    flag: usize,
    bytes: &[u8],
) -> Result<(bool, bool, Ref, &[u8]), ReadStop>
    ensures { ReadsOr (λ found. (((found.0, found.1), found.2), found.3.now)) result
        (behind_start flag bytes.now) }
{
    if flag == 0 {
        let (restore, object, rest) = take_raised(alloc, b"-restore ", bytes)?;
        Ok((true, restore, object, rest))
    } else {
        let (object, rest) = take_object_and(alloc, b" -> ", bytes)?;
        Ok((false, true, object, rest))
    }
}

/// Takes the flags of a start, `-prep` and `-restore`, and an object with the arrow behind it.
fn take_started(alloc: Global, bytes: &[u8]) -> Result<(bool, bool, Ref, &[u8]), ReadStop>
    ensures { ReadsOr (λ found. (((found.0, found.1), found.2), found.3.now)) result (started_at bytes.now) }
{
    if begins_with_dash(bytes) {
        let (flag, rest) = one_of(&[b"-prep ", b"-restore "], bytes)?;
        take_behind_start(alloc, flag, rest)
    } else {
        let (object, rest) = take_object_and(alloc, b" -> ", bytes)?;
        Ok((false, false, object, rest))
    }
}

/// How a mapping or group is stopped, by the number of the flag.
fn way_of(flag: usize) -> StopWay
    ensures { result ≡ way_of flag }
{
    if flag == 0 {
        StopWay::Force
    } else {
        StopWay::Split
    }
}

/// Takes the flag of a stop, if one stands there, and an object with the arrow behind it.
fn take_stopped(alloc: Global, bytes: &[u8]) -> Result<(StopWay, Ref, &[u8]), ReadStop>
    ensures { ReadsOr (λ found. ((found.0, found.1), found.2.now)) result (stopped_at bytes.now) }
{
    if begins_with_dash(bytes) {
        let (flag, rest) = one_of(&[b"-force ", b"-split "], bytes)?;
        let (object, rest) = take_object_and(alloc, b" -> ", rest)?;
        Ok((way_of(flag), object, rest))
    } else {
        let (object, rest) = take_object_and(alloc, b" -> ", bytes)?;
        Ok((StopWay::Plain, object, rest))
    }
}

/// Takes what stands behind the word of a preparation or a removal, which is told by its number.
pub(crate) fn take_flagged(
    alloc: Global,
    word: usize,
    bytes: &[u8],
) -> Result<(Asked, &[u8]), ReadStop>
    ensures { ReadsOr (λ found. (found.0, found.1.now)) result (behind_flagged word bytes.now) }
{
    match word {
        0 => {
            let (restore, map, rest) = take_raised(alloc, b"-restore ", bytes)?;
            Ok((
                Asked::Command(Command::Prestartfcmap { map, restore }),
                rest,
            ))
        }
        1 => {
            let (restore, group, rest) = take_raised(alloc, b"-restore ", bytes)?;
            let command = Command::Prestartfcconsistgrp { group, restore };
            Ok((Asked::Command(command), rest))
        }
        2 => {
            let (force, map, rest) = take_raised(alloc, b"-force ", bytes)?;
            Ok((Asked::Command(Command::Rmfcmap { map, force }), rest))
        }
        _ => {
            let (force, group, rest) = take_raised(alloc, b"-force ", bytes)?;
            Ok((
                Asked::Command(Command::Rmfcconsistgrp { group, force }),
                rest,
            ))
        }
    }
}

/// Takes what stands behind the word of a start or a stop, which is told by its number.
pub(crate) fn take_running(
    alloc: Global,
    word: usize,
    bytes: &[u8],
) -> Result<(Asked, &[u8]), ReadStop>
    ensures { ReadsOr (λ found. (found.0, found.1.now)) result (behind_running word bytes.now) }
{
    match word {
        0 => {
            let (prep, restore, map, rest) = take_started(alloc, bytes)?;
            let command = Command::Startfcmap { map, prep, restore };
            Ok((Asked::Command(command), rest))
        }
        1 => {
            let (prep, restore, group, rest) = take_started(alloc, bytes)?;
            let command = Command::Startfcconsistgrp {
                group,
                prep,
                restore,
            };
            Ok((Asked::Command(command), rest))
        }
        2 => {
            let (way, map, rest) = take_stopped(alloc, bytes)?;
            Ok((Asked::Command(Command::Stopfcmap { map, way }), rest))
        }
        _ => {
            let (way, group, rest) = take_stopped(alloc, bytes)?;
            Ok((
                Asked::Command(Command::Stopfcconsistgrp { group, way }),
                rest,
            ))
        }
    }
}
