//! All that may be asked.

ghost use Rattle.std.specs.Prelude.{◌≡◌, ◌≤◌, IfErr, IfOk, length, take};
ghost use Rattle.fc_reading.specs.Pieces.{Reads};
ghost use Rattle.fc_reading.specs.Readers.{one_of_at};
ghost use Rattle.fc_reading.specs.Stops.{StopsAt};
ghost use Rattle.fc_reading_notes.specs.Answers.{ReadsOr};
ghost use Rattle.fc_reading_notes.specs.Told.{IfMalformed};
ghost use Rattle.fc_reading_requests.specs.Asked.{IsAsked, IsLine, asked_line};
ghost use Rattle.fc_reading_requests.specs.Back.{ReadsBack};
ghost use Rattle.fc_reading_requests.specs.Requests.{asked_at, asked_words, behind_word};

use crate::accesses::take_access;
use crate::asked::Asked;
use crate::mappings::take_making;
use crate::presets::take_preset;
use crate::reports::{take_room, take_shown};
use crate::runs::{take_flagged, take_running};
use crate::volumes::take_volume;
use fc_reading::pieces::{Malformed, one_of};
use fc_reading_notes::notes::NotTold;
use fc_reading_notes::stop::ReadStop;
use std::alloc::Global;

/// Takes the word that begins what was asked, by its number.
fn take_first(bytes: &[u8]) -> Result<(usize, &[u8]), Malformed>
    ensures { Reads (λ found. (found.0, found.1.now)) result (one_of_at asked_words bytes.now) }
{
    let words: [&[u8]; 32] = [
        b"- -> ",
        b"read ",
        b"write ",
        b"copy ",
        b"clean ",
        b"copyturn ",
        b"cleanturn ",
        b"mkvdisk -name ",
        b"mkvdisk -size ",
        b"rmvdisk ",
        b"armfault ",
        b"advance -seconds ",
        b"mkfcmap -source ",
        b"mkfcconsistgrp -> ",
        b"mkfcconsistgrp -name ",
        b"prestartfcmap ",
        b"prestartfcconsistgrp ",
        b"rmfcmap ",
        b"rmfcconsistgrp ",
        b"startfcmap ",
        b"startfcconsistgrp ",
        b"stopfcmap ",
        b"stopfcconsistgrp ",
        b"lsfcmap ",
        b"lsfcconsistgrp ",
        b"lsvdisk -> ",
        b"lsvdisk -delim ",
        b"lsfcmapprogress ",
        b"lsfcmapdependentmaps ",
        b"mkpreset -source ",
        b"lsvdiskroom -> ",
        b"lsvdiskroom -delim ",
    ];
    one_of(&words, bytes)
}

/// Takes what stands behind the first word, which is told by its number.
fn take_behind(alloc: Global, word: usize, bytes: &[u8]) -> Result<(Asked, &[u8]), ReadStop>
    ensures { ReadsOr (λ found. (found.0, found.1.now)) result (behind_word word bytes.now) }
{
    match word {
        0..=6 => take_access(alloc, word, bytes),
        7..=11 => take_volume(alloc, word - 7, bytes),
        12..=14 => take_making(alloc, word - 12, bytes),
        15..=18 => take_flagged(alloc, word - 15, bytes),
        19..=22 => take_running(alloc, word - 19, bytes),
        23..=28 => take_shown(alloc, word - 23, bytes),
        29 => take_preset(alloc, bytes),
        _ => take_room(word - 30, bytes),
    }
}

/// Takes what was asked, and the arrow.
pub fn take_asked(alloc: Global, bytes: &[u8]) -> Result<(Asked, &[u8]), ReadStop>
    ensures { ReadsOr (λ found. (found.0, found.1.now)) result (asked_at bytes.now) }
{
    let (word, rest) = take_first(bytes)?;
    take_behind(alloc, word, rest)
}

/// Reads from the front of the bytes what was asked, and the arrow behind it: what the text tells, and the
/// length of both. So each request that an entry can hold is read as it is asked. Refused with the place of the
/// first byte with which no such text goes on, or the end where the bytes end too early; or for want of memory.
pub fn read_request(alloc: Global, bytes: &[u8]) -> Result<(Asked, usize), NotTold>
    ensures within { IfOk result (λ found. found.1 ≤ length bytes.now) }
    ensures found { IfOk result (λ found. take found.1 bytes.now ≡ asked_line found.0) }
    ensures fits { IfOk result (λ found. IsAsked found.0) }
    ensures malformed { IfErr result (λ stop. IfMalformed stop (StopsAt IsLine bytes.now)) }
    ensures back { ReadsBack bytes.now result }
{
    match take_asked(alloc, bytes) {
        Ok((asked, rest)) => Ok((asked, bytes.len() - rest.len())),
        Err(ReadStop::Malformed(stopped)) => Err(NotTold::Malformed(bytes.len() - stopped.left)),
        Err(ReadStop::NoMemory) => Err(NotTold::NoMemory),
    }
}
