//! Why a command was refused.

ghost use Rattle.std.specs.Prelude.{◌≡◌, ◌<◌};
ghost use Rattle.fc_reading.specs.Pieces.{Reads};
ghost use Rattle.fc_reading.specs.Readers.{one_of_at};
ghost use Rattle.fc_reading_notes.specs.Answers.{ReadsOr};
ghost use Rattle.fc_reading_replies.specs.Begun.{two_at};
ghost use Rattle.fc_reading_replies.specs.Refusals.{grain_of, kind_of, numbered_refusal, plain_refusal, refusal_at, refusal_behind, refusal_of, refusal_words, value_of, volume_at, volumes_at};

use fc_base::fault::{Kind, Refusal, ValueOf};
use fc_base::ids::{GroupId, MapId, VolId};
use fc_base::list::List;
use fc_base::size::GrainSize;
use fc_reading::pieces::{Malformed, one_of};
use fc_reading_notes::lines::{state_of, take_ending, take_id};
use fc_reading_notes::stop::ReadStop;
use std::alloc::Global;

/// The kind of object with this number, in the order in which they are declared.
pub(crate) fn kind_of(number: usize) -> Kind
    ensures { result ≡ kind_of number }
{
    match number {
        0 => Kind::Vdisk,
        1 => Kind::Fcmap,
        _ => Kind::Group,
    }
}

/// The value with this number, in the order in which they are declared.
fn value_of(number: usize) -> ValueOf
    ensures { result ≡ value_of number }
{
    match number {
        0 => ValueOf::Size,
        1 => ValueOf::CopyRate,
        2 => ValueOf::CleanRate,
        3 => ValueOf::Seconds,
        4 => ValueOf::Blocks,
        _ => ValueOf::Grain,
    }
}

/// The size of grains with this number, the smaller first.
fn grain_of(number: usize) -> GrainSize
    ensures { result ≡ grain_of number }
{
    match number {
        0 => GrainSize::K64,
        _ => GrainSize::K256,
    }
}

/// The refusal with this number among those that say nothing beside why.
fn plain_refusal(alloc: Global, number: usize) -> Refusal
    ensures { result ≡ plain_refusal number }
{
    match number {
        0 => Refusal::NoDisk,
        1 => Refusal::NotPrepared,
        2 => Refusal::Empty,
        3 => Refusal::NeedsForce,
        4 => Refusal::SameVolume,
        _ => Refusal::RestoreLoop(List::new(alloc)),
    }
}

/// The refusal that the whole text with this number tells.
fn refusal_of(alloc: Global, number: usize) -> Refusal
    ensures { result ≡ refusal_of number }
{
    if number < 3 {
        return Refusal::NoSuch(kind_of(number));
    }
    if number < 9 {
        return Refusal::BadValue(value_of(number - 3));
    }
    if number < 16 {
        return Refusal::NotAllowed(state_of(number - 9));
    }
    if number < 20 {
        let asked = grain_of((number - 16) / 2);
        let run = grain_of((number - 16) % 2);
        return Refusal::GrainDiffers { asked, run };
    }
    plain_refusal(alloc, number - 20)
}

/// The refusal with a number that the words with this number begin.
fn numbered_refusal(words: usize, number: u32) -> Refusal
    ensures { result ≡ numbered_refusal words number }
{
    match words {
        0 => Refusal::NameTaken(number),
        1 => Refusal::Limit(number),
        2 => Refusal::InUse(VolId(number)),
        3 => Refusal::InGroup(GroupId(number)),
        4 => Refusal::TargetTwice(VolId(number)),
        5 => Refusal::SourceIsTarget(VolId(number)),
        6 => Refusal::SourceNotReady(VolId(number)),
        7 => Refusal::TargetActive(MapId(number)),
        8 => Refusal::TargetIsSource(VolId(number)),
        _ => Refusal::PairTaken(MapId(number)),
    }
}

/// Takes two numbers of 32 bits and the end of their line.
pub(crate) fn take_two(bytes: &[u8]) -> Result<(u32, u32, &[u8]), Malformed>
    ensures { Reads (λ found. ((found.0, found.1), found.2.now)) result (two_at bytes.now) }
{
    let (first, rest) = take_id(b" ", bytes)?;
    let (second, rest) = take_id(b"\n", rest)?;
    Ok((first, second, rest))
}

/// Takes a volume of a loop, and says whether one more follows.
fn take_volume(bytes: &[u8]) -> Result<(VolId, bool, &[u8]), Malformed>
    ensures { Reads (λ found. ((found.0, found.1), found.2.now)) result (volume_at bytes.now) }
{
    let (volume, end, rest) = take_ending(&[b"\n", b" "], bytes)?;
    Ok((VolId(volume), end == 1, rest))
}

/// Takes the volumes of a loop, one at least, and the end of their line.
fn take_volumes(alloc: Global, bytes: &[u8]) -> Result<(List<VolId>, &[u8]), ReadStop>
    ensures { ReadsOr (λ found. (found.0, found.1.now)) result (volumes_at bytes.now) }
{
    let mut volumes = List::new(alloc);
    let mut rest = bytes;
    for _ in 0..bytes.len() {
        match take_volume(rest) {
            Ok((volume, more, behind)) => {
                volumes.push(volume)?;
                if !more {
                    return Ok((volumes, behind));
                }
                rest = behind;
            }
            Err(stopped) => return Err(ReadStop::Malformed(stopped)),
        }
    }
    Err(ReadStop::Malformed(Malformed { left: rest.len() }))
}

/// Takes the whole text of a refusal, or the words that begin it, by their number.
fn take_words(bytes: &[u8]) -> Result<(usize, &[u8]), Malformed>
    ensures { Reads (λ found. (found.0, found.1.now)) result (one_of_at refusal_words bytes.now) }
{
    let words: [&[u8]; 39] = [
        b"no such vdisk\n",
        b"no such fcmap\n",
        b"no such group\n",
        b"bad value of size\n",
        b"bad value of copyrate\n",
        b"bad value of cleanrate\n",
        b"bad value of seconds\n",
        b"bad value of blocks\n",
        b"bad value of grain\n",
        b"not allowed in empty\n",
        b"not allowed in idle_or_copied\n",
        b"not allowed in preparing\n",
        b"not allowed in prepared\n",
        b"not allowed in copying\n",
        b"not allowed in stopping\n",
        b"not allowed in stopped\n",
        b"grain differs 64 64\n",
        b"grain differs 64 256\n",
        b"grain differs 256 64\n",
        b"grain differs 256 256\n",
        b"no disk\n",
        b"not prepared\n",
        b"empty group\n",
        b"needs force\n",
        b"same volume\n",
        b"restore loop\n",
        b"name taken ",
        b"limit ",
        b"in use ",
        b"in group ",
        b"target twice ",
        b"source is target ",
        b"source not ready ",
        b"target active ",
        b"target is source ",
        b"pair taken ",
        b"not complete ",
        b"size differs ",
        b"restore loop ",
    ];
    one_of(&words, bytes)
}

/// Takes what stands behind the words that begin a refusal, which are told by their number.
fn take_behind(alloc: Global, words: usize, bytes: &[u8]) -> Result<(Refusal, &[u8]), ReadStop>
    ensures { ReadsOr (λ found. (found.0, found.1.now)) result (refusal_behind words bytes.now) }
{
    if words < 26 {
        return Ok((refusal_of(alloc, words), bytes));
    }
    if words < 36 {
        let (number, rest) = take_id(b"\n", bytes)?;
        return Ok((numbered_refusal(words - 26, number), rest));
    }
    match words {
        36 => {
            let (held, total, rest) = take_two(bytes)?;
            Ok((Refusal::NotComplete { held, total }, rest))
        }
        37 => {
            let (source, target, rest) = take_two(bytes)?;
            Ok((Refusal::SizeDiffers { source, target }, rest))
        }
        _ => match take_volumes(alloc, bytes) {
            Ok((volumes, rest)) => Ok((Refusal::RestoreLoop(volumes), rest)),
            Err(stop) => Err(stop),
        },
    }
}

/// Takes why a command was refused, and the end of its line.
#[tactic(auto, using(crate::proofs::Steps::refusal_then, crate::proofs::Steps::refusal_stop))]
pub(crate) fn take_refusal(alloc: Global, bytes: &[u8]) -> Result<(Refusal, &[u8]), ReadStop>
    ensures { ReadsOr (λ found. (found.0, found.1.now)) result (refusal_at bytes.now) }
{
    let (words, rest) = take_words(bytes)?;
    take_behind(alloc, words, rest)
}
