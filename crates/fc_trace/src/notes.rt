//! What an entry did: its calls and faults, its moves, the grain that it tore, its effects.

ghost use Rattle.std.specs.Prelude.{◌≡◌, ◌++◌, codes, decimal, is_err};
ghost use Rattle.std.specs.List.{flat_map};
ghost use Rattle.fc_entry.specs.Text.{state_text, two_numbers};
ghost use Rattle.fc_entry.specs.Written.{Written};
ghost use Rattle.fc_trace.specs.Notes.{calls_text, effect_text, kept_text, move_text, notes_text, pair_text, side_text, text_if, torn_text};

use crate::ranges::put_kept;
use fc_base::ids::{MapId, VolId};
use fc_base::outcome::Failed;
use fc_base::ranges::Range;
use fc_base::request::{Effect, Move, Pair, Place, Side, Torn};
use fc_base::state::MapState;
use fc_entry::entry::Entry;
use fc_entry::parts::{put_all, put_text};
use fc_entry::refusal_text::state_word;
use fc_io::sink::Sink;
use itoa::Buffer;

/// Puts so many calls of disks, and the faults before and after them.
fn put_lane_calls<K: Sink>(calls: u32, before: u64, after: u64, sink: &mut K) -> Result<(), Failed>
    ensures { Written (K.meaning sink.old)
        (codes "+ calls " ++ decimal calls ++ codes " faults " ++ two_numbers before after ++ codes "\n")
        (is_err result) (K.meaning sink.new) }
{
    let mut calls_digits = Buffer::new();
    let mut before_digits = Buffer::new();
    let mut after_digits = Buffer::new();
    put_all(
        sink,
        &[
            b"+ calls ",
            calls_digits.format(calls).as_bytes(),
            b" faults ",
            before_digits.format(before).as_bytes(),
            b" ",
            after_digits.format(after).as_bytes(),
            b"\n",
        ],
    )
}

/// Puts the calls and faults of an entry of a lane, and nothing of another entry.
fn put_calls<K: Sink>(
    place: Place,
    calls: u32,
    before: u64,
    after: u64,
    sink: &mut K,
) -> Result<(), Failed>
    ensures { Written (K.meaning sink.old) (calls_text place calls before after) (is_err result) (K.meaning sink.new) }
{
    match place {
        Place::Lane(_) => put_lane_calls(calls, before, after, sink),
        Place::Every | Place::Control => put_text(sink, b""),
    }
}

/// The text, where it is wanted.
fn text_if(wanted: bool, text: &[u8]) -> &[u8]
    ensures { result.now ≡ text_if wanted text.now }
{
    if wanted { text } else { b"" }
}

/// Puts a move.
fn put_move<K: Sink>(made: Move, sink: &mut K) -> Result<(), Failed>
    ensures { Written (K.meaning sink.old) (move_text made) (is_err result) (K.meaning sink.new) }
{
    let mut slot = Buffer::new();
    let mut volume = Buffer::new();
    let mut grain = Buffer::new();
    put_all(
        sink,
        &[
            b"+ move ",
            slot.format(made.slot.0).as_bytes(),
            b" ",
            volume.format(made.volume.0).as_bytes(),
            b" ",
            grain.format(made.grain.0).as_bytes(),
            text_if(made.in_place, b" in place"),
            b"\n",
        ],
    )
}

/// Puts moves.
fn put_moves<K: Sink>(moves: &[Move], sink: &mut K) -> Result<(), Failed>
    ensures { Written (K.meaning sink.old) (flat_map move_text moves.now) (is_err result) (K.meaning sink.new) }
{
    for made in moves {
        match put_move(*made, sink) {
            Ok(()) => {}
            Err(failed) => return Err(failed),
        }
    }
    Ok(())
}

/// Which content of a volume was spoiled.
fn side_word(side: Side) -> &'static [u8]
    ensures { result.now ≡ side_text side }
{
    match side {
        Side::Now => b"now",
        Side::Under => b"under",
    }
}

/// Puts the grain that a failed write spoiled, if there is one.
fn put_torn<K: Sink>(torn: Option<Torn>, sink: &mut K) -> Result<(), Failed>
    ensures { Written (K.meaning sink.old) (torn_text torn) (is_err result) (K.meaning sink.new) }
{
    match torn {
        None => put_text(sink, b""),
        Some(torn) => {
            let mut volume = Buffer::new();
            let mut grain = Buffer::new();
            put_all(
                sink,
                &[
                    b"+ torn ",
                    volume.format(torn.volume.0).as_bytes(),
                    b" ",
                    grain.format(torn.grain.0).as_bytes(),
                    b" ",
                    side_word(torn.side),
                    b"\n",
                ],
            )
        }
    }
}

/// Puts a pair of a trigger.
fn put_pair<K: Sink>(pair: Pair, sink: &mut K) -> Result<(), Failed>
    ensures { Written (K.meaning sink.old) (pair_text pair) (is_err result) (K.meaning sink.new) }
{
    let mut map = Buffer::new();
    let mut source = Buffer::new();
    let mut target = Buffer::new();
    put_all(
        sink,
        &[
            b" ",
            map.format(pair.map.0).as_bytes(),
            b":",
            source.format(pair.source.0).as_bytes(),
            b">",
            target.format(pair.target.0).as_bytes(),
            text_if(pair.incremental, b"i"),
        ],
    )
}

/// Puts the pairs of a trigger.
fn put_pairs<K: Sink>(pairs: &[Pair], sink: &mut K) -> Result<(), Failed>
    ensures { Written (K.meaning sink.old) (flat_map pair_text pairs.now) (is_err result) (K.meaning sink.new) }
{
    for pair in pairs {
        match put_pair(*pair, sink) {
            Ok(()) => {}
            Err(failed) => return Err(failed),
        }
    }
    Ok(())
}

/// Puts a trigger.
fn put_trigger<K: Sink>(pairs: &[Pair], sink: &mut K) -> Result<(), Failed>
    ensures { Written (K.meaning sink.old) (codes "+ trigger" ++ flat_map pair_text pairs.now ++ codes "\n") (is_err result)
        (K.meaning sink.new) }
{
    put_text(sink, b"+ trigger")?;
    put_pairs(pairs, sink)?;
    put_text(sink, b"\n")
}

/// Puts a text, and a number and the end of the line behind it.
fn put_one<K: Sink>(text: &[u8], number: u32, sink: &mut K) -> Result<(), Failed>
    ensures { Written (K.meaning sink.old) (text.now ++ decimal number ++ codes "\n") (is_err result) (K.meaning sink.new) }
{
    let mut digits = Buffer::new();
    put_all(sink, &[text, digits.format(number).as_bytes(), b"\n"])
}

/// Puts that a volume of so many grains came.
fn put_made<K: Sink>(volume: VolId, grains: u32, sink: &mut K) -> Result<(), Failed>
    ensures { Written (K.meaning sink.old) (codes "+ make " ++ two_numbers volume.0 grains ++ codes "\n") (is_err result)
        (K.meaning sink.new) }
{
    let mut volume_digits = Buffer::new();
    let mut grains_digits = Buffer::new();
    put_all(
        sink,
        &[
            b"+ make ",
            volume_digits.format(volume.0).as_bytes(),
            b" ",
            grains_digits.format(grains).as_bytes(),
            b"\n",
        ],
    )
}

/// Puts what stands before the grains of a cut.
fn put_cut_volume<K: Sink>(volume: VolId, sink: &mut K) -> Result<(), Failed>
    ensures { Written (K.meaning sink.old) (codes "+ cut " ++ decimal volume.0 ++ codes " ") (is_err result)
        (K.meaning sink.new) }
{
    let mut digits = Buffer::new();
    put_all(sink, &[b"+ cut ", digits.format(volume.0).as_bytes(), b" "])
}

/// Puts a cut.
fn put_cut<K: Sink>(volume: VolId, kept: &[Range], sink: &mut K) -> Result<(), Failed>
    ensures { Written (K.meaning sink.old)
        ((codes "+ cut " ++ decimal volume.0 ++ codes " ") ++ kept_text kept.now ++ codes "\n") (is_err result)
        (K.meaning sink.new) }
{
    put_cut_volume(volume, sink)?;
    put_kept(kept, sink)?;
    put_text(sink, b"\n")
}

/// Puts that a mapping came into a state.
fn put_state<K: Sink>(map: MapId, state: MapState, sink: &mut K) -> Result<(), Failed>
    ensures { Written (K.meaning sink.old)
        (codes "+ state " ++ decimal map.0 ++ codes " " ++ state_text state ++ codes "\n") (is_err result)
        (K.meaning sink.new) }
{
    let mut digits = Buffer::new();
    put_all(
        sink,
        &[
            b"+ state ",
            digits.format(map.0).as_bytes(),
            b" ",
            state_word(state),
            b"\n",
        ],
    )
}

/// Puts an effect.
fn put_effect<K: Sink>(effect: &Effect, sink: &mut K) -> Result<(), Failed>
    ensures { Written (K.meaning sink.old) (effect_text effect.now) (is_err result) (K.meaning sink.new) }
{
    match effect {
        Effect::Make { volume, grains } => put_made(*volume, *grains, sink),
        Effect::Remove { volume } => put_one(b"+ remove ", volume.0, sink),
        Effect::Trigger { pairs } => put_trigger(pairs.as_slice(), sink),
        Effect::Cut { volume, kept } => put_cut(*volume, kept.as_slice(), sink),
        Effect::State { map, state } => put_state(*map, *state, sink),
        Effect::Gone { map } => put_one(b"+ gone ", map.0, sink),
    }
}

/// Puts effects.
fn put_effects<K: Sink>(effects: &[Effect], sink: &mut K) -> Result<(), Failed>
    ensures { Written (K.meaning sink.old) (flat_map effect_text effects.now) (is_err result) (K.meaning sink.new) }
{
    for effect in effects {
        match put_effect(effect, sink) {
            Ok(()) => {}
            Err(failed) => return Err(failed),
        }
    }
    Ok(())
}

/// Puts all that an entry did.
pub(crate) fn put_notes<K: Sink>(entry: &Entry, sink: &mut K) -> Result<(), Failed>
    ensures { Written (K.meaning sink.old) (notes_text entry.now) (is_err result) (K.meaning sink.new) }
{
    put_calls(
        entry.place,
        entry.calls,
        entry.faults_before,
        entry.faults_after,
        sink,
    )?;
    put_moves(entry.moves.as_slice(), sink)?;
    put_torn(entry.torn, sink)?;
    put_effects(entry.effects.as_slice(), sink)
}
