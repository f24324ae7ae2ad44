//! What an entry tells beside its text: a line for its calls and faults, one for each move, each effect, and for what it tore.

use fc_base::ranges::Range;
use fc_base::request::{Effect, Move, Pair, Place, Side, Torn};
use fc_base::state::MapState;
use fc_entry::entry::Entry;
use std::io;

/// A state as it is told.
fn state_text(state: MapState) -> &'static str {
    match state {
        MapState::IdleOrCopied => "idle_or_copied",
        MapState::Preparing => "preparing",
        MapState::Prepared => "prepared",
        MapState::Copying => "copying",
        MapState::Stopping => "stopping",
        MapState::Stopped => "stopped",
        MapState::Empty => "empty",
    }
}

/// The disk calls and faults of an entry at a grain; nothing of another entry.
fn print_calls<R: Print>(rt: &R, entry: &Entry) -> io::Result<()> {
    match entry.place {
        Place::Lane(_) => println!(rt;
            "+ calls {} faults {} {}",
            entry.calls, entry.faults_before, entry.faults_after
        ),
        Place::Every | Place::Control => Ok(()),
    }
}

/// A move: the slot, its volume and the grain, and whether no disk was called.
fn print_move<R: Print>(rt: &R, made: &Move) -> io::Result<()> {
    let how = if made.in_place { " in place" } else { "" };
    println!(rt;
        "+ move {} {} {}{how}",
        made.slot.0, made.volume.0, made.grain.0
    )
}

/// A grain that a failed write spoiled.
fn print_torn<R: Print>(rt: &R, torn: &Torn) -> io::Result<()> {
    let side = match torn.side {
        Side::Now => "now",
        Side::Under => "under",
    };
    println!(rt; "+ torn {} {} {side}", torn.volume.0, torn.grain.0)
}

/// The pairs of a trigger.
fn print_pairs<R: Print>(rt: &R, pairs: &[Pair]) -> io::Result<()> {
    print!(rt; "+ trigger")?;
    for pair in pairs {
        let mark = if pair.incremental { "i" } else { "" };
        print!(rt; " {}:{}>{}{mark}", pair.map.0, pair.source.0, pair.target.0)?;
    }
    println!(rt; "")
}

/// The grains that a copy keeps.
fn print_kept<R: Print>(rt: &R, volume: u32, kept: &[Range]) -> io::Result<()> {
    print!(rt; "+ cut {volume}")?;
    let mut mark = " ";
    for range in kept {
        if range.first == range.last {
            print!(rt; "{mark}{}", range.first)?;
        } else {
            print!(rt; "{mark}{}-{}", range.first, range.last)?;
        }
        mark = ",";
    }
    if kept.is_empty() {
        print!(rt; " none")?;
    }
    println!(rt; "")
}

/// An effect.
fn print_effect<R: Print>(rt: &R, effect: &Effect) -> io::Result<()> {
    match effect {
        Effect::Make { volume, grains } => println!(rt; "+ make {} {grains}", volume.0),
        Effect::Remove { volume } => println!(rt; "+ remove {}", volume.0),
        Effect::Trigger { pairs } => print_pairs(rt, pairs.as_slice()),
        Effect::Cut { volume, kept } => print_kept(rt, volume.0, kept.as_slice()),
        Effect::State { map, state } => { println!(rt; "+ state {} {}", map.0, state_text(*state)) }
        Effect::Gone { map } => println!(rt; "+ gone {}", map.0),
    }
}

/// All that an entry tells beside its text.
pub fn print_trace<R: Print>(rt: &R, entry: &Entry) -> io::Result<()> {
    print_calls(rt, entry)?;
    for made in entry.moves.as_slice() {
        print_move(rt, made)?;
    }
    for effect in entry.effects.as_slice() {
        print_effect(rt, effect)?;
    }
    match &entry.torn {
        Some(torn) => print_torn(rt, torn),
        None => Ok(()),
    }
}
