//! What has to be copied before a grain is overwritten, and in which order.

ghost use Rattle.std.specs.Prelude.{◌≡◌, ℕ, IfOk, OnOk, [], ◌∷◌, ◌++◌, map, reverse, filter_map, option_to_list};
ghost use Rattle.fc_base.specs.Column.{first_reader, needer};
ghost use Rattle.fc_base.specs.Moves.{asks, is_in, list_with_asked, list_all_with_asked, write_asks};
ghost use Rattle.fc_base.specs.Plan.{move_at, moves_of_fill, moves_of_write};
ghost use Rattle.fc_base.specs.Sheet.{slot_at, column};

use crate::column::{fills_in_place, next_waiting, old_holders_of, push_place, reader_of};
use crate::places::{birth_at, volume_at};
use crate::slot::Slot;
use fc_base::ids::{GrainNo, SlotId, VolId};
use fc_base::list::List;
use fc_base::outcome::NoMemory;
use fc_base::request::Move;
use std::alloc::Global;

/// Puts a place at the end, if there is one.
fn push_found(places: &mut Vec<usize>, found: Option<usize>) -> Result<(), NoMemory>
    ensures { OnOk result (places.new.items ≡ places.old.items ++ option_to_list found) }
{
    match found {
        Some(place) => push_place(places, place),
        None => Ok(()),
    }
}

/// The needers of slots, in the order of the slots.
fn needers_of(
    alloc: Global,
    slots: &[Slot],
    holders: &[usize],
    grain: usize,
) -> Result<Vec<usize>, NoMemory>
    ensures { IfOk result (λ places. places.items ≡ filter_map (needer (column slots.now grain)) holders.now) }
{
    let mut needers = Vec::new(alloc);
    for holder in holders {
        push_found(&mut needers, reader_of(slots, *holder, *holder, grain))?;
    }
    Ok(needers)
}

/// What a slot asks for before it is filled. A slot in place asks for nothing.
fn asked_by(
    alloc: Global,
    slots: &[Slot],
    place: usize,
    grain: usize,
) -> Result<Vec<usize>, NoMemory>
    ensures { IfOk result (λ places. places.items ≡ asks (column slots.now grain) place) }
{
    if fills_in_place(slots, place, grain) {
        Ok(Vec::new(alloc))
    } else {
        let holders = old_holders_of(alloc, slots, volume_at(slots, place), grain)?;
        needers_of(alloc, slots, holders.as_slice(), grain)
    }
}

/// The readers of slots, other than `but`, in the order of the slots.
fn readers_of(
    alloc: Global,
    slots: &[Slot],
    but: usize,
    holders: &[usize],
    grain: usize,
) -> Result<Vec<usize>, NoMemory>
    ensures { IfOk result (λ places. places.items ≡ filter_map (first_reader (column slots.now grain) but) holders.now) }
{
    let mut readers = Vec::new(alloc);
    for holder in holders {
        push_found(&mut readers, reader_of(slots, but, *holder, grain))?;
    }
    Ok(readers)
}

/// What a write to the volume of a live slot asks for.
fn asked_by_write(
    alloc: Global,
    slots: &[Slot],
    live: usize,
    grain: usize,
) -> Result<Vec<usize>, NoMemory>
    ensures { IfOk result (λ places. places.items ≡ write_asks (column slots.now grain) live) }
{
    let holders = old_holders_of(alloc, slots, volume_at(slots, live), grain)?;
    let mut asked = readers_of(alloc, slots, live, holders.as_slice(), grain)?;
    push_found(&mut asked, next_waiting(slots, live, grain))?;
    Ok(asked)
}

/// Whether a place is listed.
fn is_listed(listed: &[usize], place: usize) -> bool
    ensures { result ≡ is_in place listed.now }
{
    listed.iter().any(|other| place == *other)
}

/// Puts a place before all others.
fn put_first(places: &mut Vec<usize>, place: usize) -> Result<(), NoMemory>
    ensures { OnOk result (places.new.items ≡ place ∷ places.old.items) }
{
    match places.insert(0, place) {
        Ok(()) => Ok(()),
        Err(_) => Err(NoMemory),
    }
}

/// Lists a slot, where it isn't listed yet, before it all that it asks for; the latest is first. The depth bounds how often
/// asking leads on to asking. Refused, the list may have a part of them.
fn list_slot(
    alloc: Global,
    slots: &[Slot],
    grain: usize,
    depth: usize,
    place: usize,
    listed: &mut Vec<usize>,
) -> Result<(), NoMemory>
    ensures { OnOk result (listed.new.items ≡ list_with_asked (column slots.now grain) depth place listed.old.items) }
{
    if depth == 0 {
        return Ok(());
    }
    if is_listed(listed.as_slice(), place) {
        return Ok(());
    }
    let asked = asked_by(alloc, slots, place, grain)?;
    for next in asked.as_slice() {
        list_slot(alloc, slots, grain, depth - 1, *next, listed)?;
    }
    put_first(listed, place)
}

/// The slots that must be filled for these roots, the latest first.
fn list_all(
    alloc: Global,
    slots: &[Slot],
    grain: usize,
    roots: &[usize],
) -> Result<Vec<usize>, NoMemory>
    ensures { IfOk result (λ places. places.items ≡ list_all_with_asked (column slots.now grain) roots.now) }
{
    let mut listed = Vec::new(alloc);
    for root in roots {
        list_slot(alloc, slots, grain, slots.len(), *root, &mut listed)?;
    }
    Ok(listed)
}

/// The move of the slot at a place.
fn move_of(slots: &[Slot], place: usize, grain: usize, number: GrainNo) -> Move
    ensures { result ≡ move_at slots.now grain number.0 place }
{
    Move {
        slot: SlotId(birth_at(slots, place)),
        volume: VolId(volume_at(slots, place)),
        grain: number,
        in_place: fills_in_place(slots, place, grain),
    }
}

/// The moves of these slots, in order.
fn moves_of(
    alloc: Global,
    slots: &[Slot],
    places: &[usize],
    grain: usize,
    number: GrainNo,
) -> Result<List<Move>, NoMemory>
    ensures { IfOk result (λ moves. moves ≡ map (move_at slots.now grain number.0) places.now) }
{
    let mut moves = List::new(alloc);
    for place in places {
        moves.push(move_of(slots, *place, grain, number))?;
    }
    Ok(moves)
}

/// The moves of all slots that must be filled for these roots, first move first.
fn moves_for(
    alloc: Global,
    slots: &[Slot],
    roots: &[usize],
    grain: usize,
    number: GrainNo,
) -> Result<List<Move>, NoMemory>
    ensures { IfOk result (λ moves. moves ≡ map (move_at slots.now grain number.0) (reverse (list_all_with_asked (column slots.now grain) roots.now))) }
{
    let mut listed = list_all(alloc, slots, grain, roots)?;
    listed.reverse();
    moves_of(alloc, slots, listed.as_slice(), grain, number)
}

/// The moves of a fill of the slot at a place.
pub fn fill_moves_of(
    alloc: Global,
    slots: &[Slot],
    place: usize,
    grain: usize,
    number: GrainNo,
) -> Result<List<Move>, NoMemory>
    ensures { IfOk result (λ moves. moves ≡ moves_of_fill slots.now grain number.0 place) }
{
    moves_for(alloc, slots, &[place], grain, number)
}

/// The moves of a write to the volume whose live slot is at a place.
pub fn write_moves_of(
    alloc: Global,
    slots: &[Slot],
    live: Option<usize>,
    grain: usize,
    number: GrainNo,
) -> Result<List<Move>, NoMemory>
    ensures { IfOk result (λ moves. moves ≡ moves_of_write slots.now grain number.0 live) }
{
    match live {
        Some(live) => {
            let roots = asked_by_write(alloc, slots, live, grain)?;
            moves_for(alloc, slots, roots.as_slice(), grain, number)
        }
        None => Ok(List::new(alloc)),
    }
}
