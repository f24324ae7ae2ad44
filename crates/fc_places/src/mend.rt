//! A list of slots mended after an event, behind which most slots stand where they stood, or beside it. What comes out is tested:
//! nothing rests on where slots are looked for, and a list that isn't mended can be sorted anew.

ghost use Rattle.std.specs.Prelude.{◌≡◌, ℕ, ◌<◌, ◌≤◌, length, vec_capacity, IsTrue, IfSome, is_some};
ghost use Rattle.fc_base.specs.Counts.{count_below};
ghost use Rattle.fc_base.specs.Sheet.{slot_at};
ghost use Rattle.fc_places.specs.Indexing.{key_at, IsEntryOf, IsIndexOf, FitsAt, has_key};

use crate::index::{By, Entry, is_before, key_of};
use fc_slots::slot::Slot;

/// How far from its old place a slot is looked for.
const REACH: usize = 1;

/// Whether the slot at a place is an entry's, whichever place the entry tells.
fn is_entry_of(slots: &[Slot], place: usize, by: By, entry: Entry) -> bool
    requires { place < length slots.now }
    ensures { IsTrue result → IsEntryOf slots.now by (record entry { place = place }) }
{
    let slot = &slots[place];
    key_of(slot, by) == Some(entry.key) && slot.birth() == entry.birth
}

/// Where the slot of an entry stands, if that is near the place that the entry tells.
fn place_near(slots: &[Slot], by: By, entry: Entry) -> Option<usize>
    ensures { IfSome result (λ k. IsEntryOf slots.now by (record entry { place = k })) }
{
    let first = entry.place.saturating_sub(REACH);
    let end = entry.place.saturating_add(REACH + 1).min(slots.len());
    for place in first..end {
        if is_entry_of(slots, place, by, entry) {
            return Some(place);
        }
    }
    None
}

/// Tells the places of the slots that are found near their old ones, and leaves out the others.
fn keep_near(entries: &mut Vec<Entry>, slots: &[Slot], by: By)
    ensures { vec_capacity entries.new ≡ vec_capacity entries.old }
{
    entries.retain_mut(|entry| match place_near(slots, by, *entry) {
        Some(place) => {
            entry.place = place;
            true
        }
        None => false,
    });
}

/// Puts in the slots that were born after all that were listed, each where it belongs, as long as there is room.
fn put_newer(entries: &mut Vec<Entry>, slots: &[Slot], by: By, newest: Option<u64>)
    ensures { vec_capacity entries.old ≤ vec_capacity entries.new }
{
    for (place, slot) in slots.iter().enumerate() {
        if Some(slot.birth()) > newest {
            if let Some(key) = key_of(slot, by) {
                put_in_order(
                    entries,
                    Entry {
                        key,
                        birth: slot.birth(),
                        place,
                    },
                );
            }
        }
    }
}

/// Puts in an entry behind those that stand before it, if there is room.
fn put_in_order(entries: &mut Vec<Entry>, entry: Entry)
    ensures { vec_capacity entries.old ≤ vec_capacity entries.new }
{
    if entries.len() == entries.capacity() {
        return;
    }
    let at = entries.partition_point(|other| is_before(*other, entry.key, entry.birth));
    match entries.insert(at, entry) {
        Ok(()) => {}
        Err(_) => unreachable!(),
    }
}

/// Whether the entry at a place of the list is its slot's, and stands behind the entry before it.
fn fits_at(slots: &[Slot], by: By, entries: &[Entry], at: usize) -> bool
    requires { at < length entries.now }
    ensures { IsTrue result → FitsAt slots.now by entries.now at }
{
    let entry = entries[at];
    entry.place < slots.len()
        && is_entry_of(slots, entry.place, by, entry)
        && (at == 0 || is_before(entries[at - 1], entry.key, entry.birth))
}

/// Whether each entry is its slot's, and stands behind the entry before it.
fn all_fit(slots: &[Slot], by: By, entries: &[Entry]) -> bool
    ensures { IsTrue result → (i : ℕ) → i < length entries.now → FitsAt slots.now by entries.now i }
{
    for at in 0..entries.len() {
        if !fits_at(slots, by, entries, at) {
            return false;
        }
    }
    true
}

/// How many slots have a key.
fn count_keyed(slots: &[Slot], by: By) -> usize
    ensures { result ≡ count_below (has_key slots.now by) (length slots.now) }
{
    let mut count = 0;
    for slot in slots {
        if key_of(slot, by).is_some() {
            count += 1;
        }
    }
    count
}

/// Mends a list of the slots as they were before an event, and tells whether it lists those that are there now: not where one
/// stands farther from its old place than it is looked for, as behind a trigger of many pairs. Takes no memory. Looks at each
/// entry and each slot a fixed number of times, and searches the list once for each slot that is new.
pub fn mend(entries: &mut Vec<Entry>, slots: &[Slot], by: By) -> bool
    ensures mended { IsTrue result → IsIndexOf slots.now by entries.new.items }
    ensures room { vec_capacity entries.old ≤ vec_capacity entries.new }
{
    let newest = entries.iter().map(|entry| entry.birth).max();
    keep_near(entries, slots, by);
    put_newer(entries, slots, by, newest);
    all_fit(slots, by, entries) && entries.len() == count_keyed(slots, by)
}
