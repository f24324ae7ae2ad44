//! Who holds a grain for a slot, and who reads at it: walks along a chain, over the slots that stand between. The slots of
//! one chain stand together, so a walk ends with its chain.

ghost use Rattle.std.specs.Prelude.{◌≡◌, ◌≢◌, ◌⊎◌, ◌↔◌, ℕ, ◌<◌, false, length, IfSome, IsTrue};
ghost use Rattle.fc_base.specs.Column.{holder, first_reader};
ghost use Rattle.fc_base.specs.Counts.{LiveBehind};
ghost use Rattle.fc_base.specs.Moves.{next_behind};
ghost use Rattle.fc_base.specs.Sheet.{slot_at, column};
ghost use Rattle.fc_slots.specs.Contiguous.{IsContiguous};
ghost use Rattle.fc_slots.specs.Walks.{FirstWaiting};

use crate::slot::Slot;

/// The holder of the slot: the nearest at or before it in its chain that holds the grain.
pub fn holder_of(slots: &[Slot], of: usize, grain: u32) -> Option<usize>
    requires there { of < length slots.now }
    requires together { IsContiguous slots.now }
    ensures value { result ≡ holder (column slots.now grain) of }
    ensures bound { IfSome result (λ k. k < length slots.now) }
{
    let chain = slots[of].chain();
    let mut bound = of + 1;
    while bound > 0 {
        bound -= 1;
        let slot = &slots[bound];
        if slot.chain() != chain {
            return None;
        }
        if slot.holds(grain) {
            return Some(bound);
        }
    }
    None
}

/// The first live slot behind `from` in its chain, other than `but`, that reads the grain where a slot
/// at `from` would: no slot in between holds it, nor the slot itself.
pub(crate) fn first_waiting(slots: &[Slot], from: usize, but: usize, grain: u32) -> Option<usize>
    requires there { from < length slots.now }
    requires together { IsContiguous slots.now }
    ensures value { FirstWaiting slots.now grain from but result }
    ensures bound { IfSome result (λ k. k < length slots.now) }
{
    let chain = slots[from].chain();
    let mut place = from + 1;
    while place < slots.len() {
        let slot = &slots[place];
        if slot.chain() != chain || slot.holds(grain) {
            return None;
        }
        if slot.is_live() && place != but {
            return Some(place);
        }
        place += 1;
    }
    None
}

/// The first live slot other than `but` that has the slot as holder; the slot is old, or `but` itself.
pub fn first_reader_of(slots: &[Slot], of: usize, but: usize, grain: u32) -> Option<usize>
    requires there { of < length slots.now }
    requires together { IsContiguous slots.now }
    requires apart { (of ≡ but) ⊎ ((slot_at slots.now of).is_live ≡ false) }
    ensures value { result ≡ first_reader (column slots.now grain) but of }
    ensures bound { IfSome result (λ k. k < length slots.now) }
{
    if slots[of].holds(grain) {
        first_waiting(slots, of, but, grain)
    } else {
        None
    }
}

/// The first live slot behind a slot that waits for the grain with it: the next that a write copies to.
pub fn next_waiting(slots: &[Slot], of: usize, grain: u32) -> Option<usize>
    requires there { of < length slots.now }
    requires together { IsContiguous slots.now }
    ensures value { result ≡ next_behind (column slots.now grain) of }
    ensures bound { IfSome result (λ k. k < length slots.now) }
{
    first_waiting(slots, of, of, grain)
}

/// Whether some live slot stands behind a place in its chain.
pub fn has_live_behind(slots: &[Slot], place: usize) -> bool
    requires there { place < length slots.now }
    requires together { IsContiguous slots.now }
    ensures { IsTrue result ↔ LiveBehind slots.now place }
{
    let chain = slots[place].chain();
    let mut behind = place + 1;
    while behind < slots.len() {
        if slots[behind].chain() != chain {
            return false;
        }
        if slots[behind].is_live() {
            return true;
        }
        behind += 1;
    }
    false
}
