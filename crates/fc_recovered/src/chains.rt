//! Who holds a volume's grain, by the chains of an image.

ghost use Rattle.std.specs.Prelude.{◌≡◌, ◌&&◌, ◌==◌, ◌++◌, if◌then◌else◌, List, All, Some, None};
ghost use Rattle.fc_image.specs.declared.image.MetaSlot.{MetaSlot};
ghost use Rattle.std.specs.List.{flat_map, list_any};
ghost use Rattle.fc_base.specs.Sheet.{Slot};
ghost use Rattle.fc_base.specs.Tables.{Tables};
ghost use Rattle.fc_bits.specs.Words.{bit_of};
ghost use Rattle.fc_kept.specs.Images.{slots_in, slot_in};
ghost use Rattle.fc_kept.specs.Sound.{HasTidySlots};
ghost use Rattle.fc_recovered.specs.Walk.{is_live_slot, chain_with, seen_with, walked, walked_on, holder_volume, id_number};

use fc_base::ids::VolId;
use fc_image::{MetaChain, MetaSlot};

/// How far the walk to a volume's live slot came, with the volume of the last slot so far that holds the grain.
#[derive(Clone, Copy)]
pub(crate) enum Walk {
    /// The live slot was found.
    Ended(Option<VolId>),
    /// It wasn't yet.
    Goes(Option<VolId>),
}

/// Whether the slot is the volume's live one.
fn is_live_slot(slot: &MetaSlot, volume: VolId) -> bool
    ensures { result ≡ (slot.now.live && (slot.now.volume.0 == volume.0)) }
{
    slot.live && slot.volume.0 == volume.0
}

/// Whether the volume's live slot is in the chain.
fn has_live(chain: &MetaChain, volume: VolId) -> bool
    ensures { result ≡
        list_any (λ (slot : MetaSlot). slot.live && (slot.volume.0 == volume.0)) chain.now.slots }
{
    chain
        .slots
        .as_slice()
        .iter()
        .any(|slot| is_live_slot(slot, volume))
}

/// The label of the chain in which the volume's live slot stands.
fn chain_with(chains: &[MetaChain], volume: VolId) -> Option<u64>
    ensures { (t : Tables) → result ≡ chain_with volume.0 (flat_map (slots_in t) chains.now) }
{
    for chain in chains {
        if has_live(chain, volume) {
            return Some(chain.label);
        }
    }
    None
}

/// The volume of the last slot so far that is of the chain and holds the grain, with one more slot.
fn seen_with(of_chain: bool, slot: &MetaSlot, grain: u32, seen: Option<VolId>) -> Option<VolId>
    ensures { result ≡ (if of_chain && bit_of slot.now.held grain then Some slot.now.volume else seen) }
{
    if of_chain && slot.held.has(grain) {
        Some(slot.volume)
    } else {
        seen
    }
}

/// Walks along a chain, to the volume's live slot if it is there.
fn walk_chain(chain: &MetaChain, volume: VolId, grain: u32, label: u64, seen: Option<VolId>) -> Walk
    ensures { (t : Tables) (rest : List Slot) → HasTidySlots t chain.now →
        walked volume.0 grain label (slots_in t chain.now ++ rest) (id_number seen) ≡
        walked_on volume.0 grain label result rest }
{
    let of_chain = chain.label == label;
    let mut seen = seen;
    for slot in chain.slots.as_slice() {
        seen = seen_with(of_chain, slot, grain, seen);
        if is_live_slot(slot, volume) {
            return Walk::Ended(seen);
        }
    }
    Walk::Goes(seen)
}

/// Walks along all chains, to the volume's live slot.
fn walk_all(chains: &[MetaChain], volume: VolId, grain: u32, label: u64) -> Option<VolId>
    ensures { (t : Tables) → All (HasTidySlots t) chains.now →
        id_number result ≡ walked volume.0 grain label (flat_map (slots_in t) chains.now) None }
{
    let mut seen = None;
    for chain in chains {
        match walk_chain(chain, volume, grain, label, seen) {
            Walk::Ended(holder) => return holder,
            Walk::Goes(holder) => seen = holder,
        }
    }
    None
}

/// The volume of the slot that holds the volume's grain: the last one, up to the volume's live slot, of its chain that does.
pub(crate) fn holder_volume(chains: &[MetaChain], volume: VolId, grain: u32) -> Option<VolId>
    ensures { (t : Tables) → All (HasTidySlots t) chains.now →
        id_number result ≡ holder_volume volume.0 grain (flat_map (slots_in t) chains.now) }
{
    match chain_with(chains, volume) {
        Some(label) => walk_all(chains, volume, grain, label),
        None => None,
    }
}
