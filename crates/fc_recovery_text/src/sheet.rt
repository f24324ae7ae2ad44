//! The chains of an image, as reports ask for them.

ghost use Rattle.std.specs.Prelude.{◌≡◌, ◌++◌, IfOk, OnOk, length, option_copied, true};
ghost use Rattle.fc_base.specs.Tables.{volume_with};
ghost use Rattle.fc_bits.specs.Words.{grains_of};
ghost use Rattle.fc_kept.specs.Images.{kept_in, size_in, slot_in, slots_in, tables_in};
ghost use Rattle.fc_recovery_text.specs.Slots.{slot_holding};

use fc_base::ids::VolId;
use fc_base::outcome::NoMemory;
use fc_base::volume::Volume;
use fc_image::{MetaChain, MetaImage, MetaSlot, Words};
use fc_model::PlainSheet;
use model_slots::slot::Slot;
use std::alloc::Global;

/// The volume with this id.
fn volume_with(image: &MetaImage, volume: VolId) -> Option<&Volume>
    ensures { option_copied result ≡ volume_with (tables_in image.now) volume }
{
    image.volumes.as_slice().iter().find(|v| volume.0 == v.id.0)
}

/// How many grains a volume has by the table; of one that isn't there, none.
fn grains_in(image: &MetaImage, volume: VolId) -> u32
    ensures { result ≡ size_in (tables_in image.now) volume }
{
    match volume_with(image, volume) {
        Some(volume) => volume.grains,
        None => 0,
    }
}

/// For each of so many grains whether its bit is set.
fn marks_of(alloc: Global, words: &Words, grains: u32) -> Result<Vec<bool>, NoMemory>
    ensures { IfOk result (λ marks. marks.items ≡ grains_of grains words.now) }
{
    let Ok(mut marks) = vec![in alloc; false; grains as usize] else {
        return Err(NoMemory);
    };
    for grain in 0..grains {
        marks[grain as usize] = words.has(grain);
    }
    Ok(marks)
}

/// A live slot of the chain with this label, with so many grains, of which it holds any.
fn live_slot(alloc: Global, label: u64, slot: &MetaSlot, grains: u32) -> Result<Slot, NoMemory>
    ensures grains { IfOk result (λ made. length made.held ≡ grains) }
    ensures slot { IfOk result (λ made. made ≡ slot_holding label slot.now true made.held) }
{
    let birth = slot.birth.0;
    let grains = grains as usize;
    match slot.map {
        Some(map) => Slot::target(alloc, birth, label, slot.volume.0, map.0, grains),
        None => {
            let mut alone = Slot::alone(alloc, birth, slot.volume.0, grains)?;
            alone.join(birth, label);
            Ok(alone)
        }
    }
}

/// The same of a slot that may be old.
fn bare_slot(alloc: Global, label: u64, slot: &MetaSlot, grains: u32) -> Result<Slot, NoMemory>
    ensures grains { IfOk result (λ made. length made.held ≡ grains) }
    ensures slot { IfOk result (λ made. made ≡ slot_holding label slot.now slot.now.live made.held) }
{
    let mut made = live_slot(alloc, label, slot, grains)?;
    if !slot.live {
        made.age();
    }
    Ok(made)
}

/// A slot of the chain with this label, with what it holds of its volume's grains.
fn slot_of(alloc: Global, image: &MetaImage, label: u64, slot: &MetaSlot) -> Result<Slot, NoMemory>
    ensures { IfOk result (λ made. made ≡ slot_in (tables_in image.now) label slot.now) }
{
    let grains = grains_in(image, slot.volume);
    let marks = marks_of(alloc, &slot.held, grains)?;
    let mut made = bare_slot(alloc, label, slot, grains)?;
    made.hold_only(marks.as_slice());
    Ok(made)
}

/// Puts the slots of a chain behind others.
fn put_slots(
    alloc: Global,
    image: &MetaImage,
    chain: &MetaChain,
    slots: &mut Vec<Slot>,
) -> Result<(), NoMemory>
    ensures { OnOk result (slots.new.items ≡ slots.old.items ++ slots_in (tables_in image.now) chain.now) }
{
    for slot in chain.slots.as_slice() {
        let made = slot_of(alloc, image, chain.label, slot)?;
        if slots.push(made).is_err() {
            return Err(NoMemory);
        }
    }
    Ok(())
}

/// The chains of an image.
pub(crate) fn sheet_of(alloc: Global, image: &MetaImage) -> Result<PlainSheet, NoMemory>
    ensures { IfOk result (λ sheet. sheet ≡ (kept_in image.now).sheet) }
{
    let mut slots = Vec::new(alloc);
    for chain in image.chains.as_slice() {
        put_slots(alloc, image, chain, &mut slots)?;
    }
    Ok(PlainSheet::of(image.next_birth, slots))
}
