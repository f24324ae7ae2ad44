//! Words of all grains, bit by bit from the lanes.

ghost use Rattle.std.specs.Prelude.{◌≡◌, ◌<◌, ◌/◌, ◌%◌, false, IfOk, length, map as map_list, replicate, slice_index_or};
ghost use Rattle.std.specs.List.{range_with_len};
ghost use Rattle.fc_base.specs.Sheet.{slot_at};
ghost use Rattle.fc_bits.specs.Words.{words_for};
ghost use Rattle.fc_imaging.specs.Bits.{bit_told};
ghost use Rattle.fc_kept.specs.Images.{words_with};
ghost use Rattle.fc_sums.specs.Parts.{row_at};

use fc_base::ids::VolId;
use fc_base::outcome::NoMemory;
use fc_diff::Tracked;
use fc_image::Words;
use fc_lane::lane::Lane;
use fc_mdisk::mdisk::Mdisk;
use fc_slots::slot::Slot;
use std::alloc::Global;

/// Bits of all grains of a volume.
#[derive(Clone, Copy)]
pub(crate) enum Bits {
    /// The grains that the slot at this place holds.
    Held(usize),
    /// The grains at which both volumes of the row at this place may differ.
    Changed(usize),
    /// All grains: those that a row keeps track of.
    Kept,
    /// The lost grains of the volume.
    Lost(VolId),
}

/// Where a grain is, among so many lanes.
#[derive(Clone, Copy)]
struct Spot {
    /// Its lane.
    lane: usize,
    /// Its place among the lane's.
    place: u32,
}

/// Where the grain is.
fn spot_of(lanes: usize, grain: u32) -> Spot
    requires { 0 < lanes }
    ensures lane { result.lane ≡ grain % lanes }
    ensures place { result.place ≡ grain / lanes }
    ensures inside { result.lane < lanes }
{
    Spot {
        lane: grain as usize % lanes,
        place: (grain as usize / lanes) as u32,
    }
}

/// Whether the slot at a place holds the grain at a place among the lane's.
fn slot_holds(slots: &[Slot], place: usize, grain: u32) -> bool
    ensures { result ≡ slice_index_or (slot_at slots.now place).held grain false }
{
    match slots.get(place) {
        Some(slot) => slot.holds(grain),
        None => false,
    }
}

/// Whether both volumes of the row at a place show the same at the grain at a place among the lane's.
fn row_has(rows: &[Tracked], place: usize, grain: u32) -> bool
    ensures { result ≡ slice_index_or (row_at rows.now place).same grain false }
{
    match rows.get(place) {
        Some(row) => grain < row.same().len() && row.same().has(grain),
        None => false,
    }
}

/// Whether the grain's bit is set.
fn bit<D: Mdisk>(lanes: &[Lane<D>], bits: Bits, grain: u32) -> bool
    ensures { result ≡ bit_told lanes.now bits grain }
{
    // (without lanes nothing is held)
    if lanes.is_empty() {
        return !matches!(bits, Bits::Held(_));
    }
    let spot = spot_of(lanes.len(), grain);
    let lane = &lanes[spot.lane];
    match bits {
        Bits::Held(place) => slot_holds(lane.cascade().all_slots(), place, spot.place),
        Bits::Changed(place) => !row_has(lane.changes().rows(), place, spot.place),
        Bits::Kept => true,
        Bits::Lost(volume) => lane.is_unreadable(volume, spot.place),
    }
}

/// Words for so many grains, with no bit set.
fn no_bits(alloc: Global, grains: u32) -> Result<Words, NoMemory>
    ensures { IfOk result (λ words. words ≡ replicate (words_for grains) 0) }
{
    match vec![in alloc; 0u64; (grains as usize).div_ceil(64)] {
        Ok(words) => Ok(Words::of(words)),
        Err(_) => Err(NoMemory),
    }
}

/// The words of so many grains.
pub(crate) fn words<D: Mdisk>(
    alloc: Global,
    lanes: &[Lane<D>],
    bits: Bits,
    grains: u32,
) -> Result<Words, NoMemory>
    ensures { IfOk result (λ words. words ≡ words_with (map_list (bit_told lanes.now bits) (range_with_len 0 grains))) }
{
    let mut words = no_bits(alloc, grains)?;
    for grain in 0..grains {
        words.put(grain, bit(lanes, bits, grain));
    }
    Ok(words)
}
