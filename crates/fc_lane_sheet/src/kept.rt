//! The grains that the slot of a mapping holds, as ranges.

ghost use Rattle.std.specs.Prelude.{◌≡◌, ◌+◌, ℕ, IfOk, List, Bool, slice_index_or, false};
ghost use Rattle.std.specs.Prelude.{Some as GhostSome};
ghost use Rattle.fc_base.specs.Ranges.{is_kept, IsRising};
ghost use Rattle.fc_base.specs.SheetView.{count_true, held_of};
ghost use Rattle.fc_chain.specs.Chains.{IsThere};
ghost use Rattle.fc_lane_sheet.specs.HeldRanges.{held_by, with_last, CanGrow, IsGrown, AreFound};
ghost use Rattle.fc_lane_sheet.specs.LaneSheet.{sheet_of, HaveSheet};

use crate::sheet::held_in;
use fc_base::ids::{MapId, SlotId};
use fc_base::outcome::NoMemory;
use fc_base::ranges::{Range, Ranges};
use fc_lane::lane::Lane;
use fc_mdisk::mdisk::Mdisk;
use std::alloc::Global;

/// Whether a slot is its own holder at a grain of all.
fn holds<D: Mdisk>(lanes: &[Lane<D>], slot: SlotId, grain: u32) -> bool
    requires have { HaveSheet lanes.now }
    requires there { IsThere (sheet_of lanes.now).slots slot }
    ensures { result ≡ slice_index_or (held_by lanes.now slot) grain false }
{
    let lane = grain as usize % lanes.len();
    match lanes[lane].cascade().holder(slot, grain) {
        Some(holder) => holder.0 == slot.0,
        None => false,
    }
}

/// The last range with a grain more; where it doesn't touch the grain, it ends, and the grain begins the next one.
fn grown(ended: &mut Ranges, last: Range, grain: u32) -> Result<Range, NoMemory>
    requires { CanGrow grain ended.old (GhostSome last) }
    ensures { IfOk result (λ now. IsGrown grain (with_last ended.old (GhostSome last)) ended.new now) }
{
    if last.last + 1 == grain {
        return Ok(Range {
            first: last.first,
            last: grain,
        });
    }
    match ended.push(last) {
        Ok(()) => Ok(Range {
            first: grain,
            last: grain,
        }),
        Err(NoMemory) => Err(NoMemory),
    }
}

/// Adds a grain past those of the ranges.
fn add_grain(ended: &mut Ranges, last: Option<Range>, grain: u32) -> Result<Range, NoMemory>
    requires { CanGrow grain ended.old last }
    ensures { IfOk result (λ now. IsGrown grain (with_last ended.old last) ended.new now) }
{
    match last {
        Some(range) => grown(ended, range, grain),
        None => Ok(Range {
            first: grain,
            last: grain,
        }),
    }
}

/// Goes past a grain, which is added where it is held.
fn pass(
    ended: &mut Ranges,
    last: Option<Range>,
    grain: u32,
    held: bool,
) -> Result<Option<Range>, NoMemory>
    requires { CanGrow grain ended.old last }
    ensures { IfOk result (λ now. (bits : List Bool) → AreFound bits grain ended.old last → held ≡ slice_index_or bits grain false → AreFound bits (grain + 1) ended.new now) }
{
    if !held {
        return Ok(last);
    }
    match add_grain(ended, last, grain) {
        Ok(range) => Ok(Some(range)),
        Err(NoMemory) => Err(NoMemory),
    }
}

/// The ranges, the last one with them.
fn closed(ended: Ranges, last: Option<Range>) -> Result<Ranges, NoMemory>
    requires { IsRising (with_last ended last) }
    ensures { IfOk result (λ ranges. ranges ≡ with_last ended last) }
{
    let mut ranges = ended;
    match last {
        Some(range) => match ranges.push(range) {
            Ok(()) => Ok(ranges),
            Err(NoMemory) => Err(NoMemory),
        },
        None => Ok(ranges),
    }
}

/// The grains that a slot holds, of which there are so many. No grain is looked at past the last of them.
fn kept_by<D: Mdisk>(
    lanes: &[Lane<D>],
    alloc: Global,
    slot: SlotId,
    held: u32,
) -> Result<Ranges, NoMemory>
    requires have { HaveSheet lanes.now }
    requires there { IsThere (sheet_of lanes.now).slots slot }
    requires counted { held ≡ count_true (held_by lanes.now slot) }
    ensures { IfOk result (λ ranges. (g : ℕ) → is_kept ranges g ≡ slice_index_or (held_by lanes.now slot) g false) }
{
    let mut ended = Ranges::new(alloc);
    let mut last = None;
    let mut left = held;
    for grain in 0..u32::MAX {
        if left == 0 {
            return closed(ended, last);
        }
        let here = holds(lanes, slot, grain);
        last = pass(&mut ended, last, grain, here)?;
        left -= here as u32;
    }
    closed(ended, last)
}

/// The grains that the slot of a mapping holds, as ranges; none where it has none.
pub(crate) fn kept_in<D: Mdisk>(
    lanes: &[Lane<D>],
    alloc: Global,
    map: MapId,
) -> Result<Ranges, NoMemory>
    requires { HaveSheet lanes.now }
    ensures { IfOk result (λ ranges. (g : ℕ) → is_kept ranges g ≡ slice_index_or (held_of (sheet_of lanes.now).slots map.0) g false) }
{
    match lanes[0].cascade().slot(map) {
        Some(slot) => kept_by(lanes, alloc, slot, held_in(lanes, map)),
        None => Ok(Ranges::new(alloc)),
    }
}
