//! What changed for each mapping that is followed.

ghost use Rattle.std.specs.Prelude.{◌≡◌, ◌<◌, ◌==◌, IfOk, length, map as map_list, if◌then◌else◌};
ghost use Rattle.std.specs.List.{sum_by};
ghost use Rattle.fc_changed.specs.Row.{Row};
ghost use Rattle.fc_kept.specs.Images.{changes_told};
ghost use Rattle.fc_lane_sheet.specs.LaneSheet.{rows_of, all_rows};
ghost use Rattle.fc_sums.specs.Parts.{rows_at, row_at, joined_row};

use crate::bits::{Bits, words};
use fc_base::ids::{MapId, VolId};
use fc_base::list::List;
use fc_base::outcome::NoMemory;
use fc_diff::Tracked;
use fc_image::{ChangesList, MetaChanges};
use fc_lane::lane::Lane;
use fc_mdisk::mdisk::Mdisk;
use std::alloc::Global;

/// How many grains the row at a place has in the lane.
fn grains_in<D: Mdisk>(lane: &Lane<D>, place: usize) -> u32
    ensures { result ≡ length (row_at lane.now.changes.rows place).same }
{
    match lane.changes().rows().get(place) {
        Some(row) => row.same().len(),
        None => 0,
    }
}

/// How many grains the row at a place has in all lanes. More than a `u32` counts are refused as want of memory.
fn all_grains<D: Mdisk>(lanes: &[Lane<D>], place: usize) -> Result<u32, NoMemory>
    ensures { IfOk result (λ grains. grains ≡ sum_by (λ rows. length (row_at rows place).same) (rows_of lanes.now)) }
{
    let mut grains: u32 = 0;
    for lane in lanes {
        match grains.checked_add(grains_in(lane, place)) {
            Some(sum) => grains = sum,
            None => return Err(NoMemory),
        }
    }
    Ok(grains)
}

/// The volume of the row that the last trigger didn't go into.
fn other_volume(row: &Tracked) -> VolId
    ensures { result.0 ≡ (if row.now.into == row.now.target then row.now.source else row.now.target) }
{
    if row.into() == row.target() {
        VolId(row.source())
    } else {
        VolId(row.target())
    }
}

/// The row at a place, one of those that the first lane has, with the grains of all lanes.
fn row_told<D: Mdisk>(
    alloc: Global,
    lanes: &[Lane<D>],
    rows: &[Tracked],
    place: usize,
) -> Result<MetaChanges, NoMemory>
    requires first { rows.now ≡ rows_at (rows_of lanes.now) 0 }
    requires there { place < length rows.now }
    ensures { IfOk result (λ told. told ≡ changes_told (joined_row (rows_of lanes.now) place)) }
{
    let row = &rows[place];
    let grains = all_grains(lanes, place)?;
    let changed = words(alloc, lanes, Bits::Changed(place), grains)?;
    let kept = words(alloc, lanes, Bits::Kept, grains)?;
    Ok(MetaChanges {
        map: MapId(row.map()),
        last_source: Some(other_volume(row)),
        last_target: Some(VolId(row.into())),
        changed,
        kept,
    })
}

/// All rows, by those of the first lane.
fn all_changes<D: Mdisk>(
    alloc: Global,
    lanes: &[Lane<D>],
    rows: &[Tracked],
) -> Result<ChangesList, NoMemory>
    requires { rows.now ≡ rows_at (rows_of lanes.now) 0 }
    ensures { IfOk result (λ changes. changes ≡ map_list changes_told (all_rows lanes.now)) }
{
    let mut changes = List::new(alloc);
    for place in 0..rows.len() {
        changes.push(row_told(alloc, lanes, rows, place)?)?;
    }
    Ok(changes)
}

/// What changed, a row for each mapping that is followed.
pub(crate) fn changes<D: Mdisk>(alloc: Global, lanes: &[Lane<D>]) -> Result<ChangesList, NoMemory>
    ensures { IfOk result (λ changes. changes ≡ map_list changes_told (all_rows lanes.now)) }
{
    match lanes.first() {
        Some(lane) => all_changes(alloc, lanes, lane.changes().rows()),
        None => Ok(List::new(alloc)),
    }
}
