//! The image without a volume that is about to go.

ghost use Rattle.std.specs.Prelude.{◌≡◌, IfOk, filter, map as map_list};
ghost use Rattle.fc_imaging.specs.Imaging.{kept_by_parts, lost_grains};
ghost use Rattle.fc_imaging.specs.Without.{begins_else, is_other, is_other_row, leaving_out};
ghost use Rattle.fc_kept.specs.Images.{chains_told, lost_told, meta_of};
ghost use Rattle.fc_lane_sheet.specs.LaneSheet.{chains_of, sheet_of};
ghost use Rattle.fc_sums.specs.Parts.{sheet_at};

use crate::chains::{chain_told, end_of_chain, next_birth};
use crate::lost::row_told;
use crate::rows::changes;
use crate::tables::{copy_volume, groups, mappings};
use fc_base::ids::VolId;
use fc_base::list::List;
use fc_base::outcome::NoMemory;
use fc_base::volume::Volume;
use fc_desk::Control;
use fc_image::{ChainList, LostList, MetaImage, VolumeList};
use fc_lane::lane::Lane;
use fc_mdisk::mdisk::Mdisk;
use fc_slots::slot::Slot;
use std::alloc::Global;

/// The volumes but this one, in order.
fn other_volumes(alloc: Global, volumes: &[Volume], gone: VolId) -> Result<VolumeList, NoMemory>
    ensures { IfOk result (λ copies. copies ≡ filter (is_other gone) volumes.now) }
{
    let mut copies = List::new(alloc);
    for volume in volumes {
        if volume.id.0 == gone.0 {
            continue;
        }
        copies.push(copy_volume(alloc, volume)?)?;
    }
    Ok(copies)
}

/// The lost grains of the other volumes.
fn other_lost<D: Mdisk>(
    alloc: Global,
    lanes: &[Lane<D>],
    volumes: &[Volume],
    gone: VolId,
) -> Result<LostList, NoMemory>
    ensures { IfOk result (λ rows. rows ≡ filter (is_other_row gone) (map_list lost_told (lost_grains lanes.now volumes.now))) }
{
    let mut rows = List::new(alloc);
    for volume in volumes {
        if volume.id.0 == gone.0 {
            continue;
        }
        rows.push(row_told(alloc, lanes, volume)?)?;
    }
    Ok(rows)
}

/// The chains that don't begin with a slot of the volume, by the slots of the first lane.
fn other_chains_of<D: Mdisk>(
    alloc: Global,
    lanes: &[Lane<D>],
    slots: &[Slot],
    gone: VolId,
) -> Result<ChainList, NoMemory>
    requires { slots.now ≡ (sheet_at (chains_of lanes.now) 0).slots }
    ensures { IfOk result (λ chains. chains ≡ filter (begins_else gone) (chains_told (sheet_of lanes.now).slots)) }
{
    let mut chains = List::new(alloc);
    let mut from = 0;
    while from < slots.len() {
        let end = end_of_chain(slots, from);
        let begin = from;
        from = end;
        if slots[begin].volume() == gone.0 {
            continue;
        }
        chains.push(chain_told(alloc, lanes, slots, begin, end)?)?;
    }
    Ok(chains)
}

/// The chains that don't begin with a slot of the volume.
fn other_chains<D: Mdisk>(
    alloc: Global,
    lanes: &[Lane<D>],
    gone: VolId,
) -> Result<ChainList, NoMemory>
    ensures { IfOk result (λ chains. chains ≡ filter (begins_else gone) (chains_told (sheet_of lanes.now).slots)) }
{
    match lanes.first() {
        Some(lane) => other_chains_of(alloc, lanes, lane.cascade().all_slots(), gone),
        None => Ok(List::new(alloc)),
    }
}

/// The image of what the control part and the lanes have, without a volume: without its row in the table and its lost grains, and
/// without the chains that begin with a slot of it. Refused for want of memory alone.
pub fn image_without<D: Mdisk>(
    alloc: Global,
    control: &Control,
    lanes: &[Lane<D>],
    gone: VolId,
) -> Result<MetaImage, NoMemory>
    ensures { IfOk result (λ image. image ≡ leaving_out gone (meta_of (kept_by_parts control.now lanes.now))) }
{
    let tables = control.registry();
    let all = tables.all_volumes();
    Ok(MetaImage {
        next_birth: next_birth(lanes),
        next_volume: control.next_volume(),
        next_map: control.next_mapping(),
        next_group: control.next_group(),
        volumes: other_volumes(alloc, all, gone)?,
        mappings: mappings(alloc, tables.all_mappings())?,
        groups: groups(alloc, tables.all_groups())?,
        chains: other_chains(alloc, lanes, gone)?,
        lost: other_lost(alloc, lanes, all, gone)?,
        changes: changes(alloc, lanes)?,
    })
}
