//! The whole image.

ghost use Rattle.std.specs.Prelude.{◌≡◌, IfOk};
ghost use Rattle.fc_imaging.specs.Imaging.{kept_by_parts, kept_of, lost_grains};
ghost use Rattle.fc_kept.specs.Images.{meta_of};
ghost use Rattle.fc_legal.specs.Whole.{Whole};
ghost use Rattle.fc_stands.specs.Store.{StandsFor};

use crate::chains::{chains, next_birth};
use crate::lost::lost;
use crate::rows::changes;
use crate::tables::{groups, mappings, volumes};
use fc_base::outcome::NoMemory;
use fc_desk::Control;
use fc_image::MetaImage;
use fc_lane::lane::Lane;
use fc_mdisk::mdisk::Mdisk;
use std::alloc::Global;

/// The image of what the control part and the lanes have.
fn told<D: Mdisk>(
    alloc: Global,
    control: &Control,
    lanes: &[Lane<D>],
) -> Result<MetaImage, NoMemory>
    ensures { IfOk result (λ image. image ≡ meta_of (kept_by_parts control.now lanes.now)) }
{
    let tables = control.registry();
    let all = tables.all_volumes();
    Ok(MetaImage {
        next_birth: next_birth(lanes),
        next_volume: control.next_volume(),
        next_map: control.next_mapping(),
        next_group: control.next_group(),
        volumes: volumes(alloc, all)?,
        mappings: mappings(alloc, tables.all_mappings())?,
        groups: groups(alloc, tables.all_groups())?,
        chains: chains(alloc, lanes)?,
        lost: lost(alloc, lanes, all)?,
        changes: changes(alloc, lanes)?,
    })
}

/// All that metadata is to say of the control part and these lanes: of whatever they stand for, the tables, the ids that come
/// next, the chains of copies, what changed, and the lost grains. Refused for want of memory alone; so would be a slot of 2^32
/// grains, which no store has.
pub fn image_of<D: Mdisk>(
    alloc: Global,
    control: &Control,
    lanes: &[Lane<D>],
) -> Result<MetaImage, NoMemory>
    ensures { IfOk result (λ image. (w : Whole) → StandsFor (record { control = control.now; lanes = lanes.now }) w → image ≡ meta_of (kept_of w (lost_grains lanes.now w.books.tables.volumes))) }
{
    told(alloc, control, lanes)
}
