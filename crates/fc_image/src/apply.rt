//! An image with records applied.

ghost use Rattle.std.specs.Prelude.{◌≡◌, List, map, IfOk, OnOk};
ghost use Rattle.std.specs.List.{fold};
ghost use Rattle.fc_base.specs.declared.volume.Mapping.{Mapping};
ghost use Rattle.fc_image.specs.declared.record.MetaRecord.{MetaRecord};
ghost use Rattle.fc_image.specs.Records.{held_after, lost_after, changed_after, names_volume, slot_after, chain_after, row_after, changes_after, after_records};

use crate::image::{MetaChain, MetaChanges, MetaImage, MetaLost, MetaSlot};
use crate::record::MetaRecord;
use crate::words::Words;
use fc_base::ids::{MapId, VolId};
use fc_base::list::List;
use fc_base::outcome::NoMemory;
use fc_base::request::Side;
use fc_base::volume::Mapping;
use std::alloc::Global;

/// What a record makes of the grains that a slot of this volume holds.
fn apply_to_held(held: &mut Words, volume: VolId, live: bool, told: MetaRecord)
    ensures { held.new ≡ held_after volume live held.old told }
{
    match told {
        MetaRecord::Pair {
            volume: of,
            grain,
            in_place,
            ..
        } => {
            if of.0 == volume.0 && (live || !in_place) {
                held.put(grain.0, live);
            }
        }
        MetaRecord::Written { volume: of, grain } => {
            if of.0 == volume.0 {
                held.put(grain.0, live);
            }
        }
        MetaRecord::Torn {
            volume: of,
            grain,
            side,
        } => {
            if of.0 == volume.0 && (!live || side == Side::Now) {
                held.put(grain.0, live);
            }
        }
        MetaRecord::Changing { .. } => {}
    }
}

/// What a record makes of a volume's lost grains.
fn apply_to_lost(lost: &mut Words, volume: VolId, told: MetaRecord)
    ensures { lost.new ≡ lost_after volume lost.old told }
{
    match told {
        MetaRecord::Pair {
            volume: of,
            grain,
            in_place,
            empty,
            ..
        } => {
            if of.0 == volume.0 && !in_place {
                lost.put(grain.0, empty);
            }
        }
        MetaRecord::Written { volume: of, grain } => {
            if of.0 == volume.0 {
                lost.put(grain.0, false);
            }
        }
        MetaRecord::Torn {
            volume: of,
            grain,
            ..
        } => {
            if of.0 == volume.0 {
                lost.put(grain.0, true);
            }
        }
        MetaRecord::Changing { .. } => {}
    }
}

/// Whether a mapping with this id has the volume for its source or its target.
fn names_volume(mappings: &[Mapping], map: MapId, volume: VolId) -> bool
    ensures { result ≡ names_volume mappings.now map volume }
{
    mappings.iter().any(|m| m.id.0 == map.0 && (m.source.0 == volume.0 || m.target.0 == volume.0))
}

/// What a record makes of the grains that changed for a mapping.
fn apply_to_changed(changed: &mut Words, mappings: &[Mapping], map: MapId, told: MetaRecord)
    ensures { changed.new ≡ changed_after mappings.now map changed.old told }
{
    let (volume, grain) = match told {
        MetaRecord::Written { volume, grain } => (volume, grain),
        MetaRecord::Changing { volume, grain } => (volume, grain),
        MetaRecord::Torn {
            volume,
            grain,
            side: Side::Now,
        } => (volume, grain),
        _ => return,
    };
    if names_volume(mappings, map, volume) {
        changed.set(grain.0);
    }
}

/// A row of a list of an image, to which records apply.
trait Row: Drop + Sized {
    /// What a record makes of it beside these mappings.
    ghost after: { List Mapping → Self → MetaRecord → Self };

    /// The row with all records applied.
    fn applied(
        &self,
        alloc: Global,
        mappings: &[Mapping],
        records: &[MetaRecord],
    ) -> Result<Self, NoMemory>
        ensures { IfOk result (λ row. row ≡ fold (after mappings.now) self.now records.now) };
}

/// The rows with all records applied.
fn all_with<T: Row>(
    alloc: Global,
    mappings: &[Mapping],
    rows: &[T],
    records: &[MetaRecord],
) -> Result<List<T>, NoMemory>
    ensures { IfOk result (λ all. all ≡ map (λ row. fold (T.after mappings.now) row records.now) rows.now) }
{
    let mut all = List::new(alloc);
    for row in rows {
        all.push(row.applied(alloc, mappings, records)?)?;
    }
    Ok(all)
}

impl Row for MetaSlot {
    ghost after = { λ mappings. slot_after };

    fn applied(
        &self,
        alloc: Global,
        _mappings: &[Mapping],
        records: &[MetaRecord],
    ) -> Result<MetaSlot, NoMemory> {
        let mut held = self.held.copy(alloc)?;
        for record in records {
            apply_to_held(&mut held, self.volume, self.live, *record);
        }
        Ok(MetaSlot {
            birth: self.birth,
            volume: self.volume,
            live: self.live,
            map: self.map,
            held,
        })
    }
}

impl Row for MetaChain {
    ghost after = { λ mappings. chain_after };

    fn applied(
        &self,
        alloc: Global,
        mappings: &[Mapping],
        records: &[MetaRecord],
    ) -> Result<MetaChain, NoMemory> {
        let slots = all_with(alloc, mappings, self.slots.as_slice(), records)?;
        Ok(MetaChain {
            label: self.label,
            slots,
        })
    }
}

impl Row for MetaLost {
    ghost after = { λ mappings. row_after };

    fn applied(
        &self,
        alloc: Global,
        _mappings: &[Mapping],
        records: &[MetaRecord],
    ) -> Result<MetaLost, NoMemory> {
        let mut lost = self.lost.copy(alloc)?;
        for record in records {
            apply_to_lost(&mut lost, self.volume, *record);
        }
        Ok(MetaLost {
            volume: self.volume,
            lost,
        })
    }
}

impl Row for MetaChanges {
    ghost after = { changes_after };

    fn applied(
        &self,
        alloc: Global,
        mappings: &[Mapping],
        records: &[MetaRecord],
    ) -> Result<MetaChanges, NoMemory> {
        let mut changed = self.changed.copy(alloc)?;
        for record in records {
            apply_to_changed(&mut changed, mappings, self.map, *record);
        }
        Ok(MetaChanges {
            map: self.map,
            last_source: self.last_source,
            last_target: self.last_target,
            changed,
            kept: self.kept.copy(alloc)?,
        })
    }
}

/// Applies all records to the image, in order. Refused, the image is of no use.
fn apply_records(
    alloc: Global,
    image: &mut MetaImage,
    records: &[MetaRecord],
) -> Result<(), NoMemory>
    ensures { OnOk result (image.new ≡ after_records image.old records.now) }
{
    let mappings = image.mappings.as_slice();
    image.chains = all_with(alloc, mappings, image.chains.as_slice(), records)?;
    image.lost = all_with(alloc, mappings, image.lost.as_slice(), records)?;
    image.changes = all_with(alloc, mappings, image.changes.as_slice(), records)?;
    Ok(())
}

/// The image with all records applied, in order. A record that names what isn't there changes nothing.
pub fn with_records(
    alloc: Global,
    image: MetaImage,
    records: &[MetaRecord],
) -> Result<MetaImage, NoMemory>
    ensures { IfOk result (λ all. all ≡ after_records image records.now) }
{
    let mut image = image;
    apply_records(alloc, &mut image, records)?;
    Ok(image)
}
