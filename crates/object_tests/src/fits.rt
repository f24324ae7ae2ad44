//! Whether a change fits the tables, asked of them.

ghost use Rattle.std.specs.Prelude.{IsTrue};
ghost use Rattle.fc_base.specs.Tables.{Fits};

use fc_base::fault::Kind;
use fc_base::volume::{Change, Group, Mapping, Volume};
use fc_registry::Registry;

/// Whether the change fits.
pub(crate) fn fits(registry: &Registry, change: &Change) -> bool
    ensures { IsTrue result → Fits registry.now.tables change.now }
{
    match change {
        Change::AddVolume(volume) => is_new_volume(registry, volume),
        Change::AddMapping(mapping) => is_new_mapping(registry, mapping),
        Change::AddGroup(group) => is_new_group(registry, group),
        Change::RemoveVolume(id) => registry.volume_with(*id).is_some(),
        Change::RemoveMapping(id) => registry.mapping_with(*id).is_some(),
        Change::RemoveGroup(id) => registry.group_with(*id).is_some(),
        Change::SetMapping(_) => false,
    }
}

fn is_new_volume(registry: &Registry, volume: &Volume) -> bool
    ensures { IsTrue result → Fits registry.now.tables (Change.AddVolume volume.now) }
{
    let above = registry
        .all_volumes()
        .iter()
        .all(|other| other.id.0 < volume.id.0);
    let free = registry.check_name(Kind::Vdisk, &volume.name).is_ok();
    above && free
}

fn is_new_mapping(registry: &Registry, mapping: &Mapping) -> bool
    ensures { IsTrue result → Fits registry.now.tables (Change.AddMapping mapping.now) }
{
    let above = registry
        .all_mappings()
        .iter()
        .all(|other| other.id.0 < mapping.id.0);
    let free = registry.check_name(Kind::Fcmap, &mapping.name).is_ok();
    above && free
}

fn is_new_group(registry: &Registry, group: &Group) -> bool
    ensures { IsTrue result → Fits registry.now.tables (Change.AddGroup group.now) }
{
    let above = registry
        .all_groups()
        .iter()
        .all(|other| other.id.0 < group.id.0);
    let free = registry.check_name(Kind::Group, &group.name).is_ok();
    above && free
}
