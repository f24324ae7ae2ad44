//! The objects of the tables: how each tells its id and its name, and how it is copied.

ghost use Rattle.std.specs.Prelude.{◌≡◌, IfOk, find, option_copied};
ghost use Rattle.fc_base.specs.Tables.{are_partners};

use crate::indexed::Named;
use fc_base::name::Name;
use fc_base::outcome::NoMemory;
use fc_base::volume::{Group, Mapping, Volume};
use std::alloc::Global;

impl Named for Volume {
    ghost id_of = { λ v. v.id.0 };

    ghost name_of = { λ v. v.name };

    fn id(&self) -> u32 {
        self.id.0
    }

    fn name(&self) -> &Name {
        &self.name
    }
}

impl Named for Mapping {
    ghost id_of = { λ m. m.id.0 };

    ghost name_of = { λ m. m.name };

    fn id(&self) -> u32 {
        self.id.0
    }

    fn name(&self) -> &Name {
        &self.name
    }
}

impl Named for Group {
    ghost id_of = { λ g. g.id.0 };

    ghost name_of = { λ g. g.name };

    fn id(&self) -> u32 {
        self.id.0
    }

    fn name(&self) -> &Name {
        &self.name
    }
}

/// The same volume again.
pub fn copy_volume(alloc: Global, volume: &Volume) -> Result<Volume, NoMemory>
    ensures { IfOk result (λ copy. copy ≡ volume.now) }
{
    Ok(Volume {
        id: volume.id,
        name: volume.name.copy(alloc)?,
        grains: volume.grains,
        kind: volume.kind,
    })
}

/// The same mapping again.
pub fn copy_mapping(alloc: Global, mapping: &Mapping) -> Result<Mapping, NoMemory>
    ensures { IfOk result (λ copy. copy ≡ mapping.now) }
{
    Ok(Mapping {
        id: mapping.id,
        name: mapping.name.copy(alloc)?,
        source: mapping.source,
        target: mapping.target,
        group: mapping.group,
        state: mapping.state,
        copy_rate: mapping.copy_rate,
        clean_rate: mapping.clean_rate,
        incremental: mapping.incremental,
        autodelete: mapping.autodelete,
        restoring: mapping.restoring,
        held_at_leave: mapping.held_at_leave,
        complete: mapping.complete,
    })
}

/// The same group again.
pub fn copy_group(alloc: Global, group: &Group) -> Result<Group, NoMemory>
    ensures { IfOk result (λ copy. copy ≡ group.now) }
{
    Ok(Group {
        id: group.id,
        name: group.name.copy(alloc)?,
    })
}

/// The bytes of a name, as a key.
pub fn key_of(alloc: Global, name: &Name) -> Result<Vec<u8>, NoMemory>
    ensures { IfOk result (λ key. key.items ≡ name.now) }
{
    match Vec::from_slice(alloc, name.as_bytes()) {
        Ok(key) => Ok(key),
        Err(_) => Err(NoMemory),
    }
}

/// The first of the mappings that has source and target of this one exchanged.
pub fn first_partner<'a>(mapping: &Mapping, others: &'a [Mapping]) -> Option<&'a Mapping>
    ensures { option_copied result ≡ find (are_partners mapping.now) others.now }
{
    others.iter().find(|other| is_partner(mapping, other))
}

/// Whether the two mappings have source and target exchanged.
fn is_partner(mapping: &Mapping, other: &Mapping) -> bool
    ensures { result ≡ are_partners mapping.now other.now }
{
    mapping.source == other.target && mapping.target == other.source
}
