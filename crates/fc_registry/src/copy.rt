//! Copies of the tables.

ghost use Rattle.std.specs.Prelude.{◌≡◌, ◌<◌, None, IfOk, OnOk};
ghost use Rattle.fc_registry.specs.Index.{rows, room};

use crate::Registry;
use crate::indexed::{Named, Table};
use crate::objects::{copy_group, copy_mapping, copy_volume};
use fc_base::outcome::NoMemory;
use fc_base::volume::{Group, Mapping, Volume};
use std::alloc::Global;

/// An object of a table that can be copied.
pub(crate) trait Again: Named {
    /// The same object again.
    fn again(&self, alloc: Global) -> Result<Self, NoMemory>
        ensures { IfOk result (λ copy. copy ≡ self.now) };
}

impl Again for Volume {
    fn again(&self, alloc: Global) -> Result<Self, NoMemory> {
        copy_volume(alloc, self)
    }
}

impl Again for Mapping {
    fn again(&self, alloc: Global) -> Result<Self, NoMemory> {
        copy_mapping(alloc, self)
    }
}

impl Again for Group {
    fn again(&self, alloc: Global) -> Result<Self, NoMemory> {
        copy_group(alloc, self)
    }
}

impl<T: Again> Table<T> {
    /// Makes room for one more object like this, and gives a copy of it with the key of its name. Refused, the objects are as
    /// they were.
    pub(crate) fn make_room(&mut self, alloc: Global, object: &T) -> Result<(T, Vec<u8>), NoMemory>
        ensures room { OnOk result (0 < room self.new) }
        ensures copy { IfOk result (λ made. made.0 ≡ object.now) }
        ensures key { IfOk result (λ made. made.1.items ≡ T.name_of object.now) }
        ensures same { rows self.new ≡ rows self.old }
    {
        let key = self.reserve(alloc, object.name())?;
        let copy = object.again(alloc)?;
        Ok((copy, key))
    }

    /// A table of the same objects. Refused for want of memory alone.
    pub(crate) fn copy(&self, alloc: Global) -> Result<Table<T>, NoMemory>
        ensures { IfOk result (λ copy. rows copy ≡ rows self.now) }
    {
        let mut copy = Table::new(alloc);
        for item in self.as_slice() {
            let (object, key) = copy.make_room(alloc, item)?;
            copy.add(object, key);
        }
        Ok(copy)
    }
}

impl Registry {
    /// Another registry with the same tables, that keeps no room for a new object. Refused for want of memory alone.
    pub fn copy(&self, alloc: Global) -> Result<Registry, NoMemory>
        ensures tables { IfOk result (λ copy. copy.tables ≡ self.now.tables) }
        ensures reserved { IfOk result (λ copy. copy.reserved ≡ None) }
    {
        Ok(Registry {
            volumes: self.volumes.copy(alloc)?,
            mappings: self.mappings.copy(alloc)?,
            groups: self.groups.copy(alloc)?,
            kept: None,
        })
    }
}
