//! The tables of a store, and its allocator.

ghost use Rattle.std.specs.Prelude.{◌≡◌};

use crate::store::Store;
use fc_mdisk::mdisk::Mdisk;
use fc_registry::Registry;
use std::alloc::Global;

impl<D: Mdisk> Store<D> {
    /// The tables of volumes, mappings and groups.
    pub fn registry(&self) -> &Registry
        ensures { result.now.tables ≡ self.now.control.tables }
    {
        self.control.registry()
    }

    /// The allocator that it takes its memory from.
    pub fn alloc(&self) -> Global {
        self.alloc
    }
}
