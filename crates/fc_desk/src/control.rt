//! The control part.

ghost use Rattle.std.specs.Prelude.{◌≡◌, [], None};
ghost use Rattle.fc_base.specs.Tables.{no_tables};

use fc_base::size::GrainSize;
use fc_pick::WorkFlags;
use fc_registry::Registry;
use std::alloc::Global;
use std::marker::Model;

/// The control part: the tables, the ids that come next, and which mappings have background work, in order of id.
pub struct Control {
    pub(crate) registry: Registry,
    pub(crate) grain: GrainSize,
    pub(crate) next_volume: u32,
    pub(crate) next_mapping: u32,
    pub(crate) next_group: u32,
    pub(crate) flags: Vec<WorkFlags>,
}

impl Drop for Control {
    // Written out, so that a function that drops it has one call for all of it in its proof.
    fn drop(self) {
        let Control {
            registry: _,
            grain: _,
            next_volume: _,
            next_mapping: _,
            next_group: _,
            flags: _,
        } = self;
    }
}

impl Model for Control {
    ghost use Rattle.std.specs.Prelude.{◌-◌, vec_len, vec_capacity};
    ghost use Rattle.fc_desk.specs.Control.{ControlState};
    ghost use Rattle.fc_pick.specs.Flags.{AreByMapping};

    ghost Value = { ControlState };

    ghost view = { λ c. record { grain = c.grain; tables = c.registry.tables; next_volume = c.next_volume; next_mapping = c.next_mapping; next_group = c.next_group; flags = c.flags.items; reserved = c.registry.reserved; room = vec_capacity c.flags - vec_len c.flags } };

    ghost invariant = { λ c. AreByMapping c.flags.items };
}

impl Control {
    /// The control part of a run that begins: empty tables. Takes no memory.
    pub fn new(alloc: Global, grain: GrainSize) -> Self
        ensures { result ≡ record { grain = grain; tables = no_tables; next_volume = 0; next_mapping = 0; next_group = 1; flags = []; reserved = None; room = 0 } }
    {
        Control {
            registry: Registry::new(alloc),
            grain,
            next_volume: 0,
            next_mapping: 0,
            next_group: 1,
            flags: Vec::new(alloc),
        }
    }

    /// The tables.
    pub fn registry(&self) -> &Registry
        ensures { result.now.tables ≡ self.now.tables }
    {
        &self.registry
    }

    /// The grain size that it was made with.
    pub fn grain(&self) -> GrainSize
        ensures { result ≡ self.now.grain }
    {
        self.grain
    }

    /// The mappings with background work, by id.
    pub fn flags(&self) -> &[WorkFlags]
        ensures { result.now ≡ self.now.flags }
    {
        self.flags.as_slice()
    }

    /// The id that the next volume gets.
    pub fn next_volume(&self) -> u32
        ensures { result ≡ self.now.next_volume }
    {
        self.next_volume
    }

    /// The id that the next mapping gets.
    pub fn next_mapping(&self) -> u32
        ensures { result ≡ self.now.next_mapping }
    {
        self.next_mapping
    }

    /// The id that the next group gets.
    pub fn next_group(&self) -> u32
        ensures { result ≡ self.now.next_group }
    {
        self.next_group
    }
}
