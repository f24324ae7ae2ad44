//! Copies of the control part.

ghost use Rattle.std.specs.Prelude.{◌≡◌, None, IfOk};

use crate::control::Control;
use fc_base::outcome::NoMemory;
use fc_pick::WorkFlags;
use std::alloc::Global;

/// The same flags again.
fn copy_flags(alloc: Global, flags: &[WorkFlags]) -> Result<Vec<WorkFlags>, NoMemory>
    ensures { IfOk result (λ copy. copy.items ≡ flags.now) }
{
    match Vec::from_slice(alloc, flags) {
        Ok(copy) => Ok(copy),
        Err(_) => Err(NoMemory),
    }
}

impl Control {
    /// Another control part with the same tables, next ids and flags, that keeps no room for a new object. Refused for want of
    /// memory alone.
    pub fn copy(&self, alloc: Global) -> Result<Control, NoMemory>
        ensures { IfOk result (λ copy. copy ≡ record self.now { reserved = None; room = copy.room }) }
    {
        let flags = copy_flags(alloc, self.flags.as_slice())?;
        let registry = self.registry.copy(alloc)?;
        Ok(Control {
            registry,
            grain: self.grain,
            next_volume: self.next_volume,
            next_mapping: self.next_mapping,
            next_group: self.next_group,
            flags,
        })
    }
}
