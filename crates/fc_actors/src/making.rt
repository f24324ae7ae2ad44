//! A script that is made.

ghost use Rattle.std.specs.Prelude.{◌≡◌};

use crate::script::{ActorScript, Left};
use fc_base::size::GrainSize;
use fc_lane::lane::Lane;
use fc_mdisk::mdisk::Mdisk;
use std::alloc::Global;

impl<D: Mdisk> ActorScript<D> {
    /// The script of an actor, by its number, over a store with grains of this size and so many
    /// lanes. The tray is an empty list with room for all of them. Takes no memory.
    pub fn new(
        alloc: Global,
        actor: u32,
        grain: GrainSize,
        lanes: u32,
        work: Left,
        tray: Vec<Lane<D>>,
    ) -> ActorScript<D>
        ensures actor { result.actor ≡ actor }
        ensures grain { result.grain ≡ grain }
        ensures lanes { result.lanes ≡ lanes }
        ensures work { result.work ≡ work }
        ensures tray { result.tray ≡ tray }
    {
        ActorScript {
            alloc,
            actor,
            grain,
            lanes,
            work,
            tray,
        }
    }
}
