//! What a lane tells of the grains that background work could move.

ghost use Rattle.std.specs.Prelude.{◌≡◌, Option};
ghost use Rattle.fc_base.specs.declared.ids.MapId.{MapId};
ghost use Rattle.fc_base.specs.declared.ids.GrainNo.{GrainNo};

use fc_base::ids::{GrainNo, MapId};

/// The grains of one lane at which the mappings' slots lack something, or are needed.
pub trait Grid {
    /// The least grain of the lane that the mapping's slot lacks.
    ghost least_lacking: { Self → MapId → Option GrainNo };

    /// The least grain of the lane that another slot needs from the mapping's slot.
    ghost least_needed: { Self → MapId → Option GrainNo };

    /// The least grain of the lane that the mapping's slot lacks: the one that a copy would fill. None exactly
    /// where it lacks none.
    fn lacking(&self, map: MapId) -> Option<GrainNo>
        ensures { result ≡ least_lacking self.now map };

    /// The least grain of the lane that another slot needs from the mapping's slot: the one that a cleaning would
    /// hand on. None exactly where there is none.
    fn needed(&self, map: MapId) -> Option<GrainNo>
        ensures { result ≡ least_needed self.now map };
}
