//! The least grain that a copy, or a cleaning, of a mapping could fill.

ghost use Rattle.std.specs.Prelude.{◌≡◌, option_map};
ghost use Rattle.fc_steps.specs.Standing.{lane_of};
ghost use Rattle.fc_rules.specs.LaneTurn.{cleaned_slot, copied_slot, least_grain};

use crate::body::Body;
use fc_base::ids::{GrainNo, MapId};
use fc_mdisk::mdisk::Mdisk;
use fc_pick::Grid;

impl<D: Mdisk> Grid for Body<D> {
    ghost least_lacking = { λ b m. least_grain (lane_of b.cascade.lane b.cascade.lanes b.grains.grain) b.cascade.sheet.slots (copied_slot b.cascade.sheet.slots m.0) m.0 };

    ghost least_needed = { λ b m. least_grain (lane_of b.cascade.lane b.cascade.lanes b.grains.grain) b.cascade.sheet.slots (cleaned_slot b.cascade.sheet.slots m.0) m.0 };

    fn lacking(&self, map: MapId) -> Option<GrainNo> {
        match self.cascade.slot(map) {
            Some(slot) => named(self.cascade.next_lacking(slot)),
            None => None,
        }
    }

    fn needed(&self, map: MapId) -> Option<GrainNo> {
        match self.cascade.slot(map) {
            Some(slot) => named(self.cascade.next_needed(slot)),
            None => None,
        }
    }
}

/// The number as that of a grain.
fn named(number: Option<u32>) -> Option<GrainNo>
    ensures { result ≡ option_map (λ n. record { 0 = n }) number }
{
    match number {
        Some(number) => Some(GrainNo(number)),
        None => None,
    }
}
