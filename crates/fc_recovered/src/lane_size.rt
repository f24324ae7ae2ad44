//! A lane among so many.

ghost use Rattle.std.specs.Prelude.{◌≡◌, ◌<◌};
ghost use Rattle.fc_recovered.specs.Readying.{of_size};
ghost use Rattle.fc_rules.specs.LaneTold.{grains_in};

use fc_base::size::GrainSize;

/// A lane among all lanes of a store.
#[derive(Clone, Copy)]
pub(crate) struct LaneSize {
    /// Its number, from 0.
    pub lane: u32,
    /// How many lanes there are.
    pub lanes: u32,
    /// The size of a grain.
    pub grain: GrainSize,
}

impl LaneSize {
    /// How many of so many grains of a volume the lane has.
    pub fn grains_of(&self, grains: u32) -> u32
        requires { self.now.lane < self.now.lanes }
        ensures { result ≡ grains_in (of_size self.now) grains }
    {
        let lanes = u64::from(self.lanes);
        ((u64::from(grains) + lanes - 1 - u64::from(self.lane)) / lanes) as u32
    }
}
