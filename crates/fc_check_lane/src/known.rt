//! The record of a judge.

ghost use Rattle.std.specs.Prelude.{◌≡◌, ◌<◌, length, slice_index_or};

use crate::volume::VolumeSize;
use fc_base::size::GrainSize;
use fc_check_picture::Picture;
use fc_check_steps::LaneVolume;
use fc_model::PlainSheet;
use fc_pick::WorkFlags;
use std::marker::Model;

/// What a judge keeps of what was told. There is a lane or more.
pub struct Known {
    /// The grain size.
    pub grain: GrainSize,
    /// The volumes, in order of id: the kind of their disks, and how hosts may reach them.
    pub volumes: Vec<LaneVolume>,
    /// How large each of them is, in the same order.
    pub sizes: Vec<VolumeSize>,
    /// The mappings with background work, in order of id.
    pub flags: Vec<WorkFlags>,
    /// The chains of copies, at all grains.
    pub sheet: PlainSheet,
    /// What plain volumes hold, at all grains.
    pub picture: Picture<u8>,
    /// For each lane the faults of all disks that it ever had.
    pub faults: Vec<u64>,
    /// How many entries there are.
    pub entries: u64,
}

impl Drop for Known {
    // Written out, so that a function that drops it has one call for all of it in its proof.
    fn drop(self) {
        let Known {
            grain: _,
            volumes: _,
            sizes: _,
            flags: _,
            sheet: _,
            picture: _,
            faults: _,
            entries: _,
        } = self;
    }
}

impl Model for Known {
    ghost use Rattle.std.specs.Prelude.{◌<◌, length};
    ghost use Rattle.fc_check_lane.specs.Known as kept;

    ghost Value = { kept.Known };

    ghost view = { λ k. record { grain = k.grain; volumes = k.volumes.items; sizes = k.sizes.items; flags = k.flags.items; sheet = k.sheet; picture = k.picture; faults = k.faults.items; entries = k.entries } };

    ghost invariant = { λ k. 0 < length k.faults.items };
}

impl Known {
    /// The grain size.
    pub(crate) fn grain_size(&self) -> GrainSize
        ensures { result ≡ self.now.grain }
    {
        self.grain
    }

    /// The volumes, and how hosts may reach them.
    pub(crate) fn lane_volumes(&self) -> &[LaneVolume]
        ensures { result.now ≡ self.now.volumes }
    {
        self.volumes.as_slice()
    }

    /// How large volumes are.
    pub(crate) fn volume_sizes(&self) -> &[VolumeSize]
        ensures { result.now ≡ self.now.sizes }
    {
        self.sizes.as_slice()
    }

    /// The mappings with background work.
    pub(crate) fn work_flags(&self) -> &[WorkFlags]
        ensures { result.now ≡ self.now.flags }
    {
        self.flags.as_slice()
    }

    /// The chains of copies.
    pub(crate) fn chains(&self) -> &PlainSheet
        ensures { result.now ≡ self.now.sheet }
    {
        &self.sheet
    }

    /// What plain volumes hold.
    pub(crate) fn plain(&self) -> &Picture<u8>
        ensures { result.now ≡ self.now.picture }
    {
        &self.picture
    }

    /// How many lanes there are, one or more.
    pub fn lanes(&self) -> usize
        ensures count { result ≡ length self.now.faults }
        ensures some { 0 < result }
    {
        self.faults.len()
    }

    /// The faults of a lane; of one that isn't there, none.
    pub(crate) fn lane_faults(&self, lane: usize) -> u64
        ensures { result ≡ slice_index_or self.now.faults lane 0 }
    {
        if lane < self.faults.len() {
            self.faults[lane]
        } else {
            0
        }
    }

    /// How many entries there are.
    pub(crate) fn entry_count(&self) -> u64
        ensures { result ≡ self.now.entries }
    {
        self.entries
    }
}
