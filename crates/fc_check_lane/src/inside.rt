//! Where an access lies, and whether an entry is one of a lane.

ghost use Rattle.std.specs.Prelude.{◌≡◌, ◌↔◌, ◌+◌, ◌<◌, ◌≤◌, ◌%◌, IsTrue, MatchOption};
ghost use Rattle.fc_base.specs.Grain.{grain_blocks};
ghost use Rattle.fc_base.specs.declared.request.Place.TheVariants.{Lane};
ghost use Rattle.fc_entry.specs.Picture.{grain_of_block};
ghost use Rattle.fc_check_lane.specs.Answers.{HasGrain, IsInsideIn, IsOfLane, IsOfGrain};

use crate::known::Known;
use fc_base::ids::VolId;
use fc_base::request::Place;
use fc_base::size::GrainSize;
use fc_entry::entry::Entry;

/// The grain in which a block stands.
fn grain_at(grain: GrainSize, block: u64) -> u64
    ensures { result ≡ grain_of_block grain block }
{
    match grain {
        GrainSize::K64 => block / 128,
        GrainSize::K256 => block / 512,
    }
}

/// The place of a block in its grain.
pub(crate) fn block_in_grain(grain: GrainSize, block: u64) -> usize
    ensures place { result ≡ block % grain_blocks grain }
    ensures within { result < 512 }
{
    match grain {
        GrainSize::K64 => (block % 128) as usize,
        GrainSize::K256 => (block % 512) as usize,
    }
}

/// Whether one block or more lie in one grain.
fn is_in_one(grain: GrainSize, block: u64, count: u32) -> bool
    ensures { IsTrue result ↔ ((1 ≤ count) × (block % grain_blocks grain + count ≤ grain_blocks grain)) }
{
    count >= 1 && block_in_grain(grain, block) + count as usize <= grain.blocks() as usize
}

/// Whether an entry is of the lane with a number.
fn is_in_lane(place: Place, lane: usize) -> bool
    ensures { IsTrue result ↔ (place ≡ Lane lane) }
{
    match place {
        Place::Lane(own) => usize::from(own) == lane,
        Place::Every => false,
        Place::Control => false,
    }
}

impl Known {
    /// A grain of a volume, where the volume has it; None exactly where it hasn't.
    fn grain_of(&self, volume: VolId, number: u64) -> Option<u32>
        ensures { MatchOption result (HasGrain self.now volume number → ⊥) (λ grain. HasGrain self.now volume number × (grain ≡ number)) }
    {
        for size in self.volume_sizes() {
            if size.volume.0 == volume.0 && number < u64::from(size.grains) {
                return Some(number as u32);
            }
        }
        None
    }

    /// The grain in which blocks lie that are inside a volume and inside one grain; None exactly where they aren't.
    pub(crate) fn grain_inside(&self, volume: VolId, block: u64, count: u32) -> Option<u32>
        ensures { MatchOption result (IsInsideIn self.now volume block count → ⊥) (λ grain. IsInsideIn self.now volume block count × (grain ≡ grain_of_block self.now.grain block)) }
    {
        let size = self.grain_size();
        if is_in_one(size, block, count) {
            self.grain_of(volume, grain_at(size, block))
        } else {
            None
        }
    }

    /// Whether an entry is one of a lane, whatever it answers.
    pub(crate) fn is_of_lane(&self, lane: usize, entry: &Entry) -> bool
        ensures { IsTrue result ↔ IsOfLane self.now lane entry.now }
    {
        is_in_lane(entry.place, lane)
            && entry.faults_before == self.lane_faults(lane)
            && entry.faults_before <= entry.faults_after
            && entry.effects.as_slice().is_empty()
    }

    /// Whether an entry is one of the lane of a grain, whatever it answers.
    pub(crate) fn is_of_grain(&self, number: u32, entry: &Entry) -> bool
        ensures { IsTrue result ↔ IsOfGrain self.now number entry.now }
    {
        self.is_of_lane(number as usize % self.lanes(), entry)
    }
}
