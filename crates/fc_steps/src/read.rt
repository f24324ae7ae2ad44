//! The read of a grain that a volume shows.

ghost use Rattle.std.specs.Prelude.{◌≡◌, ◌+◌, ◌*◌, ◌<◌, ◌≤◌, IfOk, take, drop};
ghost use Rattle.fc_base.specs.Grain.{block_bytes, grain_bytes};
ghost use Rattle.fc_base.specs.Runs.{IsCanonical, expanded};
ghost use Rattle.fc_entry.specs.Picture.{byte_in_grain};
ghost use Rattle.fc_steps.specs.Reading.{CanRead, ReadEnds};

use crate::body::Body;
use crate::write::start_in_grain;
use fc_base::ids::VolId;
use fc_base::limits::BLOCK_BYTES;
use fc_base::outcome::{Failed, NoMemory};
use fc_base::request::ReadPart;
use fc_base::runs::Runs;
use fc_grains::grains::Grains;
use fc_mdisk::mdisk::Mdisk;
use std::alloc::Global;

/// How the read of a grain ended.
#[derive(Clone, Copy, PartialEq, Eq)]
pub enum GrainRead {
    /// The grain is at hand.
    Done,
    /// It is lost: no disk was called.
    IsLost,
    /// The call failed.
    Failed,
}

/// The bytes of a part of the grain at hand, as runs. Wants memory for them.
pub fn runs_of<D: Mdisk>(
    grains: &Grains<D>,
    alloc: Global,
    part: &ReadPart,
) -> Result<Runs, NoMemory>
    requires { byte_in_grain grains.now.grain part.now.block + block_bytes * part.now.count ≤ grain_bytes grains.now.grain }
    ensures expands { IfOk result (λ runs. expanded runs ≡ take (block_bytes * part.now.count) (drop (byte_in_grain grains.now.grain part.now.block) grains.now.buffer)) }
    ensures canonical { IfOk result (λ runs. IsCanonical runs) }
{
    let start = start_in_grain(grains.grain(), part.block) as usize;
    let len = (BLOCK_BYTES * part.count) as usize;
    Runs::of(alloc, &grains.buffer()[start..start + len])
}

impl<D: Mdisk> Body<D> {
    /// Reads the grain that a volume shows, from the volume of its holder, into the grain at hand: one call of a disk,
    /// unless the grain is lost.
    pub fn read_shown(&mut self, volume: VolId, grain: u32, place: u32) -> GrainRead
        requires can { CanRead self.old.cascade self.old.grains volume.0 grain place }
        ensures ends { ReadEnds self.old.cascade.sheet self.old.grains volume.0 place result self.new.grains }
        ensures chains { self.new.cascade ≡ self.old.cascade }
    {
        let source = self.shown_by(volume, grain);
        if self.grains.is_lost(source, place) {
            return GrainRead::IsLost;
        }
        match self.grains.read(source, place) {
            Ok(()) => GrainRead::Done,
            Err(Failed) => GrainRead::Failed,
        }
    }
}
