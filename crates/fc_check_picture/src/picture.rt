//! All plain volumes.

ghost use Rattle.std.specs.Prelude.{◌≡◌, ◌↔◌, ◌*◌, ◌≤◌, [], IfOk, IfSome, OnOk, IsTrue, length, map, option_copied, option_map};
ghost use Rattle.fc_base.specs.Grain.{block_bytes};
ghost use Rattle.fc_entry.specs.Picture.{changed_at, volume_in, now_at, is_lost};
ghost use Rattle.fc_entry.specs.PlainStep.{after_effects, after_torn, after_write};
ghost use Rattle.fc_entry.specs.Reads.{IsRightIn};
ghost use Rattle.fc_check_picture.specs.Blocks.{content_of, marked_part, part_of};

use crate::bytes::stand_for;
use crate::changes::{do_effects, push_volume, tear_grain, write_blocks};
use crate::mark::Mark;
use crate::volume::Volume;
use fc_base::ids::VolId;
use fc_base::outcome::NoMemory;
use fc_base::request::{Effect, Torn, WritePart};
use fc_base::runs::Runs;
use fc_base::size::GrainSize;
use std::alloc::Global;
use std::marker::Model;

/// What all plain volumes hold, block by block.
#[derive(Drop)]
pub struct Picture<M: Mark> {
    volumes: Vec<Volume<M>>,
}

impl<M: Mark> Model for Picture<M> {
    ghost use Rattle.fc_entry.specs.Picture as told;

    ghost Value = { told.Picture };

    ghost view = { λ p. p.volumes.items };
}

impl<M: Mark> Picture<M> {
    /// No volumes. Takes no memory.
    pub fn new(alloc: Global) -> Picture<M>
        ensures { result ≡ [] }
    {
        Picture {
            volumes: Vec::new(alloc),
        }
    }

    /// Another picture of the same volumes, which hold the same. Refused for want of memory alone.
    pub fn copy(&self, alloc: Global) -> Result<Picture<M>, NoMemory>
        ensures { IfOk result (λ copy. copy ≡ self.now) }
    {
        let mut volumes = Vec::new(alloc);
        for volume in self.volumes.as_slice() {
            push_volume(&mut volumes, volume.copy(alloc)?)?;
        }
        Ok(Picture { volumes })
    }

    /// Whether a grain of a volume was lost; one that isn't there is as if lost.
    pub fn is_lost(&self, volume: VolId, grain: usize) -> bool
        ensures { result ≡ is_lost (now_at (volume_in self.now volume) grain) }
    {
        for own in self.volumes.as_slice() {
            if own.is(volume) {
                return own.is_lost(grain);
            }
        }
        true
    }

    /// The marks of `count` blocks of a volume's grain from the block `from` of the grain on, or of fewer where it
    /// has fewer; None where the grain was lost or isn't there.
    pub fn part(&self, volume: VolId, grain: usize, from: usize, count: usize) -> Option<&[M]>
        ensures marks { content_of (option_map (map M.number) (option_copied result)) ≡ part_of (block_bytes * from) (block_bytes * count) (now_at (volume_in self.now volume) grain) }
        ensures within { IfSome result (λ marks. length marks.now ≤ count) }
    {
        for own in self.volumes.as_slice() {
            if own.is(volume) {
                return own.part(grain, from, count);
            }
        }
        None
    }

    /// Blocks of one grain were written with a mark, in each volume with the id; the byte that was written doesn't
    /// matter. Refused for want of memory alone; then it may stand for anything.
    pub fn write_mark(
        &mut self,
        alloc: Global,
        size: GrainSize,
        part: WritePart,
        mark: M,
    ) -> Result<(), NoMemory>
        ensures { OnOk result (self.new ≡ changed_at part.volume (after_write size (marked_part (M.number mark) part)) self.old) }
    {
        write_blocks(alloc, size, self.volumes.as_mut_slice(), part, mark)
    }

    /// A failed write left any bytes in a grain, of each volume with the id.
    pub fn tear(&mut self, torn: Torn)
        ensures { self.new ≡ changed_at torn.volume (after_torn torn) self.old }
    {
        tear_grain(self.volumes.as_mut_slice(), torn);
    }

    /// Does the effects of a command, in their order. Refused for want of memory alone; then it may stand for
    /// anything.
    pub fn apply(
        &mut self,
        alloc: Global,
        size: GrainSize,
        effects: &[Effect],
    ) -> Result<(), NoMemory>
        ensures { OnOk result (self.new ≡ after_effects size self.old effects.now) }
    {
        do_effects(alloc, size, &mut self.volumes, effects)
    }
}

impl Picture<u8> {
    /// Whether runs stand for what `count` blocks of a volume's grain hold from the block `from` on; no runs do
    /// where the grain was lost or isn't there. Refused for want of memory alone.
    pub fn holds(
        &self,
        alloc: Global,
        volume: VolId,
        grain: usize,
        from: usize,
        count: u32,
        runs: &Runs,
    ) -> Result<bool, NoMemory>
        ensures { IfOk result (λ yes. IsTrue yes ↔ IsRightIn (block_bytes * from) (block_bytes * count) (now_at (volume_in self.now volume) grain) runs.now) }
    {
        match self.part(volume, grain, from, count as usize) {
            Some(bytes) => stand_for(alloc, bytes, runs),
            None => Ok(false),
        }
    }

    /// Blocks of one grain were written with one byte, in each volume with the id. Refused for want of memory
    /// alone; then it may stand for anything.
    pub fn write(&mut self, alloc: Global, size: GrainSize, part: WritePart) -> Result<(), NoMemory>
        ensures { OnOk result (self.new ≡ changed_at part.volume (after_write size part) self.old) }
    {
        self.write_mark(alloc, size, part, part.byte)
    }
}
