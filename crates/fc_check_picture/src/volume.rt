//! One plain volume.

ghost use Rattle.std.specs.Prelude.{◌≡◌, ◌==◌, ◌*◌, ◌%◌, ◌++◌, ◌<◌, ◌≤◌, [], ◌∷◌, IfOk, IfSome, OnOk, length, map, option_copied, option_map, replicate, slice_set};
ghost use Rattle.fc_base.specs.Grain.{block_bytes, grain_blocks};
ghost use Rattle.fc_entry.specs.Picture.{content_at, grain_of_block, is_lost, zeros};
ghost use Rattle.fc_entry.specs.PlainStep.{after_torn, after_write, cut_from};
ghost use Rattle.fc_plain.specs.Changes.{cut_at, cut_if, tear_if, write_if};
ghost use Rattle.fc_check_picture.specs.Blocks.{content_of, marked_part, part_of};

use crate::grain::Grain;
use crate::mark::Mark;
use fc_base::ids::VolId;
use fc_base::outcome::NoMemory;
use fc_base::ranges::Range;
use fc_base::request::{Side, Torn, WritePart};
use fc_base::size::GrainSize;
use fc_plain::{grain_at, is_kept};
use std::alloc::Global;
use std::marker::Model;

/// A volume: what it holds now, and what it held before its last trigger as a target.
pub(crate) struct Volume<M: Mark> {
    id: VolId,
    current: Vec<Grain<M>>,
    before: Vec<Grain<M>>,
}

impl<M: Mark> Drop for Volume<M> {
    // Written out, so that a function that drops it has one call for all of it in its proof.
    fn drop(self) {
        let Volume {
            id: _,
            current: _,
            before: _,
        } = self;
    }
}

impl<M: Mark> Model for Volume<M> {
    ghost use Rattle.fc_entry.specs.Picture.{PlainVolume};

    ghost Value = { PlainVolume };

    ghost view = { λ v. record { volume = v.id; now = v.current.items; under = v.before.items } };
}

/// The place of a block in its grain.
pub fn block_in_grain(size: GrainSize, block: u64) -> usize
    ensures place { result ≡ block % grain_blocks size }
    ensures within { result < 512 }
{
    match size {
        GrainSize::K64 => (block % 128) as usize,
        GrainSize::K256 => (block % 512) as usize,
    }
}

/// Puts a grain at the end.
fn push_grain<M: Mark>(grains: &mut Vec<Grain<M>>, grain: Grain<M>) -> Result<(), NoMemory>
    ensures { OnOk result (grains.new.items ≡ grains.old.items ++ grain ∷ []) }
{
    match grains.push(grain) {
        Ok(()) => Ok(()),
        Err(_) => Err(NoMemory),
    }
}

/// So many grains that no write has reached.
fn zero_grains<M: Mark>(
    alloc: Global,
    size: GrainSize,
    count: u32,
) -> Result<Vec<Grain<M>>, NoMemory>
    ensures { IfOk result (λ grains. grains.items ≡ replicate count (zeros size)) }
{
    let mut grains = Vec::new(alloc);
    for _ in 0..count {
        push_grain(&mut grains, Grain::zeros(alloc, size)?)?;
    }
    Ok(grains)
}

/// The same grains again.
fn copy_grains<M: Mark>(alloc: Global, grains: &[Grain<M>]) -> Result<Vec<Grain<M>>, NoMemory>
    ensures { IfOk result (λ copy. copy.items ≡ grains.now) }
{
    let mut copy = Vec::new(alloc);
    for grain in grains {
        push_grain(&mut copy, grain.copy(alloc)?)?;
    }
    Ok(copy)
}

/// What a volume holds, copied for another one.
#[derive(Drop)]
pub(crate) struct Copied<M: Mark> {
    grains: Vec<Grain<M>>,
}

impl<M: Mark> Model for Copied<M> {
    ghost use Rattle.std.specs.Prelude.{List};
    ghost use Rattle.fc_entry.specs.Picture.{Content};

    ghost Value = { List Content };

    ghost view = { λ c. c.grains.items };
}

impl<M: Mark> Copied<M> {
    /// Of a volume that isn't there, nothing. Takes no memory.
    pub(crate) fn nothing(alloc: Global) -> Copied<M>
        ensures { result ≡ [] }
    {
        Copied {
            grains: Vec::new(alloc),
        }
    }
}

impl<M: Mark> Volume<M> {
    /// A volume of so many grains that no write has reached.
    pub(crate) fn zeros(
        alloc: Global,
        id: VolId,
        size: GrainSize,
        grains: u32,
    ) -> Result<Volume<M>, NoMemory>
        ensures { IfOk result (λ v. v ≡ record { volume = id; now = replicate grains (zeros size); under = replicate grains (zeros size) }) }
    {
        let current = zero_grains(alloc, size, grains)?;
        let before = zero_grains(alloc, size, grains)?;
        Ok(Volume {
            id,
            current,
            before,
        })
    }

    /// The same volume again.
    pub(crate) fn copy(&self, alloc: Global) -> Result<Volume<M>, NoMemory>
        ensures { IfOk result (λ copy. copy ≡ self.now) }
    {
        let current = copy_grains(alloc, self.current.as_slice())?;
        let before = copy_grains(alloc, self.before.as_slice())?;
        Ok(Volume {
            id: self.id,
            current,
            before,
        })
    }

    /// Its id.
    pub(crate) fn id(&self) -> VolId
        ensures { result ≡ self.now.volume }
    {
        self.id
    }

    /// Whether it has this id.
    pub(crate) fn is(&self, id: VolId) -> bool
        ensures { result ≡ (self.now.volume.0 == id.0) }
    {
        self.id.0 == id.0
    }

    /// Whether a grain of it was lost; one that it hasn't is as if lost.
    pub(crate) fn is_lost(&self, grain: usize) -> bool
        ensures { result ≡ is_lost (content_at self.now.now grain) }
    {
        grain >= self.current.len() || self.current[grain].is_lost()
    }

    /// The marks of `count` blocks of a grain of it from the block `from` on, or of fewer where it has fewer; None
    /// where it was lost or isn't there.
    pub(crate) fn part(&self, grain: usize, from: usize, count: usize) -> Option<&[M]>
        ensures marks { content_of (option_map (map M.number) (option_copied result)) ≡ part_of (block_bytes * from) (block_bytes * count) (content_at self.now.now grain) }
        ensures within { IfSome result (λ marks. length marks.now ≤ count) }
    {
        if grain < self.current.len() {
            self.current[grain].part(from, count)
        } else {
            None
        }
    }

    /// How many grains it has.
    fn grains(&self) -> usize
        ensures { result ≡ length self.now.now }
    {
        self.current.len()
    }

    /// Blocks of it were written with a mark.
    fn write(
        &mut self,
        alloc: Global,
        size: GrainSize,
        part: WritePart,
        mark: M,
    ) -> Result<(), NoMemory>
        ensures { OnOk result (self.new ≡ after_write size (marked_part (M.number mark) part) self.old) }
    {
        let place = grain_at(size, part.block) as usize;
        if place >= self.current.len() {
            return Ok(());
        }
        let from = block_in_grain(size, part.block);
        let count = part.count as usize;
        self.current[place] = self.current[place].after_write(alloc, from, count, mark)?;
        Ok(())
    }

    /// The same, where it is the volume that was written.
    pub(crate) fn write_where(
        &mut self,
        alloc: Global,
        size: GrainSize,
        part: WritePart,
        mark: M,
    ) -> Result<(), NoMemory>
        ensures { OnOk result (self.new ≡ write_if size (marked_part (M.number mark) part) self.old) }
    {
        if self.is(part.volume) {
            self.write(alloc, size, part, mark)
        } else {
            Ok(())
        }
    }

    /// A failed write left any bytes in a grain of it, where it has this grain.
    fn tear(&mut self, torn: Torn)
        ensures { self.new ≡ after_torn torn self.old }
    {
        let place = torn.grain.0 as usize;
        match torn.side {
            Side::Now => {
                if place < self.current.len() {
                    self.current[place] = Grain::lost();
                }
            }
            Side::Under => {
                if place < self.before.len() {
                    self.before[place] = Grain::lost();
                }
            }
        }
    }

    /// The same, where it is the volume whose grain it is.
    pub(crate) fn tear_where(&mut self, torn: Torn)
        ensures { self.new ≡ tear_if torn self.old }
    {
        if self.is(torn.volume) {
            self.tear(torn);
        }
    }

    /// What it holds now, copied for a target.
    pub(crate) fn copied(&self, alloc: Global) -> Result<Copied<M>, NoMemory>
        ensures { IfOk result (λ copied. copied ≡ self.now.now) }
    {
        let grains = copy_grains(alloc, self.current.as_slice())?;
        Ok(Copied { grains })
    }

    /// It becomes a target, and holds this over what it held.
    pub(crate) fn start(&mut self, copied: Copied<M>)
        ensures { self.new ≡ record self.old { now = copied; under = self.old.now } }
    {
        self.before = std::mem::replace(&mut self.current, copied.grains);
    }

    /// A grain of it that isn't kept holds again what it held before it became a target.
    fn restore(&mut self, alloc: Global, kept: &[Range], place: usize) -> Result<(), NoMemory>
        requires { place < length self.old.now }
        ensures { OnOk result (self.new ≡ record self.old { now = slice_set self.old.now place (cut_at kept.now self.old.now self.old.under place) }) }
    {
        if place < self.before.len() && !is_kept(kept, place) {
            self.current[place] = self.before[place].copy(alloc)?;
        }
        Ok(())
    }

    /// All grains of it that aren't kept hold again what they held before it became a target.
    fn cut(&mut self, alloc: Global, kept: &[Range]) -> Result<(), NoMemory>
        ensures { OnOk result (self.new ≡ record self.old { now = cut_from kept.now 0 self.old.now self.old.under }) }
    {
        let grains = self.grains();
        for place in 0..grains {
            self.restore(alloc, kept, place)?;
        }
        Ok(())
    }

    /// The same, where it is the volume that is cut.
    pub(crate) fn cut_where(
        &mut self,
        alloc: Global,
        id: VolId,
        kept: &[Range],
    ) -> Result<(), NoMemory>
        ensures { OnOk result (self.new ≡ cut_if id kept.now self.old) }
    {
        if self.is(id) {
            self.cut(alloc, kept)
        } else {
            Ok(())
        }
    }
}
