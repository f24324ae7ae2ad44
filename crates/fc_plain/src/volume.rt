//! One plain volume.

ghost use Rattle.std.specs.Prelude.{◌≡◌, ◌==◌, ◌++◌, [], ◌∷◌, IfOk, OnOk, replicate, slice_set, cond};
ghost use Rattle.fc_base.specs.Grain.{grain_bytes};
ghost use Rattle.fc_entry.specs.Picture.{Bytes, zeros, written, content_at};
ghost use Rattle.fc_entry.specs.PlainStep.{after_torn};
ghost use Rattle.fc_plain.specs.Changes.{tear_if};

use crate::grain::Grain;
use fc_base::ids::VolId;
use fc_base::outcome::NoMemory;
use fc_base::request::{Side, Torn};
use fc_base::size::GrainSize;
use std::alloc::Global;
use std::marker::Model;

/// A volume: what it holds now, and what it held before its last trigger as a target.
pub(crate) struct Volume {
    id: VolId,
    current: Vec<Grain>,
    before: Vec<Grain>,
}

impl Drop for Volume {
    // Written out, so that a function that drops it has one call for all of it in its proof.
    fn drop(self) {
        let Volume {
            id: _,
            current: _,
            before: _,
        } = self;
    }
}

impl Model for Volume {
    ghost use Rattle.fc_entry.specs.Picture.{PlainVolume};

    ghost Value = { PlainVolume };

    ghost view = { λ v. record { volume = v.id; now = v.current.items; under = v.before.items } };
}

/// Puts a grain at the end.
pub(crate) fn push_grain(grains: &mut Vec<Grain>, grain: Grain) -> Result<(), NoMemory>
    ensures { OnOk result (grains.new.items ≡ grains.old.items ++ grain ∷ []) }
{
    match grains.push(grain) {
        Ok(()) => Ok(()),
        Err(_) => Err(NoMemory),
    }
}

/// Copies of grains.
pub(crate) fn copies_of(alloc: Global, grains: &[Grain]) -> Result<Vec<Grain>, NoMemory>
    ensures { IfOk result (λ copies. copies.items ≡ grains.now) }
{
    let mut copies = Vec::new(alloc);
    for grain in grains {
        push_grain(&mut copies, grain.copy(alloc)?)?;
    }
    Ok(copies)
}

/// So many grains, each of so many zeros.
fn zero_grains(alloc: Global, count: u32, size: usize) -> Result<Vec<Grain>, NoMemory>
    ensures { IfOk result (λ grains. grains.items ≡ replicate count (Bytes (replicate size 0))) }
{
    let mut grains = Vec::new(alloc);
    for _ in 0..count {
        push_grain(&mut grains, Grain::zeros(alloc, size)?)?;
    }
    Ok(grains)
}

/// The bytes of a grain.
fn size_of_grain(grain: GrainSize) -> usize
    ensures { result ≡ grain_bytes grain }
{
    grain.bytes() as usize
}

impl Volume {
    /// A volume of these grains.
    pub(crate) fn of(id: VolId, current: Vec<Grain>, before: Vec<Grain>) -> Volume
        ensures { result ≡ record { volume = id; now = current.items; under = before.items } }
    {
        Volume {
            id,
            current,
            before,
        }
    }

    /// A volume of so many grains of zeros.
    pub(crate) fn zeros(
        alloc: Global,
        id: VolId,
        grains: u32,
        grain: GrainSize,
    ) -> Result<Volume, NoMemory>
        ensures { IfOk result (λ v. v ≡ record { volume = id; now = replicate grains (zeros grain); under = replicate grains (zeros grain) }) }
    {
        let size = size_of_grain(grain);
        let current = zero_grains(alloc, grains, size)?;
        let before = zero_grains(alloc, grains, size)?;
        Ok(Volume::of(id, current, before))
    }

    /// Another volume like it.
    pub(crate) fn copy(&self, alloc: Global) -> Result<Volume, NoMemory>
        ensures { IfOk result (λ v. v ≡ self.now) }
    {
        let current = copies_of(alloc, self.current.as_slice())?;
        let before = copies_of(alloc, self.before.as_slice())?;
        Ok(Volume::of(self.id, current, before))
    }

    /// Its id.
    pub(crate) fn id(&self) -> VolId
        ensures { result ≡ self.now.volume }
    {
        self.id
    }

    /// What it holds now.
    pub(crate) fn now(&self) -> &[Grain]
        ensures { result.now ≡ self.now.now }
    {
        self.current.as_slice()
    }

    /// What it held before its last trigger as a target.
    pub(crate) fn under(&self) -> &[Grain]
        ensures { result.now ≡ self.now.under }
    {
        self.before.as_slice()
    }

    /// Whether it has this id.
    pub(crate) fn is(&self, id: VolId) -> bool
        ensures { result ≡ (self.now.volume.0 == id.0) }
    {
        self.id.0 == id.0
    }

    /// A grain of what it holds now becomes another, where there is one.
    pub(crate) fn put(&mut self, place: u64, grain: Grain)
        ensures { self.new ≡ record self.old { now = slice_set self.old.now place grain } }
    {
        if place < self.current.len() as u64 {
            self.current[place as usize] = grain;
        }
    }

    /// A failed write left any bytes in a grain of it, where it has this grain.
    pub(crate) fn tear(&mut self, torn: Torn)
        ensures { self.new ≡ after_torn torn self.old }
    {
        let place = torn.grain.0 as usize;
        match torn.side {
            Side::Now => {
                if place < self.current.len() {
                    self.current[place] = Grain::lost();
                }
            }
            Side::Under => {
                if place < self.before.len() {
                    self.before[place] = Grain::lost();
                }
            }
        }
    }

    /// The same, where it is the volume whose grain it is.
    pub(crate) fn tear_where(&mut self, torn: Torn)
        ensures { self.new ≡ tear_if torn self.old }
    {
        if self.id.0 == torn.volume.0 {
            self.tear(torn);
        }
    }

    /// What a grain of it holds after one byte was written at `count` places from `from` on; one that it hasn't is as if
    /// lost.
    pub(crate) fn written_at(
        &self,
        alloc: Global,
        place: u64,
        from: usize,
        count: usize,
        byte: u8,
    ) -> Result<Grain, NoMemory>
        ensures { IfOk result (λ g. g ≡ written from count byte (content_at self.now.now place)) }
    {
        if place < self.current.len() as u64 {
            self.current[place as usize].after_write(alloc, from, count, byte)
        } else {
            Grain::lost().after_write(alloc, from, count, byte)
        }
    }
}
