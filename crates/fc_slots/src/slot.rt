//! One slot of a chain: a state of a volume.

ghost use Rattle.std.specs.Prelude.{◌≡◌, ℕ, false, true, None, Some, replicate, length, slice_index_or, slice_set, ◌<◌, not, ◌&&◌, eqb};
ghost use Rattle.fc_base.specs.Column.{is_at};
ghost use Rattle.fc_bits.specs.Grains.{count_set};
ghost use Rattle.fc_slots.specs.Births.{is_after};
ghost use Rattle.fc_base.specs.SheetStep.{grain_taken, grain_kept, grain_lost, split_from};

use fc_bits::GrainSet;
use std::marker::Model;

/// A state of a volume in a chain of copies, named by its birth.
#[derive(Drop)]
pub struct Slot {
    birth: u64,
    chain: u64,
    volume: u32,
    is_live: bool,
    mapping: Option<u32>,
    held: GrainSet,
}

impl Model for Slot {
    ghost use Rattle.fc_base.specs.Sheet.{Slot as SheetSlot};

    ghost Value = { SheetSlot };

    ghost view = { λ s. record { birth = s.birth; chain = s.chain; volume = s.volume; is_live = s.is_live; mapping = s.mapping; held = s.held } };
}

impl Slot {
    /// The live slot of a volume in a chain of its own, which holds every grain of the set.
    pub fn alone(birth: u64, volume: u32, mut held: GrainSet) -> Slot
        ensures { result ≡ record { birth = birth; chain = birth; volume = volume; is_live = true; mapping = None; held = replicate (length held) true } }
    {
        held.set_all();
        Slot {
            birth,
            chain: birth,
            volume,
            is_live: true,
            mapping: None,
            held,
        }
    }

    /// A new live slot of a volume, the mapping's, which holds what the set has.
    pub fn target(birth: u64, chain: u64, volume: u32, mapping: u32, held: GrainSet) -> Slot
        ensures { result ≡ record { birth = birth; chain = chain; volume = volume; is_live = true; mapping = Some mapping; held = held } }
    {
        Slot {
            birth,
            chain,
            volume,
            is_live: true,
            mapping: Some(mapping),
            held,
        }
    }

    /// The number by which the slot is named.
    pub fn birth(&self) -> u64
        ensures { result ≡ self.now.birth }
    {
        self.birth
    }

    /// The birth of the slot that began the chain.
    pub fn chain(&self) -> u64
        ensures { result ≡ self.now.chain }
    {
        self.chain
    }

    /// The volume whose state it is.
    pub fn volume(&self) -> u32
        ensures { result ≡ self.now.volume }
    {
        self.volume
    }

    /// Whether it is the volume as hosts see it.
    pub fn is_live(&self) -> bool
        ensures { result ≡ self.now.is_live }
    {
        self.is_live
    }

    /// The mapping whose slot it is, if any.
    pub fn mapping(&self) -> Option<u32>
        ensures { result ≡ self.now.mapping }
    {
        self.mapping
    }

    /// Whether it is the slot of this mapping.
    pub(crate) fn is_of(&self, mapping: u32) -> bool
        ensures { result ≡ is_at self.now.mapping mapping }
    {
        match self.mapping {
            Some(own) => own == mapping,
            None => false,
        }
    }

    /// Whether it holds the grain; past its last grain it holds none.
    pub fn holds(&self, grain: u32) -> bool
        ensures { result ≡ slice_index_or self.now.held grain false }
    {
        grain < self.held.len() && self.held.has(grain)
    }

    /// How many of the lane's grains the volume has.
    pub fn grains(&self) -> u32
        ensures { result ≡ length self.now.held }
    {
        self.held.len()
    }

    /// The grains that it holds.
    pub fn held(&self) -> &GrainSet
        ensures { result.now ≡ self.now.held }
    {
        &self.held
    }

    /// How many grains it holds.
    pub fn held_count(&self) -> u32
        ensures { result ≡ count_set self.now.held }
    {
        self.held.count()
    }

    /// Whether it is an old slot of the volume.
    pub fn is_old_of(&self, volume: u32) -> bool
        ensures { result ≡ (not self.now.is_live && eqb self.now.volume volume) }
    {
        !self.is_live && self.volume == volume
    }

    /// Whether it is an old slot of the volume born after this birth, if there is one.
    pub fn is_old_after(&self, volume: u32, after: Option<u64>) -> bool
        ensures { result ≡ ((not self.now.is_live && eqb self.now.volume volume) && is_after after self.now.birth) }
    {
        !self.is_live
            && self.volume == volume
            && match after {
                Some(after) => after < self.birth,
                None => true,
            }
    }

    /// A slot of the volume is written: the live slot gets the grain, an old one loses it.
    pub fn take(&mut self, volume: u32, grain: u32)
        ensures { self.new ≡ grain_taken volume grain self.old }
    {
        if self.volume == volume && grain < self.held.len() {
            if self.is_live {
                self.held.set(grain);
            } else {
                self.held.clear(grain);
            }
        }
    }

    /// The volume's live slot gets the grain, which its physical grain already is.
    pub fn keep(&mut self, volume: u32, grain: u32)
        ensures { self.new ≡ grain_kept volume grain self.old }
    {
        if self.is_live && self.volume == volume && grain < self.held.len() {
            self.held.set(grain);
        }
    }

    /// The volume's old slots lose the grain.
    pub fn lose(&mut self, volume: u32, grain: u32)
        ensures { self.new ≡ grain_lost volume grain self.old }
    {
        if !self.is_live && self.volume == volume && grain < self.held.len() {
            self.held.clear(grain);
        }
    }

    /// It becomes old.
    pub fn age(&mut self)
        ensures { self.new ≡ record self.old { is_live = false } }
    {
        self.is_live = false;
    }

    /// It becomes the first of a chain of its own, and no mapping's any more.
    pub(crate) fn begin_chain(&mut self)
        ensures { self.new ≡ record self.old { chain = self.old.birth; mapping = None } }
    {
        self.chain = self.birth;
        self.mapping = None;
    }

    /// It goes along from one chain into another, if it stands in it.
    pub(crate) fn go_along(&mut self, from: u64, to: u64)
        ensures { self.new ≡ split_from from to self.old }
    {
        if self.chain == from {
            self.chain = to;
        }
    }
}
