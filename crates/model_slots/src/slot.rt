//! One slot of a chain, with what it holds as a plain list.

ghost use Rattle.std.specs.Prelude.{◌≡◌, ℕ, true, false, None, Some, replicate, length, slice_index_or, IfOk};
ghost use Rattle.fc_base.specs.Column.{is_at};
ghost use Rattle.fc_base.specs.Need.{is_complete};
ghost use Rattle.fc_base.specs.SheetStep.{split_from, grain_taken, grain_kept, grain_lost};
ghost use Rattle.fc_books.specs.After.{of_length};

use fc_base::outcome::NoMemory;
use std::alloc::Global;
use std::marker::Model;

/// A state of a volume in a chain of copies, named by its birth.
#[derive(Drop)]
pub struct Slot {
    birth: u64,
    chain: u64,
    volume: u32,
    is_live: bool,
    mapping: Option<u32>,
    held: Vec<bool>,
}

impl Model for Slot {
    ghost use Rattle.fc_base.specs.Sheet.{Slot as SheetSlot};

    ghost Value = { SheetSlot };

    ghost view = { λ s. record { birth = s.birth; chain = s.chain; volume = s.volume; is_live = s.is_live; mapping = s.mapping; held = s.held.items } };
}

/// A list of so many equal marks.
fn marks(alloc: Global, mark: bool, count: usize) -> Result<Vec<bool>, NoMemory>
    ensures { IfOk result (λ marks. marks.items ≡ replicate count mark) }
{
    match vec![in alloc; mark; count] {
        Ok(marks) => Ok(marks),
        Err(_) => Err(NoMemory),
    }
}

/// The mark at a place; past the last one there is none.
fn has_mark(marks: &[bool], place: usize) -> bool
    ensures { result ≡ slice_index_or marks.now place false }
{
    place < marks.len() && marks[place]
}

/// Marks become those of a set, as far as there are so many.
fn set_marks(marks: &mut [bool], set: &[bool])
    ensures { marks.new ≡ of_length (length marks.old) set.now }
{
    for place in 0..marks.len() {
        marks[place] = has_mark(set, place);
    }
}

impl Slot {
    /// The live slot of a volume in a chain of its own, which holds all of so many grains.
    pub fn alone(alloc: Global, birth: u64, volume: u32, grains: usize) -> Result<Slot, NoMemory>
        ensures { IfOk result (λ s. s ≡ record { birth = birth; chain = birth; volume = volume; is_live = true; mapping = None; held = replicate grains true }) }
    {
        let held = marks(alloc, true, grains)?;
        Ok(Slot {
            birth,
            chain: birth,
            volume,
            is_live: true,
            mapping: None,
            held,
        })
    }

    /// The live slot of a mapping's target in a chain, which holds none of so many grains.
    pub fn target(
        alloc: Global,
        birth: u64,
        chain: u64,
        volume: u32,
        mapping: u32,
        grains: usize,
    ) -> Result<Slot, NoMemory>
        ensures { IfOk result (λ s. s ≡ record { birth = birth; chain = chain; volume = volume; is_live = true; mapping = Some mapping; held = replicate grains false }) }
    {
        let held = marks(alloc, false, grains)?;
        Ok(Slot {
            birth,
            chain,
            volume,
            is_live: true,
            mapping: Some(mapping),
            held,
        })
    }

    /// Another slot like it.
    pub fn copy(&self, alloc: Global) -> Result<Slot, NoMemory>
        ensures { IfOk result (λ s. s ≡ self.now) }
    {
        match Vec::from_slice(alloc, self.held.as_slice()) {
            Ok(held) => Ok(Slot {
                birth: self.birth,
                chain: self.chain,
                volume: self.volume,
                is_live: self.is_live,
                mapping: self.mapping,
                held,
            }),
            Err(_) => Err(NoMemory),
        }
    }

    /// The number by which the slot is named.
    pub fn birth(&self) -> u64
        ensures { result ≡ self.now.birth }
    {
        self.birth
    }

    /// The birth of the slot that began the chain.
    pub fn chain(&self) -> u64
        ensures { result ≡ self.now.chain }
    {
        self.chain
    }

    /// The volume whose state it is.
    pub fn volume(&self) -> u32
        ensures { result ≡ self.now.volume }
    {
        self.volume
    }

    /// Whether it is the volume as hosts see it.
    pub fn is_live(&self) -> bool
        ensures { result ≡ self.now.is_live }
    {
        self.is_live
    }

    /// Whether it is the slot of this mapping.
    pub fn is_of(&self, mapping: u32) -> bool
        ensures { result ≡ is_at self.now.mapping mapping }
    {
        match self.mapping {
            Some(own) => own == mapping,
            None => false,
        }
    }

    /// Whether it holds the grain; past its last grain it holds none.
    pub fn holds(&self, grain: usize) -> bool
        ensures { result ≡ slice_index_or self.now.held grain false }
    {
        has_mark(self.held.as_slice(), grain)
    }

    /// For each grain whether it holds it.
    pub fn held(&self) -> &[bool]
        ensures { result.now ≡ self.now.held }
    {
        self.held.as_slice()
    }

    /// How many grains its volume has on the sheet.
    pub fn grains(&self) -> usize
        ensures { result ≡ length self.now.held }
    {
        self.held.len()
    }

    /// Whether it holds every grain.
    pub fn is_complete(&self) -> bool
        ensures { result ≡ is_complete self.now }
    {
        self.held.as_slice().iter().all(|held| *held)
    }

    /// It becomes old.
    pub fn age(&mut self)
        ensures { self.new ≡ record self.old { is_live = false } }
    {
        self.is_live = false;
    }

    /// A slot of the one chain comes into the other.
    pub fn join(&mut self, chain: u64, other: u64)
        ensures { self.new ≡ split_from chain other self.old }
    {
        if self.chain == chain {
            self.chain = other;
        }
    }

    /// It begins a chain of its own, and is no mapping's any more.
    pub fn begin_chain(&mut self)
        ensures { self.new ≡ record self.old { chain = self.old.birth; mapping = None } }
    {
        self.chain = self.birth;
        self.mapping = None;
    }

    /// A slot of the volume is written: the live slot gets the grain, an old one loses it.
    pub fn take(&mut self, volume: u32, grain: usize)
        ensures { self.new ≡ grain_taken volume grain self.old }
    {
        if self.volume == volume && grain < self.held.len() {
            self.held[grain] = self.is_live;
        }
    }

    /// The volume's live slot gets the grain, and nothing else changes.
    pub fn keep(&mut self, volume: u32, grain: usize)
        ensures { self.new ≡ grain_kept volume grain self.old }
    {
        if self.is_live && self.volume == volume && grain < self.held.len() {
            self.held[grain] = true;
        }
    }

    /// The volume's old slots lose the grain.
    pub fn lose(&mut self, volume: u32, grain: usize)
        ensures { self.new ≡ grain_lost volume grain self.old }
    {
        if !self.is_live && self.volume == volume && grain < self.held.len() {
            self.held[grain] = false;
        }
    }

    /// It holds the grains of a set, and no others.
    pub fn hold_only(&mut self, set: &[bool])
        ensures { self.new ≡ record self.old { held = of_length (length self.old.held) set.now } }
    {
        set_marks(self.held.as_mut_slice(), set);
    }
}
