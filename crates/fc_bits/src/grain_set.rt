//! A set of grains with one bit for each grain: a bitmap of FlashCopy.

ghost use Rattle.std.specs.Prelude.{◌≡◌, ℕ, ◌^◌, ◌<◌, ◌≤◌, ◌↔◌, true, false, length, replicate, slice_index_or, slice_set, IsTrue, IfOk};
ghost use Rattle.fc_bits.specs.Grains.{has, count_set, difference, common, union, least_set, least_clear};
ghost use Rattle.fc_bits.specs.Words.{bit_of, bits_of, words_for};

use crate::words::{
    clear_others, count_words, first_clear, first_in_difference, first_set, first_shared,
    keep_others, set_others,
};
use fc_base::outcome::NoMemory;
use std::alloc::Global;
use std::marker::Model;

/// A set of the grains of one volume or mapping, as those that are held, needed or changed.
///
/// Contracts see it as the list of its truth values: the value at place `g` says whether grain `g` is in the set. The list
/// is as long as the volume has grains, and keeps its length; `reset` alone cuts it.
#[derive(Drop)]
pub struct GrainSet {
    words: Vec<u64>,
    grains: u32,
}

impl Model for GrainSet {
    ghost use Rattle.std.specs.Prelude.{List, Bool};
    ghost use Rattle.fc_bits.specs.Words.{grains_of, IsTidy};

    ghost Value = { List Bool };

    ghost view = { λ s. grains_of s.grains s.words.items };

    ghost invariant = { λ s. IsTidy s.grains s.words.items };
}

impl GrainSet {
    /// A set over this many grains with none of them in it. The only call that takes memory, and want of memory is its only
    /// other answer.
    pub fn new(alloc: Global, grains: u32) -> Result<GrainSet, NoMemory>
        ensures { IfOk result (λ set. set ≡ replicate grains false) }
    {
        match vec![in alloc; 0u64; (grains as usize).div_ceil(64)] {
            Ok(words) => Ok(GrainSet { words, grains }),
            Err(_) => Err(NoMemory),
        }
    }

    /// How many grains there are, in the set or not.
    pub fn len(&self) -> u32
        ensures { result ≡ length self.now }
    {
        self.grains
    }

    /// Whether the grain, which is below `len`, is in the set.
    pub fn has(&self, grain: u32) -> bool
        requires { grain < length self.now }
        ensures { result ≡ slice_index_or self.now grain false }
    {
        self.words[grain as usize / 64] >> (grain % 64) & 1 == 1
    }

    /// Puts the grain, which is below `len`, into the set.
    pub fn set(&mut self, grain: u32)
        requires { grain < length self.old }
        ensures { self.new ≡ slice_set self.old grain true }
    {
        self.words[grain as usize / 64] |= 1 << (grain % 64);
    }

    /// Takes the grain, which is below `len`, out of the set.
    pub fn clear(&mut self, grain: u32)
        requires { grain < length self.old }
        ensures { self.new ≡ slice_set self.old grain false }
    {
        self.words[grain as usize / 64] &= !(1 << (grain % 64));
    }

    /// Puts every grain into the set.
    pub fn set_all(&mut self)
        ensures { self.new ≡ replicate (length self.old) true }
    {
        let full = self.grains as usize / 64;
        self.words.fill(u64::MAX);
        // the last word keeps the bits past the last grain clear
        if let Some(last) = self.words.get_mut(full) {
            *last = (1 << (self.grains % 64)) - 1;
        }
    }

    /// Takes every grain out of the set.
    pub fn clear_all(&mut self)
        ensures { self.new ≡ replicate (length self.old) false }
    {
        self.words.fill(0);
    }

    /// Makes this the set over so many grains, no more than it has, with none of them in it. Takes no memory.
    pub fn reset(&mut self, grains: u32)
        requires { grains ≤ length self.old }
        ensures { self.new ≡ replicate grains false }
    {
        self.words.truncate((grains as usize).div_ceil(64));
        self.words.fill(0);
        self.grains = grains;
    }

    /// How many grains are in the set.
    pub fn count(&self) -> u32
        ensures { result ≡ count_set self.now }
    {
        count_words(&self.words)
    }

    /// The least grain from `from` on that is not in the set, and None exactly where all of these are. No grain stands past
    /// the last, and `from` may.
    pub fn next_clear(&self, from: u32) -> Option<u32>
        ensures { result ≡ least_clear self.now from }
    {
        let grain = first_clear(&self.words, from)?;
        if grain < self.grains {
            Some(grain)
        } else {
            None
        }
    }

    /// The least grain from `from` on that is in this set and not in the other, and None exactly where there is none. The
    /// other set has as many grains.
    pub fn next_in_difference(&self, other: &GrainSet, from: u32) -> Option<u32>
        requires { length self.now ≡ length other.now }
        ensures { result ≡ least_set (difference self.now other.now) from }
    {
        first_in_difference(&self.words, &other.words, from)
    }

    /// The least grain from `from` on that is in the set, and None exactly where none of these is.
    pub fn next_set(&self, from: u32) -> Option<u32>
        ensures { result ≡ least_set self.now from }
    {
        first_set(&self.words, from)
    }

    /// The least grain from `from` on that is in both sets, and None exactly where there is none. The other set has as many
    /// grains.
    pub fn next_shared(&self, other: &GrainSet, from: u32) -> Option<u32>
        requires { length self.now ≡ length other.now }
        ensures { result ≡ least_set (common self.now other.now) from }
    {
        first_shared(&self.words, &other.words, from)
    }

    /// Whether every grain is in the set.
    pub fn is_full(&self) -> bool
        ensures { IsTrue result ↔ (self.now ≡ replicate (length self.now) true) }
    {
        self.next_clear(0).is_none()
    }

    /// Whether no grain is in the set.
    pub fn is_clear(&self) -> bool
        ensures { IsTrue result ↔ (self.now ≡ replicate (length self.now) false) }
    {
        self.next_set(0).is_none()
    }

    /// Makes this the same set as the other, which has as many grains.
    pub fn copy_from(&mut self, other: &GrainSet)
        requires { length self.old ≡ length other.now }
        ensures { self.new ≡ other.now }
    {
        self.words.copy_from_slice(&other.words);
    }

    /// Puts every grain of the other set, which has as many grains, into this one.
    pub fn add_all(&mut self, other: &GrainSet)
        requires { length self.old ≡ length other.now }
        ensures { self.new ≡ union self.old other.now }
    {
        set_others(&mut self.words, &other.words);
    }

    /// Takes every grain of the other set, which has as many grains, out of this one.
    pub fn remove_all(&mut self, other: &GrainSet)
        requires { length self.old ≡ length other.now }
        ensures { self.new ≡ difference self.old other.now }
    {
        clear_others(&mut self.words, &other.words);
    }

    /// Keeps of the grains those that the other set, which has as many grains, has too.
    pub fn keep_all(&mut self, other: &GrainSet)
        requires { length self.old ≡ length other.now }
        ensures { self.new ≡ common self.old other.now }
    {
        keep_others(&mut self.words, &other.words);
    }

    /// The words that hold the set, as few as have room for it: bit `g mod 64` of word `g / 64` is grain `g`, and the bits
    /// past the last grain are clear.
    pub fn words(&self) -> &[u64]
        ensures len { length result.now ≡ words_for (length self.now) }
        ensures bits { (g : ℕ) → bit_of result.now g ≡ has self.now g }
        ensures count { count_set (bits_of result.now) ≡ count_set self.now }
        ensures numbered { length self.now < 2 ^ 32 }
    {
        &self.words
    }
}
