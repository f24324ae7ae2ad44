//! Rows of bits in words of 64.

ghost use Rattle.std.specs.Prelude.{◌≡◌, ◌++◌, [], ◌∷◌, length, IfOk, OnOk, OnErr};
ghost use Rattle.fc_bits.specs.Words.{bit_of};
ghost use Rattle.fc_image.specs.Words.{with_bit, without_bit, bit_put};

use fc_base::outcome::NoMemory;
use std::alloc::Global;
use std::marker::Model;

/// A row of bits, of which bit `g mod 64` of word `g / 64` is grain `g`. Contracts see the list of the words.
#[derive(Drop)]
pub struct Words {
    words: Vec<u64>,
}

impl Model for Words {
    ghost use Rattle.std.specs.Prelude.{List, ℕ};

    ghost Value = { List ℕ };

    ghost view = { λ w. w.words.items };
}

impl Words {
    /// No words. Takes no memory.
    pub fn new(alloc: Global) -> Self
        ensures { result ≡ [] }
    {
        Words {
            words: Vec::new(alloc),
        }
    }

    /// These words. Takes no memory.
    pub fn of(words: Vec<u64>) -> Self
        ensures { result ≡ words.items }
    {
        Words { words }
    }

    /// The words, in order.
    pub fn as_slice(&self) -> &[u64]
        ensures { result.now ≡ self.now }
    {
        self.words.as_slice()
    }

    /// Whether the grain's bit is set; past the last word none is.
    pub fn has(&self, grain: u32) -> bool
        ensures { result ≡ bit_of self.now grain }
    {
        let words = self.as_slice();
        let place = grain as usize / 64;
        if place < words.len() {
            words[place] >> (grain % 64) & 1 == 1
        } else {
            false
        }
    }

    /// Puts a word at the end. Refused, the words are as they were.
    pub fn push(&mut self, word: u64) -> Result<(), NoMemory>
        ensures ok { OnOk result (self.new ≡ self.old ++ word ∷ []) }
        ensures err { OnErr result (self.new ≡ self.old) }
    {
        match self.words.push(word) {
            Ok(()) => Ok(()),
            Err(_) => Err(NoMemory),
        }
    }

    /// The same words again.
    pub fn copy(&self, alloc: Global) -> Result<Words, NoMemory>
        ensures { IfOk result (λ words. words ≡ self.now) }
    {
        match Vec::from_slice(alloc, self.words.as_slice()) {
            Ok(words) => Ok(Words { words }),
            Err(_) => Err(NoMemory),
        }
    }

    /// Sets the grain's bit; past the last word nothing changes.
    pub fn set(&mut self, grain: u32)
        ensures { self.new ≡ with_bit self.old grain }
    {
        let place = grain as usize / 64;
        if place < self.words.len() {
            self.words[place] |= 1 << (grain % 64);
        }
    }

    /// Clears the grain's bit; past the last word nothing changes.
    pub fn clear(&mut self, grain: u32)
        ensures { self.new ≡ without_bit self.old grain }
    {
        let place = grain as usize / 64;
        if place < self.words.len() {
            self.words[place] &= !(1 << (grain % 64));
        }
    }

    /// Sets the grain's bit or clears it.
    pub fn put(&mut self, grain: u32, value: bool)
        ensures { self.new ≡ bit_put self.old grain value }
    {
        if value {
            self.set(grain);
        } else {
            self.clear(grain);
        }
    }
}
