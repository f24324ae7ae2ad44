//! The least set bit of a row of words, a vector of words at a time.

ghost use Rattle.std.specs.Prelude.{◌≡◌, ℕ, ◌+◌, ◌-◌, ◌*◌, ◌^◌, ◌<◌, ◌≤◌, ◌↔◌, length, bit_and, slice_index, IsTrue, IfSome};
ghost use Rattle.std.specs.Int.{bit_not, w64};
ghost use Rattle.fc_bits.specs.Grains.{least_from};
ghost use Rattle.fc_bits.specs.Words.{bit_in, is_set};
ghost use Rattle.fc_bits.specs.declared.scan.TheConstants.{LANES};

use std::simd::prelude::*;

/// How many words one vector holds.
pub(crate) const LANES: usize = 4;

/// The words of one vector.
pub(crate) type Vector = Simd<u64, LANES>;

/// A row of words, each made when it is asked for.
pub(crate) trait Row {
    ghost word_at: { Self → ℕ → ℕ };

    ghost word_count: { Self → ℕ };

    /// How many words there are.
    fn len(&self) -> usize
        ensures { result ≡ word_count self.now };

    /// The word at a place in the row.
    fn word(&self, index: usize) -> u64
        requires { index < word_count self.now }
        ensures { result ≡ word_at self.now index };

    /// Whether the words of one vector, from `index` on, have no bit set.
    fn are_clear(&self, index: usize) -> bool
        requires { index + LANES ≤ word_count self.now }
        ensures { IsTrue result ↔ ((k : ℕ) → index ≤ k → k < index + LANES → word_at self.now k ≡ 0) };
}

/// The bits that are set in `a` and clear in `b`.
#[derive(Clone, Copy)]
pub(crate) struct Difference<'a> {
    pub(crate) a: &'a [u64],
    pub(crate) b: &'a [u64],
    ghost same_length: { length a.now ≡ length b.now },
}

impl Row for Difference<'_> {
    ghost word_at = { λ row k. bit_and (slice_index row.a.now k) (bit_not w64 (slice_index row.b.now k)) };

    ghost word_count = { λ row. length row.a.now };

    fn len(&self) -> usize {
        self.a.len()
    }

    fn word(&self, index: usize) -> u64 {
        self.a[index] & !self.b[index]
    }

    fn are_clear(&self, index: usize) -> bool {
        let a = Vector::from_slice(&self.a[index..]);
        let b = Vector::from_slice(&self.b[index..]);
        (a & !b).reduce_or() == 0
    }
}

/// The bits that are set in `a` and in `b`.
#[derive(Clone, Copy)]
pub(crate) struct Shared<'a> {
    pub(crate) a: &'a [u64],
    pub(crate) b: &'a [u64],
    ghost same_length: { length a.now ≡ length b.now },
}

impl Row for Shared<'_> {
    ghost word_at = { λ row k. bit_and (slice_index row.a.now k) (slice_index row.b.now k) };

    ghost word_count = { λ row. length row.a.now };

    fn len(&self) -> usize {
        self.a.len()
    }

    fn word(&self, index: usize) -> u64 {
        self.a[index] & self.b[index]
    }

    fn are_clear(&self, index: usize) -> bool {
        let a = Vector::from_slice(&self.a[index..]);
        let b = Vector::from_slice(&self.b[index..]);
        (a & b).reduce_or() == 0
    }
}

/// The bits that are set in the words.
#[derive(Clone, Copy)]
pub(crate) struct Set<'a> {
    pub(crate) words: &'a [u64],
}

impl Row for Set<'_> {
    ghost word_at = { λ row k. slice_index row.words.now k };

    ghost word_count = { λ row. length row.words.now };

    fn len(&self) -> usize {
        self.words.len()
    }

    fn word(&self, index: usize) -> u64 {
        self.words[index]
    }

    fn are_clear(&self, index: usize) -> bool {
        Vector::from_slice(&self.words[index..]).reduce_or() == 0
    }
}

/// The bits that are clear in the words.
#[derive(Clone, Copy)]
pub(crate) struct Clear<'a> {
    pub(crate) words: &'a [u64],
}

impl Row for Clear<'_> {
    ghost word_at = { λ row k. bit_not w64 (slice_index row.words.now k) };

    ghost word_count = { λ row. length row.words.now };

    fn len(&self) -> usize {
        self.words.len()
    }

    fn word(&self, index: usize) -> u64 {
        !self.words[index]
    }

    fn are_clear(&self, index: usize) -> bool {
        (!Vector::from_slice(&self.words[index..])).reduce_or() == 0
    }
}

/// The least set bit of the row from bit `from` on.
pub(crate) fn least_set_bit<R: Row>(row: &R, from: u32) -> Option<u32>
    requires { R.word_count row.now ≤ 2 ^ 26 }
    ensures { result ≡ least_from (bit_in (R.word_at row.now)) from (64 * R.word_count row.now) }
{
    let start = from as usize / 64;
    if start >= row.len() {
        return None;
    }
    match lowest_from(row.word(start), from % 64) {
        Some(bit) => Some(start as u32 * 64 + bit),
        None => least_set_bit_from_word(row, start + 1),
    }
}

/// The least set bit of the row from word `start` on.
fn least_set_bit_from_word<R: Row>(row: &R, start: usize) -> Option<u32>
    requires numbered { R.word_count row.now ≤ 2 ^ 26 }
    requires started { start ≤ R.word_count row.now }
    ensures { result ≡ least_from (bit_in (R.word_at row.now)) (64 * start) (64 * R.word_count row.now) }
{
    let count = row.len();
    let mut at = start;
    while at + LANES <= count && row.are_clear(at) {
        at += LANES;
    }
    for index in at..count {
        if let Some(bit) = lowest_from(row.word(index), 0) {
            return Some(index as u32 * 64 + bit);
        }
    }
    None
}

/// The least set bit of the word from `place` on.
fn lowest_from(word: u64, place: u32) -> Option<u32>
    requires { place < 64 }
    ensures value { result ≡ least_from (is_set word) place 64 }
    ensures bound { IfSome result (λ i. i < 64) }
{
    let rest = word & (u64::MAX << place);
    if rest == 0 {
        None
    } else {
        Some(rest.trailing_zeros())
    }
}
