//! Rows of 64-bit words: how many of their bits are set, and the least bit in which one differs from another.

ghost use Rattle.std.specs.Prelude.{◌≡◌, ℕ, ◌*◌, ◌^◌, ◌<◌, ◌≤◌, not, ◌&&◌, ◌||◌, length};
ghost use Rattle.fc_bits.specs.Grains.{count_set, least_from};
ghost use Rattle.fc_bits.specs.Words.{bit_of, bits_of};

use crate::scan::{Clear, Difference, LANES, Set, Shared, Vector, least_set_bit};

/// How many bits of the words are set. There are fewer than 2^32 of them.
pub fn count_words(words: &[u64]) -> u32
    requires { count_set (bits_of words.now) < 2 ^ 32 }
    ensures { result ≡ count_set (bits_of words.now) }
{
    let mut counts = Vector::splat(0);
    let mut at = 0;
    while at + LANES <= words.len() {
        counts = counts.strict_add(Vector::from_slice(&words[at..]).count_ones());
        at += LANES;
    }
    let mut total = counts.strict_reduce_sum() as u32;
    for word in &words[at..] {
        total += word.count_ones();
    }
    total
}

/// The least bit from bit `from` on that is set in `a` and clear in `b`, and None exactly where there is none.
/// Bit `g` is bit `g mod 64` of word `g / 64`. The rows are of one length, which is at most 2^26 words.
pub fn first_in_difference(a: &[u64], b: &[u64], from: u32) -> Option<u32>
    requires same_length { length a.now ≡ length b.now }
    requires numbered { length a.now ≤ 2 ^ 26 }
    ensures { result ≡ least_from (λ g. bit_of a.now g && not (bit_of b.now g)) from (64 * length a.now) }
{
    least_set_bit(&Difference { a, b }, from)
}

/// The least bit from bit `from` on that is clear in the words, of which there are at most 2^26.
pub(crate) fn first_clear(words: &[u64], from: u32) -> Option<u32>
    requires { length words.now ≤ 2 ^ 26 }
    ensures { result ≡ least_from (λ g. not (bit_of words.now g)) from (64 * length words.now) }
{
    least_set_bit(&Clear { words }, from)
}

/// The least bit from bit `from` on that is set in the words, of which there are at most 2^26.
pub(crate) fn first_set(words: &[u64], from: u32) -> Option<u32>
    requires { length words.now ≤ 2 ^ 26 }
    ensures { result ≡ least_from (bit_of words.now) from (64 * length words.now) }
{
    least_set_bit(&Set { words }, from)
}

/// The least bit from bit `from` on that is set in `a` and in `b`, rows of one length, which is at most 2^26 words.
pub(crate) fn first_shared(a: &[u64], b: &[u64], from: u32) -> Option<u32>
    requires same_length { length a.now ≡ length b.now }
    requires numbered { length a.now ≤ 2 ^ 26 }
    ensures { result ≡ least_from (λ g. bit_of a.now g && bit_of b.now g) from (64 * length a.now) }
{
    least_set_bit(&Shared { a, b }, from)
}

/// Sets each bit of the words that is set in the others, a row of the same length.
pub(crate) fn set_others(words: &mut [u64], others: &[u64])
    requires { length words.old ≡ length others.now }
    ensures { (g : ℕ) → bit_of words.new g ≡ (bit_of words.old g || bit_of others.now g) }
{
    for index in 0..words.len() {
        words[index] |= others[index];
    }
}

/// Clears each bit of the words that is set in the others, a row of the same length.
pub(crate) fn clear_others(words: &mut [u64], others: &[u64])
    requires { length words.old ≡ length others.now }
    ensures { (g : ℕ) → bit_of words.new g ≡ (bit_of words.old g && not (bit_of others.now g)) }
{
    for index in 0..words.len() {
        words[index] &= !others[index];
    }
}

/// Clears each bit of the words that is clear in the others, a row of the same length.
pub(crate) fn keep_others(words: &mut [u64], others: &[u64])
    requires { length words.old ≡ length others.now }
    ensures { (g : ℕ) → bit_of words.new g ≡ (bit_of words.old g && bit_of others.now g) }
{
    for index in 0..words.len() {
        words[index] &= others[index];
    }
}
