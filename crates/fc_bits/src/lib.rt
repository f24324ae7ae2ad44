//! Grain bitmaps: which grains of a mapping are held, needed or changed.
//!
//! A `GrainSet` is a set of the grains 0, 1, .. of one mapping or volume. It keeps one bit for each grain, in words of 64
//! bits: grain `g` is bit `g mod 64` of word `g / 64`. Contracts see the plain list of truth values, one for each grain, and
//! each call is proved to do to that list what its name says: no clause speaks of words but that of `words`, which shows
//! them. Only `new` takes memory; every other call always succeeds.
//!
//! - One grain: `has`, `set`, `clear`. All grains: `set_all`, `clear_all`, `is_full`, `is_clear`, `count`.
//! - The least grain from a place on: `next_set`, `next_clear`, and with another set `next_in_difference`, `next_shared`.
//! - With another set of the same length: `copy_from`, `add_all`, `remove_all`.
//! - Over plain words: `count_words`, `first_in_difference`.
//!
//! Every search and count goes over whole words, four at a time where as many are left, and looks into the one word in
//! which it ends.
//!
//! To read: `specs/Grains.antt` (sets as lists), `specs/Words.antt` (words as rows of bits), `src/grain_set.rt`,
//! `src/words.rt`, `src/scan.rt`. The proofs: `Least` (what the least number is), `Places` (the least bit, word by word),
//! `Bridge` (words and lists), `Pairs` (two of them), `Counting`, `Vectors`, `Sets` (the clauses). `Grains` is for callers, and
//! `Examples` has the definitions on small sets.
#![tactic(auto)]

mod grain_set;
mod scan;
mod words;

pub use grain_set::GrainSet;
pub use words::{count_words, first_in_difference};
