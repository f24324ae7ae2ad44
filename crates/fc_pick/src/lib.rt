//! The next grain of background work in one lane: which mapping copies or cleans next, and at which grain.
//!
//! `Work` keeps the two work flags of each mapping and is seen as the list of those that have one, in order of id.
//! A lane tells what its chains lack and need through the trait `Grid`. It promises:
//! - `next_copy` and `next_clean` give the first mapping by id that has the flag and a possible grain, and its
//!   least such grain, and None exactly where there is none; a turn is a walk over the mappings with one question
//!   of the grid for each that has the flag, up to the first with a grain;
//! - `set` and `forget` change the flags of their mapping alone;
//! - `track` makes a mapping known; from then on `set` of it never fails;
//! - of rows in order of id, `place_of` gives the place of a mapping's row, and `is_at` whether the row stands there.
//!
//! In reading order: `grid` (what a lane tells), `work` (the flags, and what comes next).
#![tactic(auto)]

mod grid;
mod work;

pub use grid::Grid;
pub use work::{Work, WorkFlags, is_at, place_of};
