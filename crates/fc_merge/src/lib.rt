//! What several actors were answered, put at the history's end by number.
//!
//! Each actor has its entries, in order of their numbers (`own`). Where their numbers go on where the history ends, each
//! standing once, `merge` (`merging`) puts them there by number: at each step the list whose first entry has the next
//! number gives it. Of each actor its own entries stand there in their order, and nobody else's. Where memory is wanted,
//! the first of them were put there.
//!
//! To read, in `specs/`: `Merging` (the entries of several actors, and one list of them all), `Taking` (one step); then
//! `own`, `merging` and `proofs/`.
#![tactic(auto)]

pub mod merging;
pub mod own;
