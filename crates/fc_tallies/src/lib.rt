//! How many grains each slot holds, and at how many of them another slot needs it.
//!
//! `Tallies` keeps both counts of each slot, by place. They are counted anew for all slots in one pass over words
//! (`recount`), and kept through moves and writes (`take`, `keep`, `lose`), which touch the slots of one volume and one holder.
//! Contracts see them as `specs/Ledger`. Only `make_room`, `add_direct` and `add_unneeded` take memory.
//!
//! To read: `waiting` (the grains that are waited for, in words), `tally` (the pass), `pairs` (the counts that a move touches),
//! `tallies`, `count` (who reads at a slot, and which slots nobody needs) and `next` (the next grain that a slot lacks, or is
//! needed at). The words are in `specs/`: `Tallies`, `Ledger` and `Nexts`.
#![tactic(auto)]

pub mod count;
pub mod next;
mod pairs;
pub mod tallies;
pub mod tally;
mod waiting;
