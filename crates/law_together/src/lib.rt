//! The law of what is done together: what the actors of a block did beside each other is a way through the block.
//!
//! Each actor has what it made, in its own order, with the numbers that were drawn (`Making`). Such lists can be merged
//! (`fc_merge`), and they merge to all entries in the order of their numbers. What each actor asked by its own list, it asked by
//! the merged one: all of its script, the first of it, or the first where one more is wanted (`Asking`). From the faults of
//! which `main` was told, the names that came, and entries that are right and those of the actors, the block's agenda goes to its
//! end, so far, or to where one more request is next (`Telling`).
//!
//! To read, in `specs/`: `Making`, `Asking`, `Telling`, `Law`; then `proofs/`.
#![tactic(auto)]

ghost use Rattle.law_together.specs.Law.{AskLaw, BlockLaw, MergeLaw, StepsLaw};

/// The law of merged entries. It does nothing; a caller learns the law.
pub fn merge_law()
    ensures { MergeLaw }
{}

/// The law of what actors asked. It does nothing; a caller learns the law.
pub fn ask_law()
    ensures { AskLaw }
{}

/// The law of blocks that are run. It does nothing; a caller learns the law.
pub fn block_law()
    ensures { BlockLaw }
{}

/// The law of right entries, their first and more behind them. It does nothing; a caller learns the law.
pub fn steps_law()
    ensures { StepsLaw }
{}
