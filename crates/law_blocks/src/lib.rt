//! The law of blocks: what holds of every block that is read, whatever the lines are.
//!
//! Blocks are cut out of a session's lines (`fc_blocks`). The law says that in each of them no two actors have one name and none
//! is `main`, that there are no more actors than a block may have, that a copier or cleaner has no lines, and that every line of
//! an actor was read where the actor's lines stand.
//!
//! To read: `specs/Law`, what is said; then `proofs/`: `Actors`, and `BlockExamples`, the definitions on closed examples.
#![tactic(auto)]

ghost use Rattle.law_blocks.specs.Law.{BlocksLaw};

/// The law of blocks. It does nothing; a caller learns the law.
pub fn blocks_law()
    ensures { BlocksLaw }
{}
