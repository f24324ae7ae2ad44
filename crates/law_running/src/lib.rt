//! The law of a block that is run: what its actors leave, from the faults of which `main` was told to the store put together again.
//!
//! The parts of a store led by the actors' entries to parts that make a store again, and the entries stand in the history by
//! number (`fc_yard`, `fc_merge`). The law says that the entries are then right, and the actors' own; that the store stands for
//! what is told; and that with the faults before them they answer the block.
//!
//! To read, in `specs/`: `Running` (what a run leaves), `Law`; then `proofs/`.
#![tactic(auto)]

ghost use Rattle.law_running.specs.Law.{RunLaw};

/// The law of a block that is run. It does nothing; a caller learns the law.
pub fn run_law()
    ensures { RunLaw }
{}
