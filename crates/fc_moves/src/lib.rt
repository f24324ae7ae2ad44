//! The law of moves: what is copied before a grain is overwritten, and why it is safe.
//!
//! A physical grain of a volume may be the content of several copies. Before a host's write
//! overwrites it, or a background copy does, other volumes have to get theirs. What has to
//! move is said in two ways: step by step, each step judged on the chains as they are then
//! (`fc_base`, `specs/OneByOne`), and as one closed set with its order, on the chains as they were
//! before the first move (`fc_base`, `specs/Moves`). The law says that the two agree, that every
//! move finds its volume's grain free, and that after any of them, also after a write that failed in
//! the middle, every live volume shows what it did.
//!
//! The law speaks of one grain, since all moves of a write or a fill are of its grain. It holds
//! wherever each volume has at most one live slot and the restore graph has no loop.
//!
//! To read: `specs/Law`, what is said; then `proofs/`: `Search`, `Readers` and `Members` (plain
//! facts), `Prefixes` (what has been gained and lost after some moves), `Listing` (asking ends),
//! `Filling` and `Writing` (step by step is the list), `Shows` (contents), `Lists`, `Lawful`.
#![tactic(auto)]

ghost use Rattle.fc_moves.specs.Law.{MovesLaw};

/// The law, for a fill of any live slot that lacks the grain and for a write to any live
/// volume. It does nothing; a caller learns the law.
pub fn moves_law()
    ensures { MovesLaw }
{}
