//! What the parts of a store stand for together while several actors hold them, and the law that each entry keeps it.
//!
//! A store that actors work on is taken apart: the control part, and the lanes. Each has its share of one situation, the grain
//! size and what the history tells. Whoever holds a lane makes an entry of it, whoever holds all parts makes that of a command,
//! and each entry leads from one situation to the next, in which all parts have their shares again, whatever entries of other
//! lanes came before it.
//!
//! To read, in `specs/`: `Situation` (the situation, and each part's share of it), `Law` (how entries lead on, and that what an
//! actor is to ask doesn't go by them); then `proofs/`.
#![tactic(auto)]

ghost use Rattle.fc_shares.specs.Law.{ShareLaw};

/// The law of shares. It does nothing; a caller learns the law.
pub fn share_law()
    ensures { ShareLaw }
{}
