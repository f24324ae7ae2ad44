//! When entries are those of a block's actors, and the law of scripts: what a way through a block is, whatever the order of its
//! actors.
//!
//! Each actor of a block (`fc_blocks`) has a script, the requests that its lines ask (`fc_legal`), fixed by the books at the
//! block's start. Entries are those of the actors where, of each, its own in their order ask what its script asks, and nobody
//! else asks anything. The law says that a history goes through a block exactly by right entries that are all those of its
//! actors, into it by a first part of them, and to one more request by a part that wants one more: the order of actors among
//! each other is free. The scripts of every block that is read are of different actors, none of them `main`. Books with the same
//! volumes give the same scripts; so, since no line of an actor makes or removes a volume (`law_volumes`), a script stays what it
//! was.
//!
//! To read, in `specs/`: `Actors` (when entries are those of actors, a first part of them, and when they want one more), `Ways`
//! (how a history goes through a block), `Law`; then `proofs/`.
#![tactic(auto)]

ghost use Rattle.fc_scripts.specs.Law.{ScriptsLaw};

/// The law of scripts. It does nothing; a caller learns the law.
pub fn scripts_law()
    ensures { ScriptsLaw }
{}
