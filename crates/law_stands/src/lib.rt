//! Laws of standing: what holds of all that right entries lead to.
//!
//! Whoever follows a history entry by entry (`fc_legal`) relies on what stands after each. These laws say that it stands before
//! the first entry and after every right one, that names of actors count for nothing there, what a right entry may leave by its
//! place and its reply, and what the control part (`fc_desk`, `fc_starts`) may rely on where it decides commands and does what is
//! decided. They follow from the laws of parts (`fc_parts`) and of decisions (`fc_decided`), and speak of no lane's code.
//!
//! To read: `specs/Reached`, `Names`, `Commands` and `Deciders`, what is said; then `proofs/`: `Counted` (what every entry changes
//! by one rule), `Few` (few grains, through every decision), `Places` (what an entry left, by its place), `Adding` (one object at
//! most comes of a decision), `Counting` (its id), `Room` (grains of slots and of restart sets); and the laws, in `Standing`,
//! `Naming`, `Leaving` and `Deciding`.
#![tactic(auto)]

ghost use Rattle.law_stands.specs.Commands.{CommandsLaw};
ghost use Rattle.law_stands.specs.Deciders.{DecidersLaw};
ghost use Rattle.law_stands.specs.Names.{NamesLaw};
ghost use Rattle.law_stands.specs.Reached.{StandsLaw};

/// The law of standing. It does nothing; a caller learns the law.
pub fn stands_law()
    ensures { StandsLaw }
{}

/// The law of names. It does nothing; a caller learns the law.
pub fn names_law()
    ensures { NamesLaw }
{}

/// The law of commands. It does nothing; a caller learns the law.
pub fn commands_law()
    ensures { CommandsLaw }
{}

/// The law of deciders. It does nothing; a caller learns the law.
pub fn deciders_law()
    ensures { DecidersLaw }
{}
