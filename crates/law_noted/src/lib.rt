//! How far the actions of an entry came that is made step by step, and what a stop finds then.
#![tactic(auto)]

ghost use Rattle.law_noted.specs.Advancing.{AdvanceLaw};
ghost use Rattle.law_noted.specs.DataSteps.{DataLaw};
ghost use Rattle.law_noted.specs.Going.{GoingLaw};

/// The law of records and marks: how an entry that is under way goes on by them, what a stop finds of it, and how it ends. It does
/// nothing; a caller learns the law.
pub fn advance_law()
    ensures { AdvanceLaw }
{}

/// The law of steps of data: what one of them does to the disks. It does nothing; a caller learns the law.
pub fn data_law()
    ensures { DataLaw }
{}

/// The law of an entry in hand: how it goes on without data, what a stop finds of it, and how it ends. It does nothing; a caller learns
/// the law.
pub fn going_law()
    ensures { GoingLaw }
{}
