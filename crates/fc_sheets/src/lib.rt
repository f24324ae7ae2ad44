//! The law of sheets: what holds of every sheet of chains that is reached.
//!
//! The sheet has the slots of all chains of copies, and for each the grains that it holds (`fc_base`,
//! `specs/Sheet`). Commands change it by events, copies and writes by pairs (`specs/SheetStep`). The
//! law says that the facts that all else rests on (`specs/SheetFacts`) hold with no volumes, and that
//! every event, move, write and torn write that fits (`specs/SheetFits`) keeps them: births name slots,
//! each volume has one live slot, each live slot has a holder at every grain, sizes agree, and the
//! restore graph has no loop.
//!
//! To read: `specs/Law`, what is said; then `proofs/`: `Places` (what stands where after a slot is taken
//! out or put in), `Removing`, `Aging`, `Splitting` (one change of the list), `Finding`, `Steps` (changes that
//! leave something under way), `Events`, `Forcing`, `Starting` (the events), `Holding` (pairs), `Columns` (pairs
//! seen at one grain), `Lawful`.
#![tactic(auto)]

ghost use Rattle.fc_sheets.specs.Law.{SheetLaw};

/// The law. It does nothing; a caller learns the law.
pub fn sheet_law()
    ensures { SheetLaw }
{}
