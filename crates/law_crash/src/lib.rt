//! The law of stops: what a stop finds at any moment of an entry may be recovered.
//!
//! `fc_kept` says what metadata says, what an entry does action by action, and what may be recovered after a stop. Here the actions
//! are done to what stands on the disks of metadata and of data (`specs/Points`, `specs/Doing`), by whoever does them: no code is
//! spoken of. Whatever a stop finds, in an action or between two, may be recovered. Behind all of them, the disks stand for what
//! the history leads to with the entry, so that the next one may begin there. What a command leaves, with metadata made anew, stands
//! for it too. So a whole history stands, entry by entry, and wherever a stop falls, what it finds may be recovered. Each history of
//! right entries can be done so.
//!
//! To read, in `specs/`: `Points` (what stands on the disks, and when they stand for a history), `Doing` (what actions do to them,
//! and what a stop finds), `Leaving` (what a command leaves of metadata), `Running` (a whole history, and a stop in its next entry),
//! `Costs` (how many calls of its disk metadata costs), `Law`; then `proofs/`.
#![tactic(auto)]

ghost use Rattle.law_crash.specs.Law.{CrashLaw};

/// The law of stops. It does nothing; a caller learns the law.
pub fn crash_law()
    ensures { CrashLaw }
{}
