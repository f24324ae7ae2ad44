//! The law of one outcome: where nothing failed and no block is among them, the lines of a session determine its history.
//!
//! What an entry may answer is a relation (`fc_legal`): a disk may fail, and memory may be missing. The law says that nothing
//! else is left open. What is still to be asked, lines of a session, requests of one line or seconds that pass, is an agenda.
//! Two histories that answer the same agenda, which has no block of actors, over disks of the same kinds, and in which no entry
//! answers a disk fault or missing memory, have the same entries, but for the faults that their disks count, and tell the same at
//! their ends; so the text that is written of them is the same. One that ended early, since memory was missing or nothing more
//! could be written, has the first entries of the whole one; and two with the same number of entries, as where both histories
//! are full, have one outcome.
//!
//! To read: `specs/Smooth` and `specs/Law`; then `proofs/`. `Canonical` (the runs of equal bytes that a read answers) and `Loops`
//! (the loop of restores that a refusal tells) show that these are determined; then `Answers` (what an access answers),
//! `Commands` (what a command leaves), `Entries` (one entry and what is told after it) and `Agendas` (what is asked next, and
//! what is left to be asked); `Ways` (of two histories one goes on from where the other ended); and `Determined` all together.
#![tactic(auto)]

ghost use Rattle.fc_determined.specs.Law.{DeterminedLaw};

/// The law of one outcome. It does nothing; a caller learns the law.
pub fn determined_law()
    ensures { DeterminedLaw }
{}
