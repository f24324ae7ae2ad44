//! What metadata says, and what may be recovered after a stop.
//!
//! The metadata of a store is all that must outlive a stop: the tables, the chains of copies, which grains changed and which are
//! lost. `fc_image` has it as plain data of words. Here it is one record over the chains and rows of the laws (`specs/Kept`), and
//! a stop at any moment is judged by it: over the disks as they are, it says a state that the history leads to, with the entry
//! under way, if there is one, or with its first moves (`specs/Recoverable`).
//!
//! To read: `specs/Kept` (all that metadata says, and what a record makes of it), `Images` (the image that says it), `Sound`,
//! `Drops` (old slots that nobody needs), `Marks` (grains that count as changed), `OneGrain` (the grain that a write of a disk
//! changes before metadata tells of it), `Prefix` (where the history may stand), `Disks`, `Actions` (what an entry does, action by
//! action), `Recoverable`; then `Law`, what is proved; then `proofs/`: the definitions on closed examples (`Examples`, `StopExamples`,
//! `FoldExamples`), and the law.
#![tactic(auto)]

ghost use Rattle.fc_kept.specs.Law.{KeptLaw};

/// The laws. It does nothing; a caller learns them.
pub fn kept_law()
    ensures { KeptLaw }
{}
