//! The law of completeness: where no disk failed, every access of a volume that is online is answered with its bytes, or done, or
//! wants memory.
//!
//! What an entry may answer is a relation (`fc_legal`), which leaves room for disk faults and, where a failed write has spoiled a
//! grain, for medium errors. The law says that no entry comes to these for another reason: where the disks of no lane count a fault
//! at the end of a session, no entry of it answers a disk fault or a medium error, none tore a grain, and no grain of any volume
//! is lost. Reads and writes of volumes that are online then give bytes, or are done; for want of memory alone they aren't.
//!
//! To read: `specs/Served` and `specs/Law`; then `proofs/`. `Faults` (no count rose before the end), `Pictures` (nothing is lost
//! by what entries do), `Contents` (a block of a volume has a content) and `Answers` (what an access or a worker's turn answers);
//! `Standing` (what stood still stands) and `Histories` (a legal history, entry by entry); and `Complete` all together.
#![tactic(auto)]

ghost use Rattle.fc_complete.specs.Law.{CompletionLaw};

/// The law of completeness. It does nothing; a caller learns the law.
pub fn completion_law()
    ensures { CompletionLaw }
{}
