//! The top call: from the bytes of a session to the bytes of its history.
//!
//! `flashcopy` (in `flashcopy`) reads a session from a source, answers its lines over the disks, keeps the history and writes its
//! text to a sink; or it drills: the session is the generated one of a number, and the summary of its history is written; or it
//! checks a trace, alone or with a session, and writes the line of the verdict. Which of them, its words say, which `fc_args` reads.
//! Its contract is the main theorem (`specs/Theorem`): for every source, sink and set of fresh disks, failing ones included, the
//! history is legal; by the status it is known which bytes were taken, which of their lines are answered, and what the sink got; and
//! the disks come back with the sums of their calls and faults. It is one record over one record of the call (`fc_call`), with one
//! clause for each kind of call (`specs/Ends`, `specs/PlainEnds`, and of a check that of `fc_verdict`). Two more follow from it: where
//! nothing failed all is done and served, but for want of memory (`specs/Complete`), and then there is one outcome (`law_outcome`).
//!
//! A call may wait: the actors of a block run on threads, and one waits where another has the turn. The gate that a caller gives
//! may delay actors, and changes nothing of what a call promises.
//!
//! In reading order: `plain` (a session over disks), `traced` (in which form it is written), `drill`, `flashcopy`.
#![tactic(auto)]

mod drill;
pub mod flashcopy;
mod plain;
mod traced;

/// How a call ends.
pub use fc_call::status;
/// The gate that may delay the actors of a block.
pub use fc_tasks::gate;
