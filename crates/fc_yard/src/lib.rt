//! The yard: where threads meet, and nowhere else.
//!
//! A yard keeps parts of something that several actors work on. An actor has a `Pass`. With it the actor takes a part,
//! which nobody else can then take, works on it, is given a number for what it did, and puts the part back. The yard knows
//! nothing of what the parts are: whoever keeps parts in it says by `Part` what they have to do with a whole that exists in
//! proofs alone, and with the entries that lead from one whole to the next.
//!
//! What is proved, whatever order the threads take:
//!
//! - Each number from the first on is drawn once, by one pass, up to the counter and without a gap.
//! - There is at every moment a whole to which the entries have led from the opening, in the order of their numbers. A part
//!   that nobody has, and a part that is held as its holder last told it, has its share of that whole. So has a part when it is
//!   taken.
//! - Where the yard is closed, the entries led from the opening to a whole of which the parts that come back have their shares.
//!
//! The number is drawn when the work is done. Before the work the actor is given a ticket, which is refused exactly where the
//! limit is reached; with a ticket a draw never fails.
//!
//! One round of an actor: `take`, `ticket` (and `put` where there is none), the work, `draw`, `put`. An entry over all parts:
//! every part taken, `ticket`, the work, `draw_all`, every part put back. Nothing says that a turn is ever had, in which
//! order actors come, or that two actors who wait for each other's parts get on: who takes several parts takes them in
//! rising order.
//!
//! To read: `specs/Whole.antt` (parts, entries and the whole; what a draw owes), `specs/Views.antt` (what a pass holds after each
//! call), `specs/Rule.antt` (what holds between any two steps), `specs/Calls.antt`. `proofs/Calling.antt` and `Crossing.antt` are
//! for callers; the steps are proved in `Turning`, `Counting` and `Sharing`.
#![tactic(auto)]

mod numbers;
mod opening;
pub mod part;
pub mod pass;
mod passes;
mod plays;
pub mod rule;
mod turns;
pub mod yard;
