//! Whether an entry did all steps of a write or a fill, or stopped at one of them.
//!
//! A judge of printed histories works out the steps that an entry owes, and asks here whether the entry's moves, calls and torn
//! grain are what these steps leave: `has_done`, `has_done_nothing`, `has_failed` and `has_no_memory` decide the definitions of
//! `fc_rules`, `specs/Steps`, both ways. Moves are compared one by one, with slot, volume, grain and mark, and calls are counted. It
//! takes any steps and any entry, and shares no code with what makes entries. A call that takes memory is refused for want of it
//! alone.
//!
//! To read: `volume` (how a volume may be reached, and whether its disks are thin), `step` (one step), `ends` (where an entry ended),
//! and `outcome`, which has the four.
#![tactic(auto)]

mod ends;
mod outcome;
mod step;
mod volume;

pub use outcome::{has_done, has_done_nothing, has_failed, has_no_memory, has_risen};
pub use step::Step;
pub use volume::{LaneVolume, access_of, is_thin};
