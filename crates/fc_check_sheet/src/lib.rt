//! What decisions on commands ask of chains, as a judge of printed histories answers it: from a plain list of
//! slots, marks of grains and counts of disks.
//!
//! `PlainView` is a `Sheet` (`fc_base`, `sheet`) over a `PlainSheet` of all grains, the `Rows` of incremental
//! mappings, the disks that each lane has for new volumes, and the `Rooms` of volumes; it is seen as the
//! `SheetView` of them. Its code goes over slots and grains one by one, and shares none with the chains that
//! decide commands in a store.
//!
//! To read: `counts` and `kept` (what one slot holds), `readers` and `owners` (who reads from it), `unneeded`,
//! `links`, `distances` and `loops` (the loop that a start is refused for), `pool`, and `view`, which has the
//! answers.
#![tactic(auto)]

mod counts;
mod distances;
mod kept;
mod links;
mod loops;
mod owners;
mod pool;
mod readers;
mod unneeded;
mod view;

pub use pool::LanePool;
pub use view::PlainView;
