//! One way that all may have been told after the entries so far, as a judge of printed histories keeps it.
//!
//! A `Record` is seen as `Judged`: the grain size and the `Whole` of `fc_legal`, `specs/Whole`, with no names.
//! It has the tables, next ids and flags of a `Control` of `fc_desk`; what `Known` of `fc_check_lane` keeps for
//! entries of lanes; `Rows` of `fc_check_rows`; `Rooms` of `fc_check_rooms`; and for each lane the disks left
//! and the calls made. There is no chain, bitmap, lane or store of what makes entries.
//!
//! `is_next` answers whether an entry of a lane may come next, and `after_lane` is what is told after it.
//! `settle` and `decide` are what the books decide, `leave` is what a decision leaves. `refused_access` is why
//! a line `read` or `write` is refused, and `refused_preset` why a line `mkpreset` is. `grain_size`, `registry`,
//! `flags`, `lanes` and `next_grain` say what was told, as far as it decides what is asked next. What they
//! answer is exact. Want of memory is free, and nothing else is refused: the calls ask that grains have numbers
//! below 2^32 (`IsSmall` of `fc_check_sheet`) and that births stay below 2^64 (`CanBeLeft`), as they do after
//! entries that are right. A call that changes the record takes it and gives it back, so that one that was
//! refused memory is gone.
//!
//! To read: `record` (the record, the first one, and copies of it), `told` (what was told), `lane` (entries of
//! lanes), `access` (refused accesses and presets), `decide` (decisions), `chains`, `pools` and `tables` (what a
//! decision does to each part), and `leave`, which does it.
#![tactic(auto)]

mod access;
mod chains;
mod decide;
mod lane;
mod leave;
mod pools;
mod record;
mod tables;
mod told;

pub use fc_check_sheet::LanePool;
pub use record::Record;
