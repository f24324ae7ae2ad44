//! A plain list of slots, and the questions to it: what stands at a place, where slots stand, who holds a grain and for whom,
//! what must move before a grain is overwritten, who needs and who depends on a slot.
//!
//! A list is seen as the slots of a sheet (`fc_base`, `specs/Sheet`), and each call is its definition there, word for word, for
//! any list. What changes a sheet stands in `fc_model`, over these. It is made to be seen through and not to be fast: it
//! looks at every slot for each answer, and takes memory for most. A call that takes memory is refused for want of it alone.
//!
//! To read: `slot` (one slot), `places` (what stands at a place), `find` (where slots stand), `column` (one grain), `moves`,
//! `need`.
#![tactic(auto)]

pub mod column;
pub mod find;
pub mod moves;
pub mod need;
pub mod places;
mod search;
pub mod slot;
