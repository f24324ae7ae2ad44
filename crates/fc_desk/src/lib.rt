//! The control part: what all decisions stand on.
//!
//! A `Control` has the tables of volumes, mappings and groups, the ids that come next, and which mappings have
//! background work. It never changes a chain: a decision says what the lanes are to do. Want of memory alone is free,
//! and changes nothing.
//!
//! `settle` is what every command does first, `conclude` and `refuse` end a decision. `reserve` takes all the memory that
//! `apply` of a decision will need; `apply` makes of the tables, the next ids and the flags what the books say, and takes
//! no memory.
//!
//! In reading order: `draft` (a decision as it is put together), `ending` (how the copy of a mapping ends), `control`,
//! `copy` (copies of it), `copies` (what is asked of the copy of a mapping), `settle`, `flags` (the flags in order of id),
//! `background` (background work), `conclude`, `name` (names of new objects), `groups` (members of a group), `apply` (what a
//! decision makes of the control part).
#![tactic(auto)]

mod apply;
mod background;
mod conclude;
mod control;
mod copies;
mod copy;
mod draft;
mod ending;
mod flags;
mod groups;
mod name;
mod settle;

pub use background::{has_cleans, has_copies, tell_flags};
pub use control::Control;
pub use copies::is_used;
pub use draft::Draft;
pub use ending::{come_to, copy_mapping, end_in, in_state, is_active};
pub use groups::{count_members, has_active, has_member};
pub use name::name_or;
