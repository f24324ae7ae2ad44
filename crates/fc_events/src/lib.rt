//! The table of slots, and what the events of commands do to it.
//!
//! A `SlotTable` is seen as the lane's sheet of slots (`fc_base`, `specs/Sheet`), with room for more slots and the widest that
//! they can be (`specs/Table`). `make_room` alone takes memory: `step` then does one event after the other, as `fc_base`,
//! `specs/SheetStep` says, and takes none. `take`, `keep` and `lose` change the pairs of one volume, at the places that are
//! listed for it.
//!
//! To read: `hold` (pairs that a volume's slots get and lose), `table`, `room` (how many slots the events of a command can make,
//! and of how many grains) and `events`. The words are in `specs/`: `Table`, `Room` and `LaneGrains`. That events keep the slots
//! of each chain together is in `proofs/Together`, that births only rise in `proofs/Rising`.
#![tactic(auto)]

pub mod events;
mod hold;
pub mod room;
pub mod table;
