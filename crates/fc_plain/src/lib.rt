//! Plain volumes: whole volumes as lists of grains, copied whole at a trigger.
//!
//! A `Plain` is seen as the picture of `fc_entry`, `specs/Picture`. `apply` is the plain step of an entry
//! (`fc_entry`, `specs/PlainStep`), done whole or not at all, for any entry; `read` answers what a volume holds at the named
//! blocks (`specs/Reading`). There are no chains, bitmaps or disks here, so tests compare the reads of the
//! store with it. A write costs one grain, a command that changes a volume the copying of all volumes.
//!
//! To read: `grain` (one grain), `volume` (one volume), `change` (writes and torn grains), `effect`
//! (commands), `reading`, and `plain`, which has the calls.
#![tactic(auto)]

mod change;
mod effect;
mod grain;
mod plain;
mod reading;
mod volume;

pub use change::grain_at;
pub use effect::{is_kept, source_of};
pub use plain::Plain;
pub use reading::PlainRead;
