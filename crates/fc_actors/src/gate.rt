//! A gate that may delay the actors of a block.

pub use fc_tasks::gate::{FreeGate, Gate, Moment};
