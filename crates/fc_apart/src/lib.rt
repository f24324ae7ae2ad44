//! What the steps of a store do beside its lanes and its control part.
//!
//! In reading order: `apart` (an entry that no lane makes), `log` (an entry at the end of a history), `effects` (the effects of a
//! settling and of what is decided after it in one list, `specs/Effects`).
#![tactic(auto)]

pub mod apart;
pub mod effects;
pub mod log;
