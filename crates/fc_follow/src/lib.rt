//! What incremental mappings make of what lanes are told: which notes an event or an entry makes, and with which grains the
//! slot of a mapping that starts again begins. There is no code here.
//!
//! `fc_rules` says what a lane is told, `fc_changed` what is kept of changed grains. Here the two meet: a lane that follows
//! its incremental mappings is told both (`specs/Following`), and at its rows' grains both volumes of a mapping show the same
//! (`specs/Alike`).
#![tactic(auto)]
