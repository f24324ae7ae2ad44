//! The one owner of a store, who has the lines of a session answered: single lines over the store, presets among them, and blocks by
//! whoever runs them.
//!
//! `owner` cuts the lines into single ones and blocks; `session` has a session run by the owner. What is said of the lines by the
//! history is in terms of what is legal alone (`specs/PlainRuns`): a run of the lines, from what is told before the first entry
//! (`specs/FirstTold`). How a block is run is a closure of whoever makes the owner, so no threads stand here.
#![tactic(auto)]

pub mod owner;
pub mod session;
