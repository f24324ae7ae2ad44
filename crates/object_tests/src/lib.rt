//! The tables of objects and the states of groups, against answers written by hand. What the calls do is proved; that memory
//! suffices and that the code runs is shown here.
//!
//! Inside, `fits` says whether a change may be made.
#![tactic(auto)]

#[cfg(test)]
mod fits;
#[cfg(test)]
mod groups;
#[cfg(test)]
mod registry;
