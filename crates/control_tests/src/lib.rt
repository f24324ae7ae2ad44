//! The control part: names of new objects, a run that begins, and mappings that restore, against values written by hand.
#![tactic(auto)]

#[cfg(test)]
mod tests;
