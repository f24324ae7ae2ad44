//! Lists of two actors, merged: what no clause says of it is that memory suffices and that the code runs.
#![tactic(auto)]

#[cfg(test)]
mod tests;
