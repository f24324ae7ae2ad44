//! Entries, commands and a whole history, printed: what no clause says of them is that memory suffices and that the code runs.
#![tactic(auto)]

#[cfg(test)]
mod tests;
