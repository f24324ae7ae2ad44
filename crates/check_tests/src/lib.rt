//! Verdicts on traces that were worked out by hand, and on spoiled ones.
#![tactic(auto)]

#[cfg(test)]
mod tests;
