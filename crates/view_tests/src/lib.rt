//! Drawings of traces that were worked out by hand.
#![tactic(auto)]

#[cfg(test)]
mod tests;
