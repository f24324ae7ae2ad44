//! Histories told by hand, right ones and wrong ones, and what is judged of them.
//!
//! `told` tells a history step by step; `tests` have it judged.
#![tactic(auto)]

#[cfg(test)]
mod tests;
#[cfg(test)]
mod told;
