//! Tests of disks in memory.
#![tactic(auto)]

#[cfg(test)]
mod tests;
