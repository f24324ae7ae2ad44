//! A lane over disks in memory: its code runs, its entries are those that the rules say, and its volumes take
//! the room that their writes reach.
#![tactic(auto)]

#[cfg(test)]
mod lanes;
#[cfg(test)]
mod room;
#[cfg(test)]
mod tests;
