//! Stories of chains of copies, told over plain sheets of slots: what moves, in which order, and where each
//! volume is read at last. The expected moves and holders are worked out by hand from the rules of copies, so
//! these show that the definitions say what the rules say.
#![tactic(auto)]

#[cfg(test)]
mod stories;
#[cfg(test)]
mod story;
