//! The chains of a lane against the plain sheet of the same slots: generated events, copies, writes and torn writes give the
//! same moves in both, and the same slots and holders after each step.
//!
//! Both are proved to do what the definitions say; here their code runs, and a step that doesn't fit (`chain_steps`) is
//! passed over.
#![tactic(auto)]

#[cfg(test)]
mod beside;
#[cfg(test)]
mod commands;
#[cfg(test)]
mod list;
#[cfg(test)]
mod mended;
#[cfg(test)]
mod tests;
#[cfg(test)]
mod worked;
