//! Blocks of actors, run together.
//!
//! `main` is told of a block's faults, and the names of its actors come (`fc_opening`); what each of
//! them asks is fixed then (`fc_prepare`). The store is taken apart, its parts lie in a yard
//! (`fc_yard`), and the actors do their scripts beside each other (`fc_tasks`, `fc_actors`). At the
//! end the store is put together, and what the actors were answered goes into the history by number
//! (`fc_merge`).
//!
//! To read: `block`, `running` (the scripts of all actors), `over` (scripts over a store), `rounds`
//! (scripts in a yard that is opened and closed), `answers` (what is told in the end); in `specs/`:
//! `Acted`, `Over`, `Prepared`, `Answers`.
#![tactic(auto)]

mod answers;
pub mod block;
mod over;
pub mod rounds;
mod running;
