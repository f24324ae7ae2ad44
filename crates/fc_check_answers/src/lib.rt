//! Whether the entries of a printed history answer just the lines of a session: for a judge that is given both.
//!
//! What is told after some entries isn't always one thing (`fc_check_follow`), and what a session asks next goes by what is told
//! (`fc_check_lines`). So `Answering` keeps all runs of the session of which the entries so far are the first: mostly one. A run is
//! a way in which things may have been told, with the lines that are left after it. Each stands for a place: what is told there, with
//! the session's names of actors, and what is still to be asked. `Answering::follow` goes on behind an entry, by the name of its actor;
//! then the places are just those that the entries lead to (`specs/Places`). Where none is left, the entry can't stand there in any run;
//! and where nothing is left to be asked at one of them, the entries are a whole run.
//!
//! In reading order: `telling` (what is asked of a way), `run` (one run and one entry), `answering` (all runs).
#![tactic(auto)]

mod answering;
mod run;
mod telling;

pub use answering::Answering;
