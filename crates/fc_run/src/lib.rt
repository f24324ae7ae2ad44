//! Running a session: from the bytes of its lines to the bytes of its history.
//!
//! `run_session` (in `session`) reads a source to its end, has each line answered, keeps the history and writes it to a
//! sink in some form (`form`): the text of each answer before more input is taken, or a summary in one line at the end.
//! It knows who answers by the trait `Answers` alone (in `answers`), and of a history that it only grows and can be put.
//! Its contract holds for every source, sink and answerer, failing ones included: by the way the session ended (`ended`)
//! it is known which bytes were taken, which of their lines are answered, and what the sink got. What is said of whoever
//! answers is in `specs/Runs`, which bytes and lines count in `specs/Input`, what each way to end says in
//! `specs/Headline`, what a summary says in `specs/Summary`, which calls of the source are made in `specs/Takes`.
//!
//! In reading order: `ended`, `form`, `answers` (who answers a line), `lines` (from bytes to lines), `summary`, `output`
//! (what is written when), `reading`, `ending`, `session`.
#![tactic(auto)]

pub mod answers;
pub mod ended;
mod ending;
pub mod form;
mod lines;
mod output;
mod reading;
pub mod session;
mod summary;
