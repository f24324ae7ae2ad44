//! The words of the program: what they ask for, read by `clap`.
//!
//! `read_words` answers what the words ask for, for all lists of words: a run with its options, a drill of a number, and
//! nothing where they aren't in the grammar (`asked_by` in `specs/Grammar`, which names nothing of `clap`'s). The table of
//! commands and options is `table`: a line of help each, and which of them are built. What isn't built yet isn't in the
//! grammar yet.
//!
//! In reading order: `asked` (what words ask for), `table`, `program` (the program's commands as `clap` has them), `found`
//! (what is read off the matches), `reading`, `help` (the help that `clap` makes of the table).
#![tactic(auto)]

pub mod asked;
pub mod found;
pub mod help;
mod program;
pub mod reading;
pub mod table;
