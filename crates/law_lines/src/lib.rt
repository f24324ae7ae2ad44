//! The law of lines: a line that the program prints is one that it reads, in every scope that has it.
//!
//! Commands are printed by their canonical lines (`fc_entry`), and lines are read in the scope where they stand (`fc_words`). The law
//! says that a line that is a command in one scope is the same command in every scope that has lines of the command's kind, and is
//! refused in the others by the scope's own fault. So it is with the canonical line of every command whose parts are in range.
//! `read_back` shows it on the two calls.
//!
//! To read: `specs/Law`, what is said; then `proofs/Scopes`.
#![tactic(auto)]

pub mod back;

ghost use Rattle.law_lines.specs.Law.{LinesLaw};

/// The law of lines. It does nothing; a caller learns the law.
pub fn lines_law()
    ensures { LinesLaw }
{}
