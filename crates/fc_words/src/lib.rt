//! The line grammar: a line of a session, read by its exact rule.
//!
//! `read_line` answers the line, or its first fault with the number of the word where it stands; which of
//! them, `line_of` in `specs/Lines` says, and nothing is left open but want of memory. No memory is taken but
//! for names. Reading the canonical line of a command (`command_text` of fc_base) gives the command again.
//!
//! The grammar is one table, `grammar`: how each line and option is spelled, which scopes have the line, and
//! its options and operands in canonical order. `words` parts a line into words in place, `values` reads one
//! word, `given` keeps what the words so far have given, `reader` walks over the words from the left, and
//! `complete` makes the line of all of them or tells what is missing.
//!
//! In reading order: `refused`, `words`, `grammar`, `values`, `given`, `reader`, `complete`, `line`; and the
//! definitions in `specs/`: `Words`, `Grammar`, `Values`, `Given`, `Lines`.
#![tactic(auto)]

mod complete;
pub mod given;
pub mod grammar;
pub mod line;
mod reader;
pub mod refused;
pub mod values;
mod words;
