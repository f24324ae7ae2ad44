//! What a line still asks, request by request, as a value.
//!
//! A store that answers a line by itself makes one entry after the other. Whoever makes each entry in another way, or does something
//! between them, takes the line's `Script`: it says what is asked next, and goes on by the entry that was made. What passes without an
//! entry, as a second in which no work has credit for a grain, is gone through on the way. A preset asks the lines that stand in its
//! place (`fc_preset_lines`), each by what the one before it was answered.
//!
//! `script` has the scripts of lines, `passage` the seconds behind an `advance`, and `asking` what is asked next. `specs/Script` says
//! which agenda a script is.
#![tactic(auto)]

pub mod asking;
pub mod passage;
pub mod script;
