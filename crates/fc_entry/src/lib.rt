//! Entries, the history that holds them in order of number, and their text.
//!
//! An entry is one atomic step: what was asked by whom, what was answered, and what it cost. The history only
//! grows. Beside them, in `specs/`, stand the definitions of what histories hold: what plain volumes hold after an
//! entry (`Picture`, `PlainStep`), what a read may answer (`Reads`), the calls of a write (`Writes`), what a new
//! volume is (`Volumes`), refusals (`Refused`), the lines of a session's bytes (`Lines`), and how an entry is printed
//! (`Text`). When a history is legal is said in fc_legal.
//!
//! `put_line`, `put_entry`, `put_entries`, `put_history` and `put_command` write exactly that text to a sink, without memory; where a call of
//! the sink fails, a front of the text was written, and they answer so (`Written`).
//!
//! In reading order: `entry`, `history`, `stop` (why a line isn't answered to its end); then `text` and what it puts,
//! `request_text`, `command_text`, `reply_text`, `refusal_text`, all over `parts` and `phrase`.
#![tactic(auto)]

pub mod command_text;
pub mod entry;
pub mod history;
pub mod parts;
pub mod phrase;
pub mod refusal_text;
pub mod reply_text;
pub mod request_text;
pub mod stop;
pub mod text;
