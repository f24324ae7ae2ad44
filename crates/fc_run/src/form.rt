//! In which form a session writes its history.

use fc_trace::header::Header;

/// What a session writes of its history.
#[derive(Clone, Copy, PartialEq, Eq)]
pub enum Form {
    /// All of it: each entry, and the rows of reports.
    Text,
    /// All of it as a trace: a first line that says what the store was made of, and of each entry all that it did.
    Trace(Header),
    /// Its summary, in one line.
    Summary,
}
