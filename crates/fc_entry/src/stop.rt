//! Why a line isn't answered to its end.

/// Why a line isn't answered to its end.
#[derive(Clone, Copy, Debug, PartialEq, Eq)]
pub enum Stop {
    /// One more entry would pass 262,144.
    LogFull,
    /// Memory was wanted for an entry of the history and not had.
    NoMemory,
}
