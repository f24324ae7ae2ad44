//! What is said of a trace.

/// What a judge says of a trace, and of the session behind it, if there is one.
#[derive(Clone, Copy, Debug, PartialEq, Eq)]
pub enum Verdict {
    /// All its entries are right, so many; and with a session they are a whole run of its lines and blocks.
    Yes(u64),
    /// The entry with this number is the first that isn't right after those before it; or, with a session, the first that can't stand
    /// there in a run of its lines and blocks. The number of entries, where all can and a line remains.
    No(u64),
    /// The bytes are no trace, with or without a session: none goes on with the byte at this place, or the bytes end there too early.
    Malformed(u64),
}

/// Why nothing is said of a trace.
#[derive(Clone, Copy, Debug, PartialEq, Eq)]
pub enum CheckStop {
    /// A call of the source failed.
    ReadFault,
    /// Memory was wanted and not had.
    NoMemory,
    /// Something other than a session stands behind entry 262,144.
    LogFull,
    /// There are more than 67,108,864 bytes.
    TooLong,
}
