//! How a session ended.

/// How a session ended. What each says of the bytes, the lines and the text is in `specs/Headline`.
#[derive(Clone, Copy, PartialEq, Eq)]
pub enum Ended {
    /// The input was read to its end, every line was answered, nothing is open, and the text was written and sent on.
    Done,
    /// The input was read to its end inside something that it opened. All that ended was answered, and the text was written
    /// and sent on.
    Unended,
    /// The source failed. The lines that had ended were answered, and the text was written and sent on.
    ReadFault,
    /// The input has more than 67,108,864 bytes. The lines that ended before were answered, and the text was written and
    /// sent on.
    TooLong,
    /// One more entry would pass 262,144. The text was written and sent on.
    LogFull,
    /// The sink failed. It holds a front of the text.
    WriteFault,
    /// Memory was wanted and not had. The sink holds a front of the text.
    NoMemory,
}
