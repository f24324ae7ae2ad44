//! How a call of the program ends.

ghost use Rattle.std.specs.Prelude.{◌≡◌};
ghost use Rattle.fc_call.specs.Call.{status_of};
ghost use Rattle.fc_call.specs.Codes.{code_of};

use fc_run::ended::Ended;

/// How a call ended (docs/MANUAL.md, "Statuses").
#[derive(Clone, Copy, PartialEq, Eq)]
pub enum Status {
    /// The input was read to its end and every line was answered. No block is open.
    Done,
    /// The words aren't in the grammar. Nothing was read or written.
    Usage,
    /// The source failed. The lines that had ended were answered.
    ReadFault,
    /// The sink failed. It holds a front of the text.
    WriteFault,
    /// Memory was wanted and not had.
    NoMemory,
    /// One more entry would pass 262,144.
    LogFull,
    /// The input has more than 67,108,864 bytes. The lines that ended before were answered.
    TooLong,
    /// The input was read to its end inside a block, which wasn't run. Every line before it was answered.
    Unended,
    /// The trace that was checked isn't that of a legal history, or the input is no trace. The line of the verdict was written.
    Refuted,
}

impl Status {
    /// The exit status of the program: 0, or 2 to 9.
    pub fn code(self) -> u8
        ensures { result ≡ code_of self }
    {
        match self {
            Status::Done => 0,
            Status::Usage => 2,
            Status::ReadFault => 3,
            Status::WriteFault => 4,
            Status::NoMemory => 5,
            Status::LogFull => 6,
            Status::TooLong => 7,
            Status::Unended => 8,
            Status::Refuted => 9,
        }
    }

    /// The status of a call whose session ended so.
    pub fn of(ended: Ended) -> Self
        ensures { result ≡ status_of ended }
    {
        match ended {
            Ended::Done => Status::Done,
            Ended::Unended => Status::Unended,
            Ended::ReadFault => Status::ReadFault,
            Ended::TooLong => Status::TooLong,
            Ended::LogFull => Status::LogFull,
            Ended::WriteFault => Status::WriteFault,
            Ended::NoMemory => Status::NoMemory,
        }
    }
}
