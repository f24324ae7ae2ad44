//! What is judged of a history, and why one isn't right.

use fc_base::outcome::NoMemory;

/// What is judged of a history.
#[derive(Clone, Copy, Debug, PartialEq, Eq)]
pub enum Verdict {
    /// Each entry is right, and every line and block is answered to its end.
    Right,
    /// Each entry is right, and more is asked behind the last: by the line or block with this number, counted from 0 over single lines and
    /// blocks that have ended.
    FirstPart { segment: usize },
    /// The entry with this number is the first that isn't right, or stands where one more should; and why.
    Wrong { entry: usize, why: Why },
}

/// Why an entry isn't right.
#[derive(Clone, Copy, Debug, PartialEq, Eq)]
pub enum Why {
    /// Nothing is asked any more.
    NothingAsked,
    /// Its number isn't its place in the history.
    Number,
    /// It is another's than `main`'s, or of nobody in the block who has something left to ask.
    Actor,
    /// It asks something else than comes next.
    Request,
    /// It was made under another turn than what it asks wants.
    Place,
    /// What it asks has no such reply.
    Reply,
    /// A made object has another id than the next.
    Id,
    /// It reads something else than plain volumes hold.
    Bytes,
    /// It writes a part of a grain that is lost.
    WriteOfLost,
    /// It answers a medium error, and the grain isn't lost, or is written whole.
    NotLost,
    /// It tells of a torn grain, and of no disk fault.
    Torn,
    /// It makes or removes something that its command doesn't, or doesn't what its command does.
    Effect,
    /// It triggers other pairs than those of the mappings that it starts, or not exactly once.
    Trigger,
    /// The actors of the history don't have the names that they should.
    Names,
}

impl Why {
    /// The same in words.
    pub fn text(self) -> &'static str {
        match self {
            Why::NothingAsked => "nothing is asked any more",
            Why::Number => "its number isn't its place",
            Why::Actor => "this actor asks nothing now",
            Why::Request => "it asks something else than comes next",
            Why::Place => "it was made under another turn",
            Why::Reply => "what it asks has no such reply",
            Why::Id => "the id isn't the next one",
            Why::Bytes => "plain volumes hold something else",
            Why::WriteOfLost => "a part of a lost grain is written",
            Why::NotLost => "a medium error without a lost grain",
            Why::Torn => "a torn grain without a disk fault",
            Why::Effect => "its effects aren't its command's",
            Why::Trigger => "it triggers something else than it starts",
            Why::Names => "the actors' names aren't those of the session",
        }
    }
}

/// Why the walk along a history ends before the session does.
#[derive(Clone, Copy, PartialEq, Eq)]
pub(crate) enum Halt {
    /// There are no more entries.
    Short,
    /// The entry at hand isn't right.
    Wrong(Why),
    /// Memory was wanted to judge, and not had.
    NoMemory,
}

impl From<NoMemory> for Halt {
    fn from(_: NoMemory) -> Halt {
        Halt::NoMemory
    }
}

impl From<Why> for Halt {
    fn from(why: Why) -> Halt {
        Halt::Wrong(why)
    }
}
