//! The exit status of each way in which a view may end.

ghost use Rattle.std.specs.Prelude.{◌≡◌};
ghost use Rattle.fcview.specs.Codes.{code_of};

use fc_drawing::drawing::Seen;
use fc_view::stop::ViewStop;

/// The exit status where the words aren't in the grammar.
pub const USAGE: u8 = 2;

/// The exit status where memory is wanted.
pub const NO_MEMORY: u8 = 5;

/// The exit status of a view that ended so.
pub fn code_of(ended: Result<Seen, ViewStop>) -> u8
    ensures { result ≡ code_of ended }
{
    match ended {
        Ok(Seen::Right(_)) => 0,
        Ok(Seen::Wrong(_) | Seen::Malformed(_)) => 9,
        Err(ViewStop::ReadFault) => 3,
        Err(ViewStop::WriteFault) => 4,
        Err(ViewStop::NoMemory) => NO_MEMORY,
        Err(ViewStop::LogFull) => 6,
        Err(ViewStop::TooLong) => 7,
    }
}
