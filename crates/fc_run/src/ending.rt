//! How a session ended.

ghost use Rattle.std.specs.Prelude.{◌≡◌, is_err};
ghost use Rattle.fc_run.specs.ReadTo.{ended_for, written_or};

use crate::ended::Ended;
use crate::reading::Ending;
use fc_base::outcome::Failed;
use fc_entry::stop::Stop;

/// How a session ended of which reading ended so, its text written or not.
pub fn ended_by(ending: Ending, written: &Result<(), Failed>) -> Ended
    ensures { result ≡ ended_for ending (is_err written.now) }
{
    match ending {
        Ending::End => written_or(Ended::Done, written),
        Ending::Unended => written_or(Ended::Unended, written),
        Ending::ReadFault => written_or(Ended::ReadFault, written),
        Ending::TooLong => written_or(Ended::TooLong, written),
        Ending::WriteFault => Ended::WriteFault,
        Ending::Stopped(Stop::LogFull) => written_or(Ended::LogFull, written),
        Ending::Stopped(Stop::NoMemory) => Ended::NoMemory,
    }
}

/// How the session ended, or that its text wasn't written.
fn written_or(ended: Ended, written: &Result<(), Failed>) -> Ended
    ensures { result ≡ written_or ended (is_err written.now) }
{
    if written.is_err() {
        Ended::WriteFault
    } else {
        ended
    }
}
