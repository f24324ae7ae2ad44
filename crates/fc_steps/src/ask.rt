//! What is asked of the steps of an entry, and what is answered when they ended.

ghost use Rattle.std.specs.Prelude.{◌≡◌, ◌<◌, None};
ghost use Rattle.fc_steps.specs.Asking.{done_of, reply_in, request_of};
ghost use Rattle.fc_steps.specs.StepsEnd.{torn_in};

use crate::stop::Stop;
use fc_base::ids::{GrainNo, MapId};
use fc_base::request::{Reply, Request, Torn, WritePart};

/// What is asked of a lane's steps.
#[derive(Clone, Copy, PartialEq, Eq)]
pub enum Ask {
    /// A host writes blocks of one grain.
    Write(WritePart),
    /// A grain of a mapping is copied in the background.
    Copy { map: MapId, grain: GrainNo },
    /// A grain that others need from a mapping's target is handed on to them: the target is cleaned of it.
    Clean { map: MapId, grain: GrainNo },
}

/// The request of it, as an entry has it.
pub fn request_of(ask: Ask) -> Request
    ensures { result ≡ request_of ask }
{
    match ask {
        Ask::Write(part) => Request::Write(part),
        Ask::Copy { map, grain } => Request::Copy { map, grain },
        Ask::Clean { map, grain } => Request::Clean { map, grain },
    }
}

/// What is answered when steps ended so: that they are done, a disk fault, or want of memory of a thin disk.
pub fn reply_of(ask: Ask, stop: Option<Stop>) -> Reply
    ensures { result ≡ reply_in (done_of ask) stop }
{
    match stop {
        Some(Stop::Failed(_)) => Reply::DiskFault,
        Some(Stop::NoMemory) => Reply::NoMemory,
        None => match ask {
            Ask::Write(_) => Reply::Done,
            Ask::Copy { map, grain } => Reply::Moved { map, grain },
            Ask::Clean { map, grain } => Reply::Moved { map, grain },
        },
    }
}

/// The grain that a stop leaves torn: the one whose write failed. None where no write failed.
pub fn torn_of(stop: Option<Stop>) -> Option<Torn>
    ensures { result ≡ torn_in stop }
{
    match stop {
        Some(Stop::Failed(torn)) => torn,
        Some(Stop::NoMemory) => None,
        None => None,
    }
}
