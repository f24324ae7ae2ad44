//! The request that was asked, by its reply.

ghost use Rattle.std.specs.Prelude.{◌≡◌};
ghost use Rattle.fc_reading_requests.specs.Answered.{is_refused, read_of, request_of, unread_of, write_of};

use crate::asked::Asked;
use crate::parts::MOST;
use fc_base::command::Command;
use fc_base::fault::Refusal;
use fc_base::ids::VolId;
use fc_base::name::Ref;
use fc_base::request::{ReadPart, Reply, Request, WritePart};

/// Whether the request was refused.
fn is_refused(reply: &Reply) -> bool
    ensures { result ≡ is_refused reply.now }
{
    matches!(reply, Reply::Refused(_))
}

/// The line with the fault that the reply tells. None where it tells none.
fn unread(reply: &Reply) -> Option<Request>
    ensures { result ≡ unread_of reply.now }
{
    match reply {
        Reply::Refused(Refusal::Words(fault)) => Some(Request::Unread(*fault)),
        _ => None,
    }
}

/// The line that reads where it was refused, else the host's access. None where no line names such a block, or
/// no host such a volume.
fn read(refused: bool, volume: Ref, block: u64, count: u32) -> Option<Request>
    ensures { result ≡ read_of refused volume block count }
{
    if refused {
        if block > MOST {
            return None;
        }
        let block = block as u32;
        return Some(Request::Command(Command::Read {
            volume,
            block,
            count,
        }));
    }
    match volume {
        Ref::Id(id) => Some(Request::Read(ReadPart {
            volume: VolId(id),
            block,
            count,
        })),
        Ref::Name(_) => None,
    }
}

/// The line that writes where it was refused, else the host's access. None where no line names such a block, or
/// no host such a volume.
fn write(refused: bool, volume: Ref, block: u64, count: u32, byte: u8) -> Option<Request>
    ensures { result ≡ write_of refused volume block count byte }
{
    if refused {
        if block > MOST {
            return None;
        }
        let block = block as u32;
        return Some(Request::Command(Command::Write {
            volume,
            block,
            count,
            byte,
        }));
    }
    match volume {
        Ref::Id(id) => Some(Request::Write(WritePart {
            volume: VolId(id),
            block,
            count,
            byte,
        })),
        Ref::Name(_) => None,
    }
}

impl Asked {
    /// The request that is asked so and answered so: a read or write that was refused is a line, another one a
    /// host's access, and the fault of a line with faulty words is what its reply tells. None where no request
    /// is asked and answered so.
    pub fn request(self, reply: &Reply) -> Option<Request>
        ensures { result ≡ request_of self reply.now }
    {
        match self {
            Asked::Unread => unread(reply),
            Asked::Read {
                volume,
                block,
                count,
            } => read(is_refused(reply), volume, block, count),
            Asked::Write {
                volume,
                block,
                count,
                byte,
            } => write(is_refused(reply), volume, block, count, byte),
            Asked::Copy { map, grain } => Some(Request::Copy { map, grain }),
            Asked::Clean { map, grain } => Some(Request::Clean { map, grain }),
            Asked::CopyTurn { lane } => Some(Request::CopyTurn { lane }),
            Asked::CleanTurn { lane } => Some(Request::CleanTurn { lane }),
            Asked::Command(command) => Some(Request::Command(command)),
        }
    }
}
