//! Under whose turns an entry is made.

use fc_base::command::Command;
use fc_base::limits::LANES;
use fc_base::request::{Place, Request};
use fc_base::size::GrainSize;

/// The turn of the lane that has a grain.
fn lane_of(grain: u64) -> Place {
    Place::Lane(u8::try_from(grain % u64::from(LANES)).unwrap_or(u8::MAX))
}

/// The turn of the lane that has the grain of a block.
fn lane_of_block(size: GrainSize, block: u64) -> Place {
    lane_of(block.checked_div(u64::from(size.blocks())).unwrap_or(0))
}

/// Under whose turns a request is answered: that of its grain's lane or of the worker's; all turns for a command; and that of the
/// control part for an access or a preset that is refused, or a line that couldn't be read.
pub(crate) fn place_of(size: GrainSize, request: &Request) -> Place {
    match request {
        Request::Command(Command::Read { .. } | Command::Write { .. } | Command::Mkpreset { .. })
        | Request::Unread(_) => Place::Control,
        Request::Command(_) => Place::Every,
        Request::Read(part) => lane_of_block(size, part.block),
        Request::Write(part) => lane_of_block(size, part.block),
        Request::Copy { grain, .. } | Request::Clean { grain, .. } => lane_of(u64::from(grain.0)),
        Request::CopyTurn { lane } | Request::CleanTurn { lane } => Place::Lane(*lane),
    }
}
