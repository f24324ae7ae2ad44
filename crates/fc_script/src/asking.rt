//! What is asked next.

use fc_base::command::Command;
use fc_base::fault::Refusal;
use fc_base::ids::{GrainNo, MapId, VolId};
use fc_base::request::Request;
use fc_lanes::access::Access;

/// What is asked next of a line, by `main`.
#[derive(Drop)]
pub enum Asked {
    /// A command, which the control part decides.
    Command(Command),
    /// A refused access or preset or an unread line: this request, refused for this. It is logged, and nothing is done.
    Refused(Request, Refusal),
    /// An access of so many blocks of a volume from this one on, in this one of the grains that they touch.
    Part {
        access: Access,
        volume: VolId,
        block: u32,
        count: u32,
        grain: u32,
    },
    /// This grain of a mapping is copied in the background; or it is cleaned.
    Fill {
        map: MapId,
        cleans: bool,
        grain: GrainNo,
    },
}
