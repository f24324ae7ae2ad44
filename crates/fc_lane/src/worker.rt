//! The two kinds of background work on a grain of a mapping.

ghost use Rattle.std.specs.Prelude.{◌≡◌, ◌<◌};
ghost use Rattle.fc_lane.specs.Workers.{ask_of, turn_of};

use fc_base::ids::{GrainNo, MapId};
use fc_base::request::Request;
use fc_steps::ask::Ask;

/// Who works in the background.
#[derive(Clone, Copy)]
pub enum Worker {
    /// A copier: the mapping's slot gets its own copy of a grain that it lacks.
    Copier,
    /// A cleaner: a grain of the mapping's slot is handed on to the slot that needs it.
    Cleaner,
}

/// What a worker asks of the steps of one grain of a mapping.
pub(crate) fn ask_of(worker: Worker, map: MapId, grain: GrainNo) -> Ask
    ensures { result ≡ ask_of worker map grain }
{
    match worker {
        Worker::Copier => Ask::Copy { map, grain },
        Worker::Cleaner => Ask::Clean { map, grain },
    }
}

/// The request of a worker's turn in a lane.
pub(crate) fn turn_of(worker: Worker, lane: u8) -> Request
    ensures { result ≡ turn_of worker lane }
{
    match worker {
        Worker::Copier => Request::CopyTurn { lane },
        Worker::Cleaner => Request::CleanTurn { lane },
    }
}
