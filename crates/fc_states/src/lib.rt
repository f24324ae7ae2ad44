//! The state table of FlashCopy mappings: what each command, a superseding mapping and a settling make of a
//! mapping's state, or why they are refused; and how hosts may reach the target of a mapping in a state.
//!
//! Both calls are exact: `next` is the table `next_state`, cell for cell, and `access` the table `access_of`.
//! Both tables stand in `fc_base/specs/States.antt`, in the words of the manuals. Neither call takes memory.
//! What a cell cannot say is left to the caller: that a split of an incomplete copy is refused with the
//! numbers of its grains.
//!
//! In reading order: this file alone.
#![tactic(auto)]

ghost use Rattle.std.specs.Prelude.{◌≡◌, IsTrue, true, false, if◌then◌else◌};
ghost use Rattle.fc_base.specs.States.{next_state, access_of};

use fc_base::fault::Refusal;
use fc_base::ids::MapId;
use fc_base::state::{Access, MapEvent, MapState};

/// The state that `event` takes a mapping in `state` to, or why it is refused there: NotPrepared, NeedsForce, or
/// NotAllowed with the state. `complete` says whether the copy holds every grain, of a stopping mapping whether it
/// did as it was stopped; `needed` whether other copies read grains from it. Remove and RemoveForce, where they are
/// allowed, give IdleOrCopied.
///
/// A split of a copying mapping needs a complete copy.
pub fn next(
    state: MapState,
    event: MapEvent,
    complete: bool,
    needed: bool,
) -> Result<MapState, Refusal>
    requires { state ≡ MapState.Copying → event ≡ MapEvent.StopSplit → IsTrue complete }
    ensures { result ≡ next_state state event complete needed }
{
    match state {
        MapState::IdleOrCopied => next_of_idle(event),
        MapState::Stopped => next_of_stopped(event),
        MapState::Preparing => match event {
            MapEvent::Stop | MapEvent::StopForce => Ok(MapState::Stopped),
            _ => Err(Refusal::NotAllowed(MapState::Preparing)),
        },
        MapState::Prepared => match event {
            MapEvent::Start => Ok(MapState::Copying),
            MapEvent::Stop | MapEvent::StopForce => Ok(MapState::Stopped),
            _ => Err(Refusal::NotAllowed(MapState::Prepared)),
        },
        MapState::Copying => next_of_copying(event, complete, needed),
        MapState::Stopping => next_of_stopping(event, complete, needed),
        MapState::Empty => Err(Refusal::NotAllowed(MapState::Empty)),
    }
}

/// The row of an idle or copied mapping.
fn next_of_idle(event: MapEvent) -> Result<MapState, Refusal>
    ensures { result ≡ next_state MapState.IdleOrCopied event false false }
{
    match event {
        MapEvent::Prepare => Ok(MapState::Prepared),
        MapEvent::Start => Err(Refusal::NotPrepared),
        MapEvent::StartPrep => Ok(MapState::Copying),
        MapEvent::Remove | MapEvent::RemoveForce => Ok(MapState::IdleOrCopied),
        _ => Err(Refusal::NotAllowed(MapState::IdleOrCopied)),
    }
}

/// The row of a stopped mapping.
fn next_of_stopped(event: MapEvent) -> Result<MapState, Refusal>
    ensures { result ≡ next_state MapState.Stopped event false false }
{
    match event {
        MapEvent::Prepare => Ok(MapState::Prepared),
        MapEvent::Start => Err(Refusal::NotPrepared),
        MapEvent::StartPrep => Ok(MapState::Copying),
        MapEvent::Supersede | MapEvent::RemoveForce => Ok(MapState::IdleOrCopied),
        MapEvent::Remove => Err(Refusal::NeedsForce),
        _ => Err(Refusal::NotAllowed(MapState::Stopped)),
    }
}

/// The row of a copying mapping.
fn next_of_copying(event: MapEvent, complete: bool, needed: bool) -> Result<MapState, Refusal>
    requires { event ≡ MapEvent.StopSplit → IsTrue complete }
    ensures { result ≡ next_state MapState.Copying event complete needed }
{
    match event {
        MapEvent::Stop if needed => Ok(MapState::Stopping),
        MapEvent::Stop => Ok(MapState::Stopped),
        MapEvent::StopSplit => Ok(MapState::IdleOrCopied),
        MapEvent::StopForce => Ok(ended(complete)),
        MapEvent::Finish if complete && !needed => Ok(MapState::IdleOrCopied),
        _ => Err(Refusal::NotAllowed(MapState::Copying)),
    }
}

/// The row of a stopping mapping.
fn next_of_stopping(event: MapEvent, complete: bool, needed: bool) -> Result<MapState, Refusal>
    ensures { result ≡ next_state MapState.Stopping event complete needed }
{
    match event {
        MapEvent::StopForce => Ok(ended(complete)),
        MapEvent::Finish if !needed => Ok(ended(complete)),
        _ => Err(Refusal::NotAllowed(MapState::Stopping)),
    }
}

/// Where a mapping ends up as its target leaves its chain.
fn ended(complete: bool) -> MapState
    ensures { result ≡ (if complete then MapState.IdleOrCopied else MapState.Stopped) }
{
    if complete {
        MapState::IdleOrCopied
    } else {
        MapState::Stopped
    }
}

/// How hosts may reach the target of mapping `map`, which is in `state`. `complete` says, of a stopping mapping,
/// whether its copy was complete as it was stopped.
pub fn access(map: MapId, state: MapState, complete: bool) -> Access
    ensures { result ≡ access_of map state complete }
{
    match state {
        MapState::Preparing | MapState::Prepared => Access::NotAccessible { map },
        MapState::Stopped => Access::Offline { map, state },
        MapState::Stopping if !complete => Access::Offline { map, state },
        _ => Access::Online,
    }
}
