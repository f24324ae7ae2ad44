//! How the copy of a mapping ends.

ghost use Rattle.std.specs.Prelude.{◌≡◌, [], ◌∷◌, ◌++◌, OnOk, IfOk, cond, false};
ghost use Rattle.fc_base.specs.States.{access_of};
ghost use Rattle.fc_books.specs.Accesses.{is_idle, is_active};
ghost use Rattle.fc_books.specs.Books.{◌then◌};
ghost use Rattle.fc_books.specs.Ending.{ends_in, comes_to, goes_from, in_state};

use crate::draft::Draft;
use fc_base::decision::LaneEvent;
use fc_base::outcome::NoMemory;
use fc_base::request::Effect;
use fc_base::state::MapState;
use fc_base::volume::{Change, Mapping};
use fc_states::access;
use std::alloc::Global;

/// The same mapping again.
pub fn copy_mapping(alloc: Global, mapping: &Mapping) -> Result<Mapping, NoMemory>
    ensures { IfOk result (λ copy. copy ≡ mapping.now) }
{
    Ok(Mapping {
        id: mapping.id,
        name: mapping.name.copy(alloc)?,
        source: mapping.source,
        target: mapping.target,
        group: mapping.group,
        state: mapping.state,
        copy_rate: mapping.copy_rate,
        clean_rate: mapping.clean_rate,
        incremental: mapping.incremental,
        autodelete: mapping.autodelete,
        restoring: mapping.restoring,
        held_at_leave: mapping.held_at_leave,
        complete: mapping.complete,
    })
}

/// Whether the state is IdleOrCopied.
pub fn is_idle(state: MapState) -> bool
    ensures { result ≡ is_idle state }
{
    matches!(state, MapState::IdleOrCopied)
}

/// Whether a mapping in this state is active: in every state but IdleOrCopied and Stopped.
pub fn is_active(state: MapState) -> bool
    ensures { result ≡ is_active state }
{
    !matches!(state, MapState::IdleOrCopied | MapState::Stopped)
}

/// The mapping in a state. That it restores is known while it is active.
pub fn in_state(mapping: Mapping, state: MapState) -> Mapping
    ensures { result ≡ in_state state mapping }
{
    Mapping {
        state,
        restoring: mapping.restoring && is_active(state),
        ..mapping
    }
}

/// A mapping comes into a state, and hosts reach its target by that state.
pub fn come_to(draft: &mut Draft, mapping: Mapping, state: MapState) -> Result<(), NoMemory>
    ensures { OnOk result (draft.new ≡ (draft.old then comes_to state mapping)) }
{
    tell_state(draft, &mapping, state)?;
    draft.change(Change::SetMapping(in_state(mapping, state)))
}

/// The history tells a mapping's state, and hosts reach its target by that state.
fn tell_state(draft: &mut Draft, mapping: &Mapping, state: MapState) -> Result<(), NoMemory>
    ensures { OnOk result (draft.new ≡ record draft.old { effects = draft.old.effects ++ Effect.State mapping.now.id state ∷ []; events = draft.old.events ++ LaneEvent.Access mapping.now.target (access_of mapping.now.id state mapping.now.complete) ∷ [] }) }
{
    draft.affect(Effect::State {
        map: mapping.id,
        state,
    })?;
    draft.tell(LaneEvent::Access {
        volume: mapping.target,
        access: access(mapping.id, state, mapping.complete),
    })
}

/// A mapping comes into a state and is removed.
fn go_from(draft: &mut Draft, mapping: &Mapping, state: MapState) -> Result<(), NoMemory>
    ensures { OnOk result (draft.new ≡ (draft.old then goes_from state mapping.now)) }
{
    tell_state(draft, mapping, state)?;
    draft.affect(Effect::Gone { map: mapping.id })?;
    draft.tell(LaneEvent::Forget { map: mapping.id })?;
    draft.change(Change::RemoveMapping(mapping.id))
}

/// The copy of a mapping ends in a state; one that is to be removed by itself goes as it comes to IdleOrCopied.
pub fn end_in(draft: &mut Draft, mapping: Mapping, state: MapState) -> Result<(), NoMemory>
    ensures { OnOk result (draft.new ≡ (draft.old then ends_in state mapping)) }
{
    if mapping.autodelete && is_idle(state) {
        go_from(draft, &mapping, state)
    } else {
        come_to(draft, mapping, state)
    }
}
