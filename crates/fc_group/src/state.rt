//! The state of a group.

ghost use Rattle.std.specs.Prelude.{◌≡◌, ◌&&◌};
ghost use Rattle.std.specs.List.{list_any};
ghost use Rattle.fc_books.specs.Groups.{is_member, group_state};
ghost use Rattle.fc_group.specs.States.{is_in_state, is_in_in_state, first_state_of};

use fc_base::ids::GroupId;
use fc_base::state::MapState;
use fc_base::volume::Mapping;
use fc_registry::Registry;

/// Whether a mapping is a member of the group.
pub fn is_member(mapping: &Mapping, group: GroupId) -> bool
    ensures { result ≡ is_member group mapping.now }
{
    match mapping.group {
        Some(of) => group.0 == of.0,
        None => false,
    }
}

/// Whether a state is the other one.
pub fn has_state(wanted: MapState, state: MapState) -> bool
    ensures { result ≡ is_in_state wanted state }
{
    match wanted {
        MapState::Empty => matches!(state, MapState::Empty),
        MapState::IdleOrCopied => matches!(state, MapState::IdleOrCopied),
        MapState::Preparing => matches!(state, MapState::Preparing),
        MapState::Prepared => matches!(state, MapState::Prepared),
        MapState::Copying => matches!(state, MapState::Copying),
        MapState::Stopping => matches!(state, MapState::Stopping),
        MapState::Stopped => matches!(state, MapState::Stopped),
    }
}

/// Whether a mapping is a member of the group and in this state.
fn is_member_in(mapping: &Mapping, group: GroupId, state: MapState) -> bool
    ensures { result ≡ is_in_in_state group state mapping.now }
{
    is_member(mapping, group) && has_state(state, mapping.state)
}

/// Whether some member of the group is in this state.
fn some_member_in(mappings: &[Mapping], group: GroupId, state: MapState) -> bool
    ensures { result ≡ list_any (is_in_in_state group state) mappings.now }
{
    mappings
        .iter()
        .any(|mapping| is_member_in(mapping, group, state))
}

/// Whether the group has a member.
fn has_member(mappings: &[Mapping], group: GroupId) -> bool
    ensures { result ≡ list_any (is_member group) mappings.now }
{
    mappings.iter().any(|mapping| is_member(mapping, group))
}

/// The first of the states, from Preparing on, that some member of the group is in; else IdleOrCopied.
fn first_state(mappings: &[Mapping], group: GroupId) -> MapState
    ensures { result ≡ first_state_of group mappings.now }
{
    if some_member_in(mappings, group, MapState::Preparing) {
        MapState::Preparing
    } else if some_member_in(mappings, group, MapState::Prepared) {
        MapState::Prepared
    } else if some_member_in(mappings, group, MapState::Copying) {
        MapState::Copying
    } else if some_member_in(mappings, group, MapState::Stopping) {
        MapState::Stopping
    } else if some_member_in(mappings, group, MapState::Stopped) {
        MapState::Stopped
    } else {
        MapState::IdleOrCopied
    }
}

/// The state of a group: Empty without members; else the first of Preparing, Prepared, Copying, Stopping, Stopped that
/// some member is in; else IdleOrCopied.
pub fn group_state(registry: &Registry, group: GroupId) -> MapState
    ensures { result ≡ group_state registry.now.tables group }
{
    let mappings = registry.all_mappings();
    if has_member(mappings, group) {
        first_state(mappings, group)
    } else {
        MapState::Empty
    }
}
