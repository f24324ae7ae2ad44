//! Groups of a few mappings, against answers written by hand.

use crate::fits::fits;
use fc_base::fault::Refusal;
use fc_base::ids::{GroupId, MapId, VolId};
use fc_base::name::Name;
use fc_base::state::MapState;
use fc_base::volume::{Change, Mapping};
use fc_group::{check_trigger, group_state};
use fc_registry::Registry;
use std::alloc::Global;
use std::process::Abort;

/// Adds a mapping, whose change it is.
fn add(rt: &impl Abort, alloc: Global, registry: &mut Registry, change: &Change) {
    assert!(rt; registry.reserve(alloc, change).is_ok());
    assert!(rt; fits(registry, change));
    registry.apply(change);
}

/// Adds a mapping to the group, between two volumes and in a state.
fn join(
    rt: &impl Abort,
    alloc: Global,
    registry: &mut Registry,
    map: u32,
    group: u32,
    ends: (u32, u32),
    state: MapState,
) {
    let text = format!(in alloc; "fcmap{map}").expect(rt, "memory");
    let name = Name::new(alloc, text.as_bytes())
        .expect(rt, "memory")
        .expect(rt, "a name");
    let change = Change::AddMapping(Mapping {
        id: MapId(map),
        name,
        source: VolId(ends.0),
        target: VolId(ends.1),
        group: Some(GroupId(group)),
        state,
        copy_rate: 50,
        clean_rate: 50,
        incremental: false,
        autodelete: false,
        restoring: false,
        held_at_leave: 0,
        complete: false,
    });
    add(rt, alloc, registry, &change);
}

#[test]
fn the_first_state_tells(rt: HostRuntime) {
    let alloc = rt.alloc();
    let mut registry = Registry::new(alloc);
    join(&rt, alloc, &mut registry, 0, 1, (0, 1), MapState::Stopped);
    join(
        &rt,
        alloc,
        &mut registry,
        1,
        2,
        (0, 2),
        MapState::IdleOrCopied,
    );
    join(&rt, alloc, &mut registry, 2, 1, (0, 3), MapState::Copying);
    join(&rt, alloc, &mut registry, 3, 1, (0, 4), MapState::Stopping);
    assert_eq!(rt; group_state(&registry, GroupId(1)), MapState::Copying);
    assert_eq!(rt; group_state(&registry, GroupId(2)), MapState::IdleOrCopied);
    assert_eq!(rt; group_state(&registry, GroupId(3)), MapState::Empty);
    join(&rt, alloc, &mut registry, 4, 2, (0, 5), MapState::Stopped);
    join(&rt, alloc, &mut registry, 5, 1, (0, 6), MapState::Prepared);
    assert_eq!(rt; group_state(&registry, GroupId(2)), MapState::Stopped);
    assert_eq!(rt; group_state(&registry, GroupId(1)), MapState::Prepared);
    join(&rt, alloc, &mut registry, 6, 1, (0, 7), MapState::Preparing);
    join(&rt, alloc, &mut registry, 7, 2, (0, 8), MapState::Stopping);
    assert_eq!(rt; group_state(&registry, GroupId(1)), MapState::Preparing);
    assert_eq!(rt; group_state(&registry, GroupId(2)), MapState::Stopping);
}

/// The volume that a refusal tells, with a letter for its kind; `-` where nothing is refused.
fn told(outcome: &Result<(), Refusal>) -> (u8, u32) {
    match outcome {
        Ok(()) => (b'-', 0),
        Err(Refusal::Empty) => (b'e', 0),
        Err(Refusal::TargetTwice(volume)) => (b't', volume.0),
        Err(Refusal::SourceIsTarget(volume)) => (b's', volume.0),
        Err(_) => (b'?', 0),
    }
}

#[test]
fn the_least_volume_is_told(rt: HostRuntime) {
    let alloc = rt.alloc();
    let mut registry = Registry::new(alloc);
    join(
        &rt,
        alloc,
        &mut registry,
        0,
        1,
        (0, 9),
        MapState::IdleOrCopied,
    );
    join(
        &rt,
        alloc,
        &mut registry,
        1,
        1,
        (1, 3),
        MapState::IdleOrCopied,
    );
    join(
        &rt,
        alloc,
        &mut registry,
        2,
        1,
        (2, 9),
        MapState::IdleOrCopied,
    );
    join(
        &rt,
        alloc,
        &mut registry,
        3,
        1,
        (9, 3),
        MapState::IdleOrCopied,
    );
    join(
        &rt,
        alloc,
        &mut registry,
        4,
        1,
        (3, 5),
        MapState::IdleOrCopied,
    );
    assert_eq!(rt; told(&check_trigger(&registry, &[])), (b'e', 0));
    assert_eq!(rt; told(&check_trigger(&registry, &[MapId(7)])), (b'e', 0));
    assert_eq!(rt;
        told(&check_trigger(&registry, &[MapId(0), MapId(1)])),
        (b'-', 0)
    );
    assert_eq!(rt;
        told(&check_trigger(&registry, &[MapId(0), MapId(1), MapId(2)])),
        (b't', 9)
    );
    assert_eq!(rt;
        told(&check_trigger(&registry, &[MapId(0), MapId(1), MapId(2), MapId(3)])),
        (b't', 3)
    );
    assert_eq!(rt;
        told(&check_trigger(&registry, &[MapId(0), MapId(3)])),
        (b's', 9)
    );
    assert_eq!(rt;
        told(&check_trigger(&registry, &[MapId(0), MapId(3), MapId(4)])),
        (b's', 3)
    );
}
