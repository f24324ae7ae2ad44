//! Many objects of each kind made, renamed and removed, and what no clause says: that memory suffices.

use crate::fits::fits;
use fc_base::disk::DiskKind;
use fc_base::fault::{Kind, Refusal};
use fc_base::ids::{GroupId, MapId, VolId};
use fc_base::name::{Name, Ref};
use fc_base::state::MapState;
use fc_base::volume::{Change, Group, Mapping, Volume};
use fc_registry::Registry;
use std::alloc::Global;
use std::process::Abort;

/// Reserves and makes a change, which has to fit.
fn make(rt: &impl Abort, alloc: Global, registry: &mut Registry, change: &Change) {
    let before = (registry.volumes(), registry.mappings(), registry.groups());
    assert!(rt; registry.reserve(alloc, change).is_ok());
    assert_eq!(rt;
        (registry.volumes(), registry.mappings(), registry.groups()),
        before
    );
    assert!(rt; fits(registry, change));
    registry.apply(change);
}

/// `front` and the number, as a name.
fn numbered(rt: &impl Abort, alloc: Global, front: &str, number: u32) -> Name {
    let text = format!(in alloc; "{front}{number}").expect(rt, "memory");
    Name::new(alloc, text.as_bytes())
        .expect(rt, "memory")
        .expect(rt, "a name")
}

/// A new object of the kind, by its number: its id, and its name behind `front`.
fn addition(rt: &impl Abort, alloc: Global, kind: Kind, front: &str, id: u32) -> Change {
    let name = numbered(rt, alloc, front, id);
    match kind {
        Kind::Vdisk => Change::AddVolume(Volume {
            id: VolId(id),
            name,
            grains: 1,
            kind: DiskKind::Flat,
        }),
        Kind::Fcmap => Change::AddMapping(mapping(id, name, VolId(id), VolId(id / 2))),
        Kind::Group => Change::AddGroup(Group {
            id: GroupId(id),
            name,
        }),
    }
}

fn mapping(id: u32, name: Name, source: VolId, target: VolId) -> Mapping {
    Mapping {
        id: MapId(id),
        name,
        source,
        target,
        group: None,
        state: MapState::IdleOrCopied,
        copy_rate: 50,
        clean_rate: 50,
        incremental: false,
        autodelete: false,
        restoring: false,
        held_at_leave: 0,
        complete: false,
    }
}

fn removal(kind: Kind, id: u32) -> Change {
    match kind {
        Kind::Vdisk => Change::RemoveVolume(VolId(id)),
        Kind::Fcmap => Change::RemoveMapping(MapId(id)),
        Kind::Group => Change::RemoveGroup(GroupId(id)),
    }
}

/// The id of what the reference names.
fn id_found(registry: &Registry, kind: Kind, reference: &Ref) -> Option<u32> {
    match kind {
        Kind::Vdisk => Some(registry.volume(reference)?.id.0),
        Kind::Fcmap => Some(registry.mapping(reference)?.id.0),
        Kind::Group => Some(registry.group(reference)?.id.0),
    }
}

/// Asserts that the object is found by its id and by its name, or by neither.
fn expect_found(
    rt: &impl Abort,
    alloc: Global,
    registry: &Registry,
    kind: Kind,
    front: &str,
    id: u32,
    found: bool,
) {
    let name = Ref::Name(numbered(rt, alloc, front, id));
    let wanted = if found { Some(id) } else { None };
    assert_eq!(rt; id_found(registry, kind, &Ref::Id(id)), wanted);
    assert_eq!(rt; id_found(registry, kind, &name), wanted);
}

fn add(rt: &impl Abort, alloc: Global, registry: &mut Registry, kind: Kind, front: &str, id: u32) {
    expect_found(rt, alloc, registry, kind, front, id, false);
    make(rt, alloc, registry, &addition(rt, alloc, kind, front, id));
    expect_found(rt, alloc, registry, kind, front, id, true);
}

fn remove(
    rt: &impl Abort,
    alloc: Global,
    registry: &mut Registry,
    kind: Kind,
    front: &str,
    id: u32,
) {
    expect_found(rt, alloc, registry, kind, front, id, true);
    make(rt, alloc, registry, &removal(kind, id));
    expect_found(rt, alloc, registry, kind, front, id, false);
}

/// Makes 512 objects of the kind, renames them by removing and adding, and removes them.
fn make_rename_and_remove(rt: &impl Abort, alloc: Global, registry: &mut Registry, kind: Kind) {
    for id in 0..512 {
        add(rt, alloc, registry, kind, "one", id);
    }
    for id in 0..512 {
        remove(rt, alloc, registry, kind, "one", id);
        add(rt, alloc, registry, kind, "other", 512 + id);
    }
    for id in 512..1024 {
        remove(rt, alloc, registry, kind, "other", id);
    }
}

#[test]
fn many_are_made_renamed_and_removed(rt: HostRuntime) {
    let alloc = rt.alloc();
    let mut registry = Registry::new(alloc);
    for kind in [Kind::Vdisk, Kind::Fcmap, Kind::Group] {
        make_rename_and_remove(&rt, alloc, &mut registry, kind);
    }
    assert_eq!(rt;
        (registry.volumes(), registry.mappings(), registry.groups()),
        (0, 0, 0)
    );
}

#[test]
fn a_name_is_of_one_kind(rt: HostRuntime) {
    let alloc = rt.alloc();
    let mut registry = Registry::new(alloc);
    add(&rt, alloc, &mut registry, Kind::Vdisk, "x", 1);
    expect_found(&rt, alloc, &registry, Kind::Fcmap, "x", 1, false);
    let name = numbered(&rt, alloc, "x", 1);
    assert!(rt; registry.check_name(Kind::Fcmap, &name).is_ok());
    assert!(rt;
        matches!(
            registry.check_name(Kind::Vdisk, &name),
            Err(Refusal::NameTaken(1))
        )
    );
}

#[test]
fn a_reserved_object_is_in_no_table(rt: HostRuntime) {
    let alloc = rt.alloc();
    let mut registry = Registry::new(alloc);
    let first = addition(&rt, alloc, Kind::Fcmap, "map", 4);
    assert!(rt; registry.reserve(alloc, &first).is_ok());
    expect_found(&rt, alloc, &registry, Kind::Fcmap, "map", 4, false);
    add(&rt, alloc, &mut registry, Kind::Fcmap, "map", 5);
    expect_found(&rt, alloc, &registry, Kind::Fcmap, "map", 4, false);
    assert_eq!(rt; registry.mappings(), 1);
}

#[test]
fn partners_exchange_source_and_target(rt: HostRuntime) {
    let alloc = rt.alloc();
    let mut registry = Registry::new(alloc);
    add(&rt, alloc, &mut registry, Kind::Fcmap, "map", 5);
    assert_eq!(rt; registry.partner(MapId(5)), None);
    let back = mapping(6, numbered(&rt, alloc, "map", 6), VolId(2), VolId(5));
    make(&rt, alloc, &mut registry, &Change::AddMapping(back));
    assert_eq!(rt; registry.partner(MapId(5)), Some(MapId(6)));
    assert_eq!(rt; registry.partner(MapId(6)), Some(MapId(5)));
    assert_eq!(rt; registry.partner(MapId(7)), None);
}
