//! Names and ends, against values written by hand.

use fc_base::ids::{MapId, VolId};
use fc_base::size::GrainSize;
use fc_base::state::MapState;
use fc_base::volume::Mapping;
use fc_control::Control;
use fc_desk::{in_state, name_or};
use std::alloc::Global;
use std::process::Abort;

#[test]
fn a_name_is_given_or_made(rt: HostRuntime) {
    let alloc = rt.alloc();
    let made = name_or(alloc, &None, b"vdisk", 4_294_967_295).expect(&rt, "memory");
    assert_eq!(rt; made.as_bytes(), b"vdisk4294967295".as_slice());
    let given = name_or(alloc, &Some(made), b"vdisk", 7).expect(&rt, "memory");
    assert_eq!(rt; given.as_bytes(), b"vdisk4294967295".as_slice());
}

#[test]
fn a_run_begins_with_empty_tables(rt: HostRuntime) {
    let alloc = rt.alloc();
    let control = Control::new(alloc, GrainSize::K64);
    assert_eq!(rt; control.registry().volumes(), 0);
    assert_eq!(rt;
        (
            control.next_volume(),
            control.next_mapping(),
            control.next_group()
        ),
        (0, 0, 1)
    );
}

/// A mapping that restores.
fn restoring(rt: &impl Abort, alloc: Global) -> Mapping {
    Mapping {
        id: MapId(3),
        name: name_or(alloc, &None, b"fcmap", 3).expect(rt, "memory"),
        source: VolId(0),
        target: VolId(1),
        group: None,
        state: MapState::Copying,
        copy_rate: 50,
        clean_rate: 50,
        incremental: false,
        autodelete: false,
        restoring: true,
        held_at_leave: 0,
        complete: false,
    }
}

#[test]
fn only_active_mappings_restore(rt: HostRuntime) {
    let alloc = rt.alloc();
    assert!(rt; in_state(restoring(&rt, alloc), MapState::Stopping).restoring);
    assert!(rt; !in_state(restoring(&rt, alloc), MapState::Stopped).restoring);
}
