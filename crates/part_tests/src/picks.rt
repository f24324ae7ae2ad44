//! A small grid, and whose turn is next on it: each call once at a type, and what no clause says, that memory suffices.

ghost use Rattle.std.specs.Prelude.{Some, None, ◌==◌, if◌then◌else◌};

use crate::expect::expect_same;
use fc_base::ids::{GrainNo, MapId};
use fc_pick::{Grid, Work};
use std::process::Abort;

/// A grid on which one mapping alone lacks a grain and is needed at one.
#[derive(Clone, Copy)]
struct OneMapping {
    map: MapId,
    lacking: GrainNo,
    needed: GrainNo,
}

impl Grid for OneMapping {
    ghost least_lacking = { λ grid m. if m.0 == grid.map.0 then Some grid.lacking else None };

    ghost least_needed = { λ grid m. if m.0 == grid.map.0 then Some grid.needed else None };

    fn lacking(&self, map: MapId) -> Option<GrainNo> {
        if map == self.map {
            Some(self.lacking)
        } else {
            None
        }
    }

    fn needed(&self, map: MapId) -> Option<GrainNo> {
        if map == self.map {
            Some(self.needed)
        } else {
            None
        }
    }
}

/// The grid on which the mapping lacks grain 3 and is needed at grain 5.
fn grid_of(map: u32) -> OneMapping {
    OneMapping {
        map: MapId(map),
        lacking: GrainNo(3),
        needed: GrainNo(5),
    }
}

/// The flags of a mapping are set.
fn set_flags(rt: &impl Abort, work: &mut Work, map: u32, copies: bool, cleans: bool) {
    let done = work.set(MapId(map), copies, cleans).is_ok();
    expect_same(rt, &done, &true, "flags of", u64::from(map));
}

/// A mapping is made known.
fn track(rt: &impl Abort, work: &mut Work, map: u32) {
    let done = work.track(MapId(map)).is_ok();
    expect_same(rt, &done, &true, "known", u64::from(map));
}

/// The work of mappings 2, 5 and 9, told in another order: 2 and 9 copy, 5 and 9 clean.
fn three_mappings(rt: &impl Abort, work: &mut Work) {
    set_flags(rt, work, 9, true, true);
    set_flags(rt, work, 2, true, false);
    track(rt, work, 5);
    set_flags(rt, work, 5, false, true);
}

/// Asserts what a copy and a cleaning would take where this mapping alone has grains.
fn expect_work(rt: &impl Abort, work: &Work, map: u32, copies: bool, cleans: bool) {
    let copy = if copies {
        Some((MapId(map), GrainNo(3)))
    } else {
        None
    };
    let clean = if cleans {
        Some((MapId(map), GrainNo(5)))
    } else {
        None
    };
    let grid = grid_of(map);
    expect_same(rt, &work.next_copy(&grid), &copy, "copy of", u64::from(map));
    expect_same(
        rt,
        &work.next_clean(&grid),
        &clean,
        "cleaning of",
        u64::from(map),
    );
}

#[test]
fn each_flag_is_its_own(rt: HostRuntime) {
    let mut work = Work::new(rt.alloc());
    expect_work(&rt, &work, 2, false, false);
    three_mappings(&rt, &mut work);
    expect_work(&rt, &work, 2, true, false);
    expect_work(&rt, &work, 5, false, true);
    expect_work(&rt, &work, 9, true, true);
    expect_work(&rt, &work, 4, false, false);
}

/// Mapping 9 goes on cleaning alone, and is then forgotten, and one that isn't there.
fn change_flags(rt: &impl Abort, work: &mut Work) {
    set_flags(rt, work, 9, false, true);
    track(rt, work, 9);
    expect_work(rt, work, 9, false, true);
    work.forget(MapId(9));
    work.forget(MapId(7));
    expect_work(rt, work, 9, false, false);
    expect_work(rt, work, 2, true, false);
}

#[test]
fn flags_change_and_go(rt: HostRuntime) {
    let mut work = Work::new(rt.alloc());
    three_mappings(&rt, &mut work);
    change_flags(&rt, &mut work);
}
