//! A list of starts and stops worked by hand, by the rules of starts and stops: the slots that each event leaves.

use crate::beside::{assert_same, do_fill};
use crate::commands::Command::{self, Detach, Drop, Force, Make, Remove, Retire, Split, Start};
use crate::commands::{A, B, C, GRAINS, pair};
use chain_steps::events::Both;
use fc_base::ids::{SlotId, VolId};
use fc_base::outcome::NoMemory;
use fc_model::PlainSheet;
use std::process::Abort;
use std::test::Fail;

/// A slot: its volume, whether it is live, and the birth that names its chain.
type Wanted = (u32, bool, u64);

/// A command, and the slots that it leaves, in their order.
type Row = (Command, &'static [Wanted]);

/// Three volumes come, two copies of one are started, the newer target ahead of the older one, and the newer is stopped
/// while it lacks grains: its slot is left for the older one.
const STARTED: [Row; 6] = [
    (Make(A), &[(A, true, 0)]),
    (Make(B), &[(A, true, 0), (B, true, 1)]),
    (Make(C), &[(A, true, 0), (B, true, 1), (C, true, 2)]),
    (Start(0, A, B), &[(A, true, 0), (B, true, 0), (C, true, 2)]),
    (Start(1, A, C), &[(A, true, 0), (C, true, 0), (B, true, 0)]),
    (
        Retire(1),
        &[(A, true, 0), (C, false, 0), (B, true, 0), (C, true, 5)],
    ),
];

/// The older copy, now complete, is split off, and the slot that nobody needs any more is dropped. A target of a target
/// is started, whose source then becomes a target again; both are stopped by force. At last a copy is stopped that nobody
/// needs, and a volume goes.
const STOPPED: [Row; 9] = [
    (
        Split(0),
        &[(A, true, 0), (C, false, 0), (B, true, 3), (C, true, 5)],
    ),
    (Drop(4), &[(A, true, 0), (B, true, 3), (C, true, 5)]),
    (Start(2, C, B), &[(A, true, 0), (C, true, 5), (B, true, 5)]),
    (
        Start(3, A, C),
        &[(A, true, 0), (C, true, 0), (C, false, 5), (B, true, 5)],
    ),
    (
        Force(3, 2),
        &[(A, true, 0), (C, false, 5), (C, true, 8), (B, true, 9)],
    ),
    (Drop(5), &[(A, true, 0), (C, true, 8), (B, true, 9)]),
    (Start(4, A, B), &[(A, true, 0), (B, true, 0), (C, true, 8)]),
    (Detach(4), &[(A, true, 0), (C, true, 8), (B, true, 11)]),
    (Remove(C), &[(A, true, 0), (B, true, 11)]),
];

/// Does commands that fit, in both, and compares the slots that each leaves.
fn assert_rows(rt: &impl Abort, both: &mut Both, rows: &[Row]) -> Result<(), NoMemory> {
    for (command, wanted) in rows {
        let is_done = both.do_event(command.event(both.alloc)?)?;
        assert!(rt; is_done);
        assert_slots(rt, &both.plain, wanted);
        assert_same(rt, both, true);
    }
    Ok(())
}

/// The slots are those that are wanted.
fn assert_slots(rt: &impl Abort, plain: &PlainSheet, wanted: &[Wanted]) {
    assert_eq!(rt; plain.len(), wanted.len());
    for (place, (volume, is_live, chain)) in wanted.iter().enumerate() {
        assert_eq!(rt; plain.volume(place), VolId(*volume));
        assert_eq!(rt; plain.is_live(place), *is_live);
        assert_eq!(rt; plain.chain(place), SlotId(*chain));
    }
}

/// Copies all grains of the slot with this birth, in both.
fn fill(rt: &impl Abort, both: &mut Both, slot: u64) -> Result<(), NoMemory> {
    for number in 0..GRAINS {
        assert!(rt; both.lane.has(number));
        let is_done = do_fill(rt, both, SlotId(slot), number)?;
        assert!(rt; is_done);
    }
    Ok(())
}

#[test]
fn worked_starts_and_stops(rt: HostRuntime) -> Result<(), Fail> {
    let mut both = Both::new(rt.alloc(), 0, 1);
    assert_rows(&rt, &mut both, &STARTED)?;
    fill(&rt, &mut both, 3)?;
    assert_rows(&rt, &mut both, &STOPPED)?;
    Ok(())
}

/// A volume has this live slot.
fn assert_live(rt: &impl Abort, both: &Both, volume: u32, slot: Option<SlotId>) {
    assert_eq!(rt; both.chains.live(VolId(volume)), slot);
}

/// Each target in turn becomes the source's newest copy, and its older slot stays ahead of it.
fn assert_loop(rt: &impl Abort, both: &Both) -> Result<(), NoMemory> {
    let pairs = [pair(0, A, B), pair(1, B, A), pair(2, A, B)];
    assert!(rt; both.chains.loop_of(both.alloc, &pairs[..2])?.is_none());
    let told = both
        .chains
        .loop_of(both.alloc, &pairs)?
        .expect(rt, "a loop");
    assert_eq!(rt; told.as_slice(), [VolId(A), VolId(B)].as_slice());
    Ok(())
}

#[test]
fn a_loop_of_one_volume_and_its_target(rt: HostRuntime) -> Result<(), Fail> {
    let mut both = Both::new(rt.alloc(), 0, 1);
    assert_live(&rt, &both, A, None);
    assert_rows(&rt, &mut both, &STARTED[..1])?;
    assert_live(&rt, &both, A, Some(SlotId(0)));
    assert_live(&rt, &both, B, None);
    assert_loop(&rt, &both)?;
    Ok(())
}
