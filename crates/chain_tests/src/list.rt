//! A list of ten thousand starts and stops, with copies and writes between them, in a lane with every grain.

use crate::beside::{assert_same, do_fill, do_write};
use chain_steps::drawn::{
    GRAINS, MAPPINGS, VOLUMES, draw_event, draw_force, draw_number, draw_slot, draw_trigger,
};
use chain_steps::draws::Draws;
use chain_steps::events::Both;
use chain_steps::tally::{Tally, kind_of};
use fc_base::decision::LaneEvent;
use fc_base::ids::{MapId, SlotId, VolId};
use fc_base::outcome::NoMemory;
use fc_model::PlainSheet;
use std::alloc::Global;
use std::process::Abort;
use std::test::Fail;

/// The list ends with so many starts and stops.
const COMMANDS: u32 = 10_000;

/// A list that isn't done after so many steps has failed.
const STEPS: u32 = 20_000;

/// A drawn start or stop, and now and then a volume that comes or goes.
fn draw_command(
    alloc: Global,
    draws: &mut Draws,
    plain: &PlainSheet,
) -> Result<LaneEvent, NoMemory> {
    let kind = draws.below(16);
    if kind < 1 {
        return draw_event(alloc, draws, plain);
    }
    if kind < 9 && plain.len() < 20 {
        return draw_trigger(alloc, draws);
    }
    if kind > 14 {
        return draw_force(alloc, draws, plain);
    }
    let map = MapId(draws.below(MAPPINGS));
    if kind < 11 {
        return Ok(LaneEvent::Split { map });
    }
    if kind < 13 {
        return Ok(LaneEvent::Detach { map });
    }
    Ok(LaneEvent::Retire { map })
}

/// Draws up to eight commands, until one fits and is done in both.
fn do_some_command(draws: &mut Draws, both: &mut Both, tally: &mut Tally) -> Result<(), NoMemory> {
    for _ in 0..8 {
        let event = draw_command(both.alloc, draws, &both.plain)?;
        let kind = kind_of(&both.plain, &event);
        if both.do_event(event)? {
            tally.count(kind);
            return Ok(());
        }
    }
    Ok(())
}

/// Drops each old slot that nobody needs, in both.
fn settle(both: &mut Both) -> Result<(), NoMemory> {
    for place in (0..both.plain.len()).rev() {
        let slot = both.plain.slot(place);
        let _dropped = both.do_event(LaneEvent::Drop { slot })?;
    }
    Ok(())
}

/// Copies a slot's grains of the lane in both, from a first one on.
fn copy_slot(
    rt: &impl Abort,
    both: &mut Both,
    slot: SlotId,
    first: u32,
    tally: &mut Tally,
) -> Result<(), NoMemory> {
    for number in first..GRAINS {
        if both.lane.has(number) {
            tally.count_copy(do_fill(rt, both, slot, number)?);
        }
    }
    Ok(())
}

/// Does a drawn command in both, settles, and then copies some grains of a slot and writes a grain now and then.
fn step(
    rt: &impl Abort,
    draws: &mut Draws,
    both: &mut Both,
    tally: &mut Tally,
) -> Result<(), NoMemory> {
    do_some_command(draws, both, tally)?;
    settle(both)?;
    let slot = draw_slot(draws, &both.plain);
    let first = draws.below(2 * GRAINS).saturating_sub(GRAINS);
    copy_slot(rt, both, slot, first, tally)?;
    if draws.below(4) > 0 {
        return Ok(());
    }
    let volume = VolId(draws.below(VOLUMES));
    let number = draw_number(draws, both.lane);
    tally.count_write(do_write(rt, both, volume, number)?);
    Ok(())
}

/// Does drawn steps until there were enough commands, and compares both after each.
fn run(rt: &impl Abort, seed: u64, mut both: Both) -> Result<Tally, NoMemory> {
    let mut draws = Draws::of(seed);
    let mut tally = Tally::new();
    for number in 0..STEPS {
        if tally.commands() >= COMMANDS {
            return Ok(tally);
        }
        step(rt, &mut draws, &mut both, &mut tally)?;
        assert_same(rt, &both, number % 16 == 0);
    }
    Ok(tally)
}

#[test]
fn ten_thousand_starts_and_stops(rt: HostRuntime) -> Result<(), Fail> {
    let tally = run(&rt, 10, Both::new(rt.alloc(), 0, 1))?;
    assert!(rt; tally.commands() >= COMMANDS);
    assert!(rt; tally.has_many());
    Ok(())
}
