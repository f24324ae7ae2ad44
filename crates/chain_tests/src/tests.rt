//! Generated steps, in one lane, in two and in four.

use crate::beside::{assert_same, do_fill, do_write};
use chain_steps::drawn::{VOLUMES, draw_event, draw_number, draw_slot};
use chain_steps::draws::Draws;
use chain_steps::events::Both;
use fc_base::ids::VolId;
use fc_base::outcome::NoMemory;
use fc_base::request::Side;
use std::process::Abort;
use std::test::Fail;

/// How many steps of each kind were done.
#[derive(Clone, Copy)]
struct Done {
    events: u32,
    writes: u32,
    fills: u32,
    torn: u32,
}

/// Draws up to eight events, until one fits and is done in both; answers whether one was.
fn do_some_event(draws: &mut Draws, both: &mut Both) -> Result<bool, NoMemory> {
    for _ in 0..8 {
        let event = draw_event(both.alloc, draws, &both.plain)?;
        if both.do_event(event)? {
            return Ok(true);
        }
    }
    Ok(false)
}

/// Does a drawn event, write, fill or torn write in both.
fn step(
    rt: &impl Abort,
    draws: &mut Draws,
    both: &mut Both,
    done: &mut Done,
) -> Result<(), NoMemory> {
    let kind = draws.below(16);
    if kind < 8 {
        let is_done = do_some_event(draws, both)?;
        done.events = done.events.saturating_add(u32::from(is_done));
        return Ok(());
    }
    let number = draw_number(draws, both.lane);
    if kind < 13 {
        let slot = draw_slot(draws, &both.plain);
        let is_done = do_fill(rt, both, slot, number)?;
        done.fills = done.fills.saturating_add(u32::from(is_done));
        return Ok(());
    }
    let volume = VolId(draws.below(VOLUMES));
    if kind < 15 {
        let is_done = do_write(rt, both, volume, number)?;
        done.writes = done.writes.saturating_add(u32::from(is_done));
        return Ok(());
    }
    let side = if draws.below(2) == 0 {
        Side::Now
    } else {
        Side::Under
    };
    let is_done = both.do_torn(volume, number, side);
    done.torn = done.torn.saturating_add(u32::from(is_done));
    Ok(())
}

/// Does so many drawn steps in a lane, compares both after each, and asserts that enough of each kind were done to tell something.
fn run(rt: &impl Abort, seed: u64, steps: u32, mut both: Both) -> Result<(), NoMemory> {
    let mut draws = Draws::of(seed);
    let mut done = Done {
        events: 0,
        writes: 0,
        fills: 0,
        torn: 0,
    };
    for number in 0..steps {
        step(rt, &mut draws, &mut both, &mut done)?;
        assert_same(rt, &both, number % 16 == 0);
    }
    assert_many(rt, &done, steps);
    Ok(())
}

/// Enough steps of each kind were done to tell something.
fn assert_many(rt: &impl Abort, done: &Done, steps: u32) {
    let hundredth = steps / 100;
    assert!(rt; done.events > 15 * hundredth);
    assert!(rt; done.writes > 5 * hundredth);
    assert!(rt; done.fills > hundredth);
    assert!(rt; done.torn > hundredth);
}

#[test]
fn a_lane_with_every_grain(rt: HostRuntime) -> Result<(), Fail> {
    run(&rt, 1, 4_000, Both::new(rt.alloc(), 0, 1))?;
    Ok(())
}

#[test]
fn the_second_lane_of_two(rt: HostRuntime) -> Result<(), Fail> {
    run(&rt, 2, 4_000, Both::new(rt.alloc(), 1, 2))?;
    Ok(())
}

#[test]
fn each_lane_of_four(rt: HostRuntime) -> Result<(), Fail> {
    for lane in 0..4 {
        run(
            &rt,
            3 + u64::from(lane),
            1_500,
            Both::new(rt.alloc(), lane, 4),
        )?;
    }
    Ok(())
}
