//! Moves, writes and copies in the chains of a lane and in the plain sheet of the same slots, and whether both tell the same.

ghost use Rattle.std.specs.Prelude.{◌≡◌, ◌%◌, IsTrue, false};
ghost use Rattle.fc_base.specs.SheetFits.{FitsTaken};
ghost use Rattle.fc_chain.specs.Planning.{CanPlan};

use chain_steps::events::Both;
use chain_steps::taken::fits_taken;
use fc_base::ids::{GrainNo, MapId, SlotId, VolId};
use fc_base::move_plan::MovePlan;
use fc_base::outcome::NoMemory;
use fc_base::request::{Move, Planned};
use fc_model::PlainSheet;
use std::process::Abort;

/// Whether a move fits: in place it always does.
fn fits_move(plain: &PlainSheet, volume: VolId, grain: usize, in_place: bool) -> bool
    ensures { IsTrue result → in_place ≡ false → FitsTaken plain.now.slots volume.0 grain }
{
    in_place || fits_taken(plain, volume, grain)
}

/// Makes a move of a grain of the lane in both.
fn make_move(rt: &impl Abort, both: &mut Both, number: u32, next: Move)
    requires { number % both.old.lane.lanes ≡ both.old.lane.lane }
    ensures { both.new.lane ≡ both.old.lane }
{
    let grain = both.lane.place(number);
    match both.plain.slot_place(next.slot) {
        Some(place) => {
            let volume = both.plain.volume(place);
            let fits = fits_move(&both.plain, volume, grain, next.in_place);
            assert!(rt; fits);
            both.chains.moved(next.slot, number, next.in_place);
            both.plain.moved(volume, grain, next.in_place);
        }
        None => assert!(rt; false),
    }
}

/// Makes moves of a grain of the lane in both, one after the other.
fn make_moves(rt: &impl Abort, both: &mut Both, number: u32, moves: &[Move])
    requires { number % both.old.lane.lanes ≡ both.old.lane.lane }
    ensures { both.new.lane ≡ both.old.lane }
{
    for next in moves {
        make_move(rt, both, number, *next);
    }
}

/// Whether two lists of moves are one.
fn are_same(planned: &[Move], moves: &[Move]) -> bool {
    planned.len() == moves.len() && planned.iter().zip(moves).all(|(one, other)| *one == *other)
}

/// Plans the moves that a grain of the lane owes, which are these, and makes them in both.
fn make_planned(
    rt: &impl Abort,
    both: &mut Both,
    number: u32,
    planned: Planned,
    moves: &[Move],
) -> Result<(), NoMemory>
    requires of_lane { number % both.old.lane.lanes ≡ both.old.lane.lane }
    requires fits { CanPlan both.old.plain.slots both.old.lane.lane both.old.lane.lanes planned }
    ensures { both.new.lane ≡ both.old.lane }
{
    let mut plan = MovePlan::new(both.alloc, both.plain.len())?;
    both.chains.plan(planned, &mut plan);
    assert!(rt; are_same(plan.as_slice(), moves));
    make_moves(rt, both, number, plan.as_slice());
    Ok(())
}

/// Writes a grain of a volume of the lane in both, after the moves that it owes; answers whether the volume is there.
pub fn do_write(
    rt: &impl Abort,
    both: &mut Both,
    volume: VolId,
    number: u32,
) -> Result<bool, NoMemory>
    requires { number % both.old.lane.lanes ≡ both.old.lane.lane }
    ensures { both.new.lane ≡ both.old.lane }
{
    let live = match both.plain.live_place(volume) {
        Some(live) => live,
        None => return Ok(false),
    };
    let place = both.lane.place(number);
    let grain = GrainNo(number);
    let moves = both
        .plain
        .write_moves(both.alloc, Some(live), place, grain)?;
    let write = Planned::Write { volume, grain };
    make_planned(rt, both, number, write, moves.as_slice())?;
    assert!(rt; fits_taken(&both.plain, volume, place));
    both.chains.written(volume, number);
    both.plain.written(volume, place);
    Ok(true)
}

/// Fills a slot at a grain of the lane in both, where it is live and lacks the grain; answers whether it was.
pub fn do_fill(
    rt: &impl Abort,
    both: &mut Both,
    slot: SlotId,
    number: u32,
) -> Result<bool, NoMemory>
    requires { number % both.old.lane.lanes ≡ both.old.lane.lane }
    ensures { both.new.lane ≡ both.old.lane }
{
    let plain = &both.plain;
    let at = match plain.slot_place(slot) {
        Some(at) => at,
        None => return Ok(false),
    };
    let place = both.lane.place(number);
    if place >= plain.grains(at) || !plain.is_live(at) || plain.holds(at, place) {
        return Ok(false);
    }
    let grain = GrainNo(number);
    let moves = plain.fill_moves(both.alloc, at, place, grain)?;
    let fill = Planned::Fill { slot, grain };
    make_planned(rt, both, number, fill, moves.as_slice())?;
    Ok(true)
}

/// The name of the slot at a place, if there is one.
fn named(plain: &PlainSheet, place: Option<usize>) -> Option<SlotId> {
    match place {
        Some(place) => Some(plain.slot(place)),
        None => None,
    }
}

/// Grains of a volume, at most.
const GRAINS: u32 = 8;

/// Both tell the same holder of a slot at a grain of the lane, and with `whole` the same needer.
fn assert_same_at(rt: &impl Abort, both: &Both, slot: SlotId, number: u32, whole: bool)
    requires { number % both.now.lane.lanes ≡ both.now.lane.lane }
{
    let plain = &both.plain;
    let grain = both.lane.place(number);
    match plain.slot_place(slot) {
        Some(place) => {
            let holder = named(plain, plain.holder(place, grain));
            assert_eq!(rt; both.chains.holder(slot, number), holder);
            if whole {
                let needer = named(plain, plain.needer(place, grain));
                assert_eq!(rt; both.chains.needer(slot, number), needer);
            }
        }
        None => assert!(rt; false),
    }
}

/// Both tell the same of a slot, and with `whole` also who needs it.
fn assert_same_slot(rt: &impl Abort, both: &Both, slot: SlotId, whole: bool) {
    let (chains, plain) = (&both.chains, &both.plain);
    match plain.slot_place(slot) {
        Some(place) => {
            assert_eq!(rt; chains.volume(slot), plain.volume(place));
            let is_complete = chains.held_count(slot) as usize == plain.grains(place);
            assert_eq!(rt; is_complete, plain.is_complete(place));
            if whole {
                assert_eq!(rt; chains.need_count(slot) > 0, plain.is_needed(place));
            }
        }
        None => assert!(rt; false),
    }
    for number in 0..GRAINS {
        if both.lane.has(number) {
            assert_same_at(rt, both, slot, number, whole);
        }
    }
}

/// Both tell the same of eight volumes, twelve mappings and all slots; with `whole` also who needs and who uses them.
pub fn assert_same(rt: &impl Abort, both: &Both, whole: bool) {
    let (chains, plain) = (&both.chains, &both.plain);
    for place in 0..plain.len() {
        assert_same_slot(rt, both, plain.slot(place), whole);
    }
    for volume in 0..8 {
        let volume = VolId(volume);
        let live = named(plain, plain.live_place(volume));
        assert_eq!(rt; chains.live(volume), live);
        if whole {
            assert_eq!(rt; chains.used(volume), plain.is_used(volume));
        }
    }
    for map in 0..12 {
        let map = MapId(map);
        let slot = named(plain, plain.mapping_place(map));
        assert_eq!(rt; chains.slot(map), slot);
    }
}
