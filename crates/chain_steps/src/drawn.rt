//! Drawn events and grains.

ghost use Rattle.std.specs.Prelude.{◌≡◌, ◌%◌};

use crate::draws::Draws;
use crate::events::Lane;
use fc_base::decision::LaneEvent;
use fc_base::disk::DiskKind;
use fc_base::ids::{MapId, SlotId, VolId};
use fc_base::list::List;
use fc_base::outcome::NoMemory;
use fc_base::request::Pair;
use fc_model::PlainSheet;
use std::alloc::Global;

/// Volumes.
pub const VOLUMES: u32 = 8;

/// Mappings.
pub const MAPPINGS: u32 = 12;

/// The most grains of a volume.
pub const GRAINS: u32 = 8;

/// A pair between drawn volumes.
fn draw_pair(draws: &mut Draws) -> Pair {
    let map = draws.below(MAPPINGS);
    let source = draws.below(VOLUMES);
    let target = draws.below(VOLUMES);
    Pair {
        map: MapId(map),
        source: VolId(source),
        target: VolId(target),
        incremental: false,
    }
}

/// A trigger of one pair, or of two.
pub fn draw_trigger(alloc: Global, draws: &mut Draws) -> Result<LaneEvent, NoMemory> {
    let mut pairs = List::new(alloc);
    pairs.push(draw_pair(draws))?;
    if draws.below(4) == 0 {
        pairs.push(draw_pair(draws))?;
    }
    Ok(LaneEvent::Trigger { pairs })
}

/// The name of a drawn slot.
pub fn draw_slot(draws: &mut Draws, plain: &PlainSheet) -> SlotId {
    plain.slot(draws.below(24) as usize)
}

/// Whether the mapping's slot is one of these.
fn has_slot_in(plain: &PlainSheet, map: MapId, places: &[usize]) -> bool {
    match plain.mapping_place(map) {
        Some(place) => places.contains(&place),
        None => false,
    }
}

/// A force of a drawn mapping with all mappings that depend on it.
pub fn draw_force(
    alloc: Global,
    draws: &mut Draws,
    plain: &PlainSheet,
) -> Result<LaneEvent, NoMemory> {
    let map = MapId(draws.below(MAPPINGS));
    let mut dependents = List::new(alloc);
    if let Some(place) = plain.mapping_place(map) {
        let places = plain.dependents(alloc, place)?;
        for other in 0..MAPPINGS {
            if has_slot_in(plain, MapId(other), places.as_slice()) {
                dependents.push(MapId(other))?;
            }
        }
    }
    Ok(LaneEvent::Force { map, dependents })
}

/// A drawn event.
pub fn draw_event(
    alloc: Global,
    draws: &mut Draws,
    plain: &PlainSheet,
) -> Result<LaneEvent, NoMemory> {
    let kind = draws.below(64);
    if kind < 8 {
        let volume = VolId(draws.below(VOLUMES));
        let short = draws.below(4) == 0;
        let drawn = 1 + draws.below(GRAINS);
        let grains = if short { drawn } else { GRAINS };
        return Ok(LaneEvent::Make {
            volume,
            grains,
            kind: DiskKind::Flat,
        });
    }
    if kind < 9 {
        let volume = VolId(draws.below(VOLUMES));
        return Ok(LaneEvent::Remove { volume });
    }
    if kind < 36 && plain.len() < 20 {
        return draw_trigger(alloc, draws);
    }
    if kind > 60 {
        return draw_force(alloc, draws, plain);
    }
    if kind < 44 {
        let slot = draw_slot(draws, plain);
        return Ok(LaneEvent::Drop { slot });
    }
    let map = MapId(draws.below(MAPPINGS));
    if kind < 47 {
        return Ok(LaneEvent::Retire { map });
    }
    if kind < 54 {
        return Ok(LaneEvent::Detach { map });
    }
    Ok(LaneEvent::Split { map })
}

/// A number of a grain of the lane.
pub fn draw_number(draws: &mut Draws, lane: Lane) -> u32
    ensures { result % lane.lanes ≡ lane.lane }
{
    let drawn = draws.below(GRAINS);
    drawn - drawn % u32::from(lane.lanes) + u32::from(lane.lane)
}
