//! Generated sequences of triggers in both directions, writes, leavings and cuts, compared after each event with a plain
//! program that keeps all that was told and looks through it.

ghost use Rattle.std.specs.Prelude.{◌≡◌, ◌<◌, IsTrue, All, length};

use super::*;
use std::process::Abort;
use std::test::Fail;

/// How many grains each volume has.
const GRAINS: u32 = 5;

/// How many mappings there are, by their ids.
const MAPPINGS: u32 = 5;

/// The volumes of a mapping: 0 and 1 are partners, and so are 2 and 4.
fn volumes_of(map: u32) -> (u32, u32) {
    match map {
        0 => (0, 1),
        1 => (1, 0),
        2 => (1, 2),
        3 => (0, 2),
        _ => (2, 1),
    }
}

/// What was told, in order. A mapping is followed from a trigger on of which this is told.
#[derive(Clone, Copy)]
enum Told {
    Began { map: u32, followed: bool },
    Wrote { volume: u32, grain: u32 },
    Left { target: u32, held: u32 },
    Cut { target: u32 },
    Forgotten { map: u32 },
}

// ---- the plain program

/// Whether the mapping joins the two volumes, in either direction.
fn joins(map: u32, one: u32, other: u32) -> bool {
    volumes_of(map) == (one, other) || volumes_of(map) == (other, one)
}

/// What was told from the mapping's first trigger on, if it is followed.
fn story(told: &[Told], map: u32) -> Option<&[Told]> {
    let mut start = None;
    for (place, event) in told.iter().enumerate() {
        match *event {
            Told::Began {
                map: other,
                followed: true,
            } if other == map => {
                start = Some(start.unwrap_or(place));
            }
            Told::Forgotten { map: other } if other == map => start = None,
            _ => {}
        }
    }
    told.get(start?..)
}

/// The place of the last trigger that joined the two volumes, and its mapping.
fn last_trigger(told: &[Told], one: u32, other: u32) -> Option<(usize, u32)> {
    let mut last = None;
    for (place, event) in told.iter().enumerate() {
        if let Told::Began { map, .. } = *event {
            if joins(map, one, other) {
                last = Some((place, map));
            }
        }
    }
    last
}

/// Whether the event, behind the last trigger, made the two volumes of this mapping differ at the grain.
fn differs(event: Told, last: u32, map: u32, grain: u32) -> bool {
    let (one, other) = volumes_of(map);
    match event {
        Told::Began { map, .. } => volumes_of(map).1 == one || volumes_of(map).1 == other,
        Told::Wrote { volume, grain: own } => (volume == one || volume == other) && own == grain,
        Told::Left { target, held } => {
            (target == one || target == other) && held >> (grain % 32) & 1 == 0
        }
        Told::Cut { target } => {
            (target == one || target == other) && volumes_of(last).1 != target
        }
        Told::Forgotten { .. } => false,
    }
}

/// Whether the mapping needn't copy the grain where it starts again.
fn restarts_with(told: &[Told], map: u32, grain: u32) -> bool {
    let (one, other) = volumes_of(map);
    let Some(story) = story(told, map) else {
        return false;
    };
    let Some((place, last)) = last_trigger(story, one, other) else {
        return false;
    };
    let since = story.get(place.wrapping_add(1)..).unwrap_or(&[]);
    !since.iter().any(|event| differs(*event, last, map, grain))
}

// ---- the events

/// A row of numbers that looks random.
#[derive(Drop)]
struct Dice {
    state: u64,
}

impl Dice {
    /// The next number below the limit, which isn't 0.
    fn next(&mut self, limit: u32) -> u32
        requires { 0 < limit }
    {
        self.state = self
            .state
            .wrapping_mul(6_364_136_223_846_793_005)
            .wrapping_add(1_442_695_040_888_963_407);
        (self.state >> 40) as u32 % limit
    }
}

/// The next event.
fn next_event(dice: &mut Dice) -> Told {
    let map = dice.next(MAPPINGS);
    let (source, target) = volumes_of(map);
    match dice.next(12) {
        0 | 1 | 2 => Told::Began {
            map,
            followed: true,
        },
        3 => Told::Began {
            map,
            followed: false,
        },
        4 => Told::Forgotten { map },
        5 | 6 | 7 => Told::Wrote {
            volume: dice.next(4),
            grain: dice.next(GRAINS),
        },
        8 | 9 => Told::Left {
            target,
            held: dice.next(32),
        },
        10 => Told::Cut { target },
        _ => Told::Cut { target: source },
    }
}

/// The set of the grains whose bits are set.
fn set_of(alloc: Global, bits: u32) -> Result<GrainSet, Fail> {
    let mut set = GrainSet::new(alloc, GRAINS)?;
    for grain in 0..GRAINS {
        if grain < set.len() && bits >> (grain % 32) & 1 == 1 {
            set.set(grain);
        }
    }
    Ok(set)
}

/// Whether each row has as many grains as the set.
fn fits(changes: &Changes, set: &GrainSet) -> bool
    ensures { IsTrue result → All (λ row. length row.same ≡ length set.now) changes.now.rows }
{
    changes.table.all_have(changes.followed, set.len())
}

/// The mapping is made ready, and has a trigger.
fn begin(alloc: Global, changes: &mut Changes, map: u32) -> Result<(), NoMemory> {
    let (source, target) = volumes_of(map);
    changes.release();
    changes.make_ready(alloc, MapId(map), VolId(source), VolId(target), GRAINS)?;
    changes.began(MapId(map), VolId(source), VolId(target), true);
    Ok(())
}

/// Tells the event.
fn tell(rt: &impl Abort, alloc: Global, changes: &mut Changes, event: Told) -> Result<(), Fail> {
    match event {
        Told::Began {
            map,
            followed: true,
        } => assert!(rt; begin(alloc, changes, map).is_ok()),
        Told::Began { map, .. } => {
            let (source, target) = volumes_of(map);
            changes.began(MapId(map), VolId(source), VolId(target), false);
        }
        Told::Wrote { volume, grain } => changes.wrote(VolId(volume), grain),
        Told::Left { target, held } => {
            let held = set_of(alloc, held)?;
            assert!(rt; fits(changes, &held));
            changes.left(VolId(target), &held);
        }
        Told::Cut { target } => changes.cut(VolId(target)),
        Told::Forgotten { map } => changes.forget(MapId(map)),
    }
    Ok(())
}

/// Asserts that each mapping starts again with the grains that the plain program says.
fn compare(rt: &impl Abort, changes: &Changes, told: &[Told]) {
    for map in 0..MAPPINGS {
        let mut count = 0u32;
        for grain in 0..GRAINS {
            let has = match changes.restart(MapId(map)) {
                Some(same) => grain < same.len() && same.has(grain),
                None => false,
            };
            let wanted = restarts_with(told, map, grain);
            assert_eq!(rt; has, wanted, "grain {grain} of mapping {map}");
            count = count.wrapping_add(u32::from(wanted));
        }
        assert_eq!(rt;
            changes.restart_count(MapId(map)),
            count,
            "count of mapping {map}"
        );
    }
}

#[test]
fn generated_sequences(rt: HostRuntime) -> Result<(), Fail> {
    let alloc = rt.alloc();
    let mut dice = Dice { state: 20 };
    for _sequence in 0..3000 {
        let mut changes = Changes::new(alloc);
        let mut told = Vec::new(alloc);
        assert!(rt; changes.is_empty());
        for _step in 0..16 {
            let event = next_event(&mut dice);
            tell(&rt, alloc, &mut changes, event)?;
            told.push(event)?;
            compare(&rt, &changes, told.as_slice());
        }
    }
    Ok(())
}
