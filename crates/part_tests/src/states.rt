//! Every cell of the tables of states and of access, against tables written by hand.

ghost use Rattle.std.specs.Prelude.{◌≡◌, IsTrue};

use fc_base::fault::Refusal;
use fc_base::ids::MapId;
use fc_base::state::{Access, MapEvent, MapState};
use fc_states::{access, next};
use std::process::Abort;

const STATES: [MapState; 7] = [
    MapState::IdleOrCopied,
    MapState::Stopped,
    MapState::Preparing,
    MapState::Prepared,
    MapState::Copying,
    MapState::Stopping,
    MapState::Empty,
];

const EVENTS: [MapEvent; 10] = [
    MapEvent::Prepare,
    MapEvent::Start,
    MapEvent::StartPrep,
    MapEvent::Stop,
    MapEvent::StopSplit,
    MapEvent::StopForce,
    MapEvent::Remove,
    MapEvent::RemoveForce,
    MapEvent::Supersede,
    MapEvent::Finish,
];

/// A row for each of `STATES`, in it a word for each of `EVENTS`, in it a letter for: neither, needed, complete, both.
/// The letters: i idle_or_copied, p prepared, c copying, s stopping, o stopped; P not prepared, A not allowed in the
/// state, F needs force; - isn't asked for.
const NEXT: [[[u8; 4]; 10]; 7] = [
    [
        *b"pppp", *b"PPPP", *b"cccc", *b"AAAA", *b"AAAA", *b"AAAA", *b"iiii", *b"iiii", *b"AAAA",
        *b"AAAA",
    ],
    [
        *b"pppp", *b"PPPP", *b"cccc", *b"AAAA", *b"AAAA", *b"AAAA", *b"FFFF", *b"iiii", *b"iiii",
        *b"AAAA",
    ],
    [
        *b"AAAA", *b"AAAA", *b"AAAA", *b"oooo", *b"AAAA", *b"oooo", *b"AAAA", *b"AAAA", *b"AAAA",
        *b"AAAA",
    ],
    [
        *b"AAAA", *b"cccc", *b"AAAA", *b"oooo", *b"AAAA", *b"oooo", *b"AAAA", *b"AAAA", *b"AAAA",
        *b"AAAA",
    ],
    [
        *b"AAAA", *b"AAAA", *b"AAAA", *b"osos", *b"--ii", *b"ooii", *b"AAAA", *b"AAAA", *b"AAAA",
        *b"AAiA",
    ],
    [
        *b"AAAA", *b"AAAA", *b"AAAA", *b"AAAA", *b"AAAA", *b"ooii", *b"AAAA", *b"AAAA", *b"AAAA",
        *b"oAiA",
    ],
    [
        *b"AAAA", *b"AAAA", *b"AAAA", *b"AAAA", *b"AAAA", *b"AAAA", *b"AAAA", *b"AAAA", *b"AAAA",
        *b"AAAA",
    ],
];

/// The letter of an outcome in `state`.
fn letter(outcome: &Result<MapState, Refusal>, state: MapState) -> u8 {
    match outcome {
        Ok(MapState::IdleOrCopied) => b'i',
        Ok(MapState::Prepared) => b'p',
        Ok(MapState::Copying) => b'c',
        Ok(MapState::Stopping) => b's',
        Ok(MapState::Stopped) => b'o',
        Err(Refusal::NotPrepared) => b'P',
        Err(Refusal::NotAllowed(told)) if *told == state => b'A',
        Err(Refusal::NeedsForce) => b'F',
        _ => b'?',
    }
}

/// Whether a cell is asked for: a split of an incomplete copy isn't.
fn is_asked(state: MapState, event: MapEvent, complete: bool) -> bool
    ensures { IsTrue result → state ≡ MapState.Copying → event ≡ MapEvent.StopSplit → IsTrue complete }
{
    match (state, event) {
        (MapState::Copying, MapEvent::StopSplit) => complete,
        _ => true,
    }
}

/// The letter of a cell: - where it isn't asked for.
fn cell_of(state: MapState, event: MapEvent, complete: bool, needed: bool) -> u8 {
    if is_asked(state, event, complete) {
        letter(&next(state, event, complete, needed), state)
    } else {
        b'-'
    }
}

/// The letter of a cell is the one that is wanted there.
fn expect_letter(
    rt: &impl Abort,
    letter: u8,
    wanted: u8,
    state: MapState,
    event: MapEvent,
    place: usize,
) {
    assert_eq!(rt; letter, wanted, "{state:?} {event:?} {place}");
}

#[test]
fn every_cell_of_the_state_table(rt: HostRuntime) {
    for (state, row) in STATES.iter().zip(NEXT.iter()) {
        for (event, cell) in EVENTS.iter().zip(row.iter()) {
            for (place, wanted) in cell.iter().enumerate() {
                let letter = cell_of(*state, *event, place >= 2, place % 2 == 1);
                expect_letter(&rt, letter, *wanted, *state, *event, place);
            }
        }
    }
}

/// For each of `STATES`: o online, x offline in that state, p not accessible; where incomplete, and where complete.
const ACCESS: [[u8; 2]; 7] = [*b"oo", *b"xx", *b"pp", *b"pp", *b"oo", *b"xo", *b"oo"];

/// The letter of the access to a target in `state`.
fn access_letter(map: MapId, state: MapState, complete: bool) -> u8 {
    match access(map, state, complete) {
        Access::Online => b'o',
        Access::Offline {
            map: told,
            state: why,
        } if told == map && why == state => b'x',
        Access::NotAccessible { map: told } if told == map => b'p',
        _ => b'?',
    }
}

/// The letter of an access is the one that is wanted there.
fn expect_access(rt: &impl Abort, letter: u8, wanted: u8, state: MapState, place: usize) {
    assert_eq!(rt; letter, wanted, "{state:?} {place}");
}

#[test]
fn every_cell_of_the_access_table(rt: HostRuntime) {
    for (state, row) in STATES.iter().zip(ACCESS.iter()) {
        for (place, wanted) in row.iter().enumerate() {
            let letter = access_letter(MapId(3), *state, place == 1);
            expect_access(&rt, letter, *wanted, *state, place);
        }
    }
}
