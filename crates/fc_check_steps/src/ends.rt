//! Where an entry ended among steps.

ghost use Rattle.std.specs.Prelude.{◌≡◌, ◌↔◌, ℕ, ◌+◌, ◌<◌, ◌++◌, IsTrue, IfOk, OnOk, MatchOption, option_to_list, length};
ghost use Rattle.fc_rules.specs.Steps.{moves_of, calls_of_steps};
ghost use Rattle.fc_check_steps.specs.Steps.{EndFound, ExtraFound, FailsWith, FailsAt, WantsWith, WantsAt, torn_at};

use crate::step::{Step, same_moves, same_torn};
use crate::volume::{LaneVolume, is_thin};
use fc_base::ids::GrainNo;
use fc_base::outcome::NoMemory;
use fc_base::request::{Move, Torn};
use fc_entry::entry::Entry;
use std::alloc::Global;

/// Puts a move at the end, if there is one.
fn push_move(moves: &mut Vec<Move>, moved: Option<Move>) -> Result<(), NoMemory>
    ensures { OnOk result (moves.new.items ≡ moves.old.items ++ option_to_list moved) }
{
    match moved {
        Some(moved) => match moves.push(moved) {
            Ok(()) => Ok(()),
            Err(_) => Err(NoMemory),
        },
        None => Ok(()),
    }
}

/// The moves of steps, in order.
fn moves_of(alloc: Global, steps: &[Step]) -> Result<Vec<Move>, NoMemory>
    ensures { IfOk result (λ moves. moves.items ≡ moves_of steps.now) }
{
    let mut moves = Vec::new(alloc);
    for step in steps {
        push_move(&mut moves, step.moved())?;
    }
    Ok(moves)
}

/// Whether an entry's moves are those of steps, one by one.
pub(crate) fn has_moves_of(alloc: Global, steps: &[Step], entry: &Entry) -> Result<bool, NoMemory>
    ensures { IfOk result (λ yes. IsTrue yes ↔ (entry.now.moves ≡ moves_of steps.now)) }
{
    let moves = moves_of(alloc, steps)?;
    Ok(same_moves(entry.moves.as_slice(), moves.as_slice()))
}

/// How many of so many calls are left when steps made theirs; None exactly where they make more.
pub(crate) fn calls_left(steps: &[Step], calls: u32) -> Option<u32>
    ensures { MatchOption result (calls < calls_of_steps steps.now) (λ left. left + calls_of_steps steps.now ≡ calls) }
{
    let mut left = calls;
    for step in steps {
        let own = step.calls();
        if left < own {
            return None;
        }
        left -= own;
    }
    Some(left)
}

/// Whether an entry made as many calls as steps make.
pub(crate) fn has_calls_of(steps: &[Step], entry: &Entry) -> bool
    ensures { IsTrue result ↔ (entry.now.calls ≡ calls_of_steps steps.now) }
{
    match calls_left(steps, entry.calls) {
        Some(left) => left == 0,
        None => false,
    }
}

/// How many of an entry's calls are those of a step that makes at most `own`, after all calls of these steps; None exactly
/// where they can't be, or where not all moves of these steps were made.
fn extra_after(moved: bool, steps: &[Step], own: u32, calls: u32) -> Option<u32>
    ensures { ExtraFound moved (calls_of_steps steps.now) own calls result }
{
    if !moved {
        return None;
    }
    match calls_left(steps, calls) {
        Some(left) => { if left <= own { Some(left) } else { None } }
        None => None,
    }
}

/// How many calls of the step at a place an entry made, where its moves are those of the steps before it and it made all of
/// their calls; None exactly where it didn't end so.
fn extra_at(
    alloc: Global,
    steps: &[Step],
    index: usize,
    entry: &Entry,
) -> Result<Option<u32>, NoMemory>
    requires { index < length steps.now }
    ensures { IfOk result (λ found. EndFound steps.now index entry.now found) }
{
    let before = &steps[..index];
    let moved = has_moves_of(alloc, before, entry)?;
    let step = &steps[index];
    Ok(extra_after(moved, before, step.calls(), entry.calls))
}

/// What a failed call leaves torn: the step's grain, where the call was the step's last.
fn torn_by(step: &Step, number: u32, extra: u32) -> Option<Torn>
    ensures { result ≡ torn_at number step.now extra }
{
    if extra == step.calls() {
        Some(Torn {
            volume: step.volume(),
            grain: GrainNo(number),
            side: step.side(),
        })
    } else {
        None
    }
}

/// Whether the calls that an entry made of a step, if it ended there, failed.
fn fails_with(number: u32, step: &Step, found: Option<u32>, entry: &Entry) -> bool
    ensures { IsTrue result ↔ FailsWith number step.now found entry.now }
{
    match found {
        Some(extra) => extra >= 1 && same_torn(entry.torn, torn_by(step, number, extra)),
        None => false,
    }
}

/// Whether a call of the step at a place failed.
fn fails_at(
    alloc: Global,
    number: u32,
    steps: &[Step],
    index: usize,
    entry: &Entry,
) -> Result<bool, NoMemory>
    requires { index < length steps.now }
    ensures { IfOk result (λ yes. IsTrue yes ↔ FailsAt number steps.now entry.now index) }
{
    let found = extra_at(alloc, steps, index, entry)?;
    let step = &steps[index];
    Ok(fails_with(number, step, found, entry))
}

/// Whether a call of some step failed.
pub(crate) fn fails_somewhere(
    alloc: Global,
    number: u32,
    steps: &[Step],
    entry: &Entry,
) -> Result<bool, NoMemory>
    ensures { IfOk result (λ yes. IsTrue yes ↔ ((i : ℕ) × FailsAt number steps.now entry.now i)) }
{
    for index in 0..steps.len() {
        let here = fails_at(alloc, number, steps, index, entry)?;
        if here {
            return Ok(true);
        }
    }
    Ok(false)
}

/// Whether a step at which an entry ended, if it did, is of a thin volume.
fn wants_with(volumes: &[LaneVolume], step: &Step, found: Option<u32>) -> bool
    ensures { IsTrue result ↔ WantsWith volumes.now step.now found }
{
    match found {
        Some(_) => is_thin(volumes, step.volume()),
        None => false,
    }
}

/// Whether the step at a place wanted memory: it is of a thin volume.
fn wants_at(
    alloc: Global,
    volumes: &[LaneVolume],
    steps: &[Step],
    index: usize,
    entry: &Entry,
) -> Result<bool, NoMemory>
    requires { index < length steps.now }
    ensures { IfOk result (λ yes. IsTrue yes ↔ WantsAt volumes.now steps.now entry.now index) }
{
    let found = extra_at(alloc, steps, index, entry)?;
    let step = &steps[index];
    Ok(wants_with(volumes, step, found))
}

/// Whether some step wanted memory.
pub(crate) fn wants_somewhere(
    alloc: Global,
    volumes: &[LaneVolume],
    steps: &[Step],
    entry: &Entry,
) -> Result<bool, NoMemory>
    ensures { IfOk result (λ yes. IsTrue yes ↔ ((i : ℕ) × WantsAt volumes.now steps.now entry.now i)) }
{
    for index in 0..steps.len() {
        let here = wants_at(alloc, volumes, steps, index, entry)?;
        if here {
            return Ok(true);
        }
    }
    Ok(false)
}
