//! What a write or a fill does, step by step.

ghost use Rattle.std.specs.Prelude.{◌≡◌, ℕ, ◌||◌, IfOk, None, cond, map};
ghost use Rattle.fc_base.specs.Sheet.{column, slot_at};
ghost use Rattle.fc_base.specs.declared.request.Side.TheVariants.{Now, Under};
ghost use Rattle.fc_entry.specs.Writes.{covers_grain, calls_of_write};
ghost use Rattle.fc_rules.specs.Steps.{reads_own, steps_of_fill, steps_of_write};
ghost use Rattle.fc_check_lane.specs.Known.{spot_in};
ghost use Rattle.fc_check_lane.specs.Steps.{step_of, after_all, CanWrite};

use crate::items::push_item;
use crate::known::Known;
use fc_base::ids::GrainNo;
use fc_base::outcome::NoMemory;
use fc_base::request::{Move, Side, WritePart};
use fc_base::size::GrainSize;
use fc_check_picture::Picture;
use fc_check_steps::Step;
use fc_model::PlainSheet;
use std::alloc::Global;

/// Whether a write covers its whole grain.
pub(crate) fn covers_grain(grain: GrainSize, part: WritePart) -> bool
    ensures { result ≡ covers_grain grain part }
{
    part.count == grain.blocks()
}

/// How many calls of disks a write makes: of a part of a grain it reads the rest first.
fn calls_of_write(grain: GrainSize, part: WritePart) -> u32
    ensures { result ≡ calls_of_write grain part }
{
    if covers_grain(grain, part) { 1 } else { 2 }
}

/// How many calls of disks a move makes: in place, and where the grain is lost, none.
fn calls_of_move(in_place: bool, lost: bool) -> u32
    ensures { result ≡ cond (in_place || lost) 0 2 }
{
    if in_place || lost { 0 } else { 2 }
}

/// A move as a step.
fn step_of(picture: &Picture<u8>, moved: Move) -> Step
    ensures { result ≡ step_of picture.now moved }
{
    let lost = picture.is_lost(moved.volume, moved.grain.0 as usize);
    let calls = calls_of_move(moved.in_place, lost);
    Step::new(moved.volume, Some(moved), calls, Side::Under)
}

/// Moves as steps, in order.
fn steps_of(alloc: Global, picture: &Picture<u8>, moves: &[Move]) -> Result<Vec<Step>, NoMemory>
    ensures { IfOk result (λ steps. steps.items ≡ map (step_of picture.now) moves.now) }
{
    let mut steps = Vec::new(alloc);
    for moved in moves {
        push_item(&mut steps, step_of(picture, *moved))?;
    }
    Ok(steps)
}

/// Makes moves, in order.
pub(crate) fn make_moves(sheet: &mut PlainSheet, moves: &[Move])
    ensures { sheet.new ≡ after_all sheet.old moves.now }
{
    for moved in moves {
        sheet.moved(moved.volume, moved.grain.0 as usize, moved.in_place);
    }
}

/// Whether the volume of a live slot reads its own grain.
fn reads_own(sheet: &PlainSheet, live: usize, grain: usize) -> bool
    ensures { result ≡ reads_own (column sheet.now.slots grain) live }
{
    match sheet.holder(live, grain) {
        Some(holder) => sheet.volume(holder).0 == sheet.volume(live).0,
        None => false,
    }
}

/// What is lost should a write fail, by whether its volume reads its own grain.
fn lost_side(own: bool) -> Side
    ensures { result ≡ cond own Now Under }
{
    if own { Side::Now } else { Side::Under }
}

/// What is lost should a write to the volume of a live slot fail after moves.
fn side_after(
    alloc: Global,
    sheet: &PlainSheet,
    moves: &[Move],
    live: usize,
    grain: usize,
) -> Result<Side, NoMemory>
    ensures { IfOk result (λ side. side ≡ cond (reads_own (column (after_all sheet.now moves.now).slots grain) live) Now Under) }
{
    let mut after = sheet.copy(alloc)?;
    make_moves(&mut after, moves);
    Ok(lost_side(reads_own(&after, live, grain)))
}

/// The write itself as a step, to the volume of a live slot.
fn own_step(sheet: &PlainSheet, live: usize, calls: u32, side: Side) -> Step
    ensures { result ≡ record { volume = (slot_at sheet.now.slots live).volume; move = None; calls = calls; side = side } }
{
    Step::new(sheet.volume(live), None, calls, side)
}

impl Known {
    /// The steps of a fill of the slot at a place.
    pub(crate) fn fill_steps(
        &self,
        alloc: Global,
        place: usize,
        number: u32,
    ) -> Result<Vec<Step>, NoMemory>
        ensures { IfOk result (λ steps. steps.items ≡ steps_of_fill (spot_in self.now number) place) }
    {
        let sheet = self.chains();
        let moves = sheet.fill_moves(alloc, place, number as usize, GrainNo(number))?;
        steps_of(alloc, self.plain(), moves.as_slice())
    }

    /// The steps of a write to the volume of a live slot.
    pub(crate) fn write_steps(
        &self,
        alloc: Global,
        part: WritePart,
        live: usize,
        number: u32,
    ) -> Result<Vec<Step>, NoMemory>
        ensures { IfOk result (λ steps. CanWrite self.now number live → steps.items ≡ steps_of_write self.now.grain (spot_in self.now number) part live) }
    {
        let sheet = self.chains();
        let grain = number as usize;
        let moves = sheet.write_moves(alloc, Some(live), grain, GrainNo(number))?;
        let side = side_after(alloc, sheet, moves.as_slice(), live, grain)?;
        let calls = calls_of_write(self.grain_size(), part);
        let mut steps = steps_of(alloc, self.plain(), moves.as_slice())?;
        push_item(&mut steps, own_step(sheet, live, calls, side))?;
        Ok(steps)
    }
}
