//! Slots by what joins volumes alone: a copy on which a trigger is tried.

ghost use Rattle.std.specs.Prelude.{◌≡◌, ◌<◌, length, IfOk, OnOk, IfSome};
ghost use Rattle.fc_loops.specs.Rows.{rows_of, live_row, has_row_behind, row_left, row_placed, at_row, rows_started, rows_triggered};

use fc_base::outcome::NoMemory;
use fc_base::request::Pair;
use fc_slots::slot::Slot;
use std::alloc::Global;

/// A slot without what it holds and whose it is.
#[derive(Clone, Copy)]
pub struct Row {
    pub(crate) chain: u64,
    pub(crate) volume: u32,
    pub(crate) is_live: bool,
}

/// The slots without what they hold.
pub fn copy_rows(alloc: Global, slots: &[Slot]) -> Result<Vec<Row>, NoMemory>
    ensures { IfOk result (λ rows. rows.items ≡ rows_of slots.now) }
{
    let Ok(mut rows) = Vec::with_capacity(alloc, slots.len()) else {
        return Err(NoMemory);
    };
    for slot in slots {
        let row = Row {
            chain: slot.chain(),
            volume: slot.volume(),
            is_live: slot.is_live(),
        };
        if rows.push(row).is_err() {
            return Err(NoMemory);
        }
    }
    Ok(rows)
}

/// The place of the volume's live row.
fn place_of(rows: &[Row], volume: u32) -> Option<usize>
    ensures value { result ≡ live_row rows.now volume }
    ensures bound { IfSome result (λ k. k < length rows.now) }
{
    for (place, row) in rows.iter().enumerate() {
        if row.is_live && row.volume == volume {
            return Some(place);
        }
    }
    None
}

/// Whether rows stand behind a place in its chain.
fn has_behind(rows: &[Row], place: usize) -> bool
    requires { place < length rows.now }
    ensures { result ≡ has_row_behind rows.now place }
{
    let chain = rows[place].chain;
    let mut behind = place + 1;
    while behind < rows.len() {
        if rows[behind].chain == chain {
            return true;
        }
        behind += 1;
    }
    false
}

/// A target leaves its place: its live row becomes old if rows stand behind it in its chain, and is taken out otherwise.
fn leave_place(rows: &mut Vec<Row>, place: usize)
    requires { place < length rows.old.items }
    ensures { rows.new.items ≡ row_left place rows.old.items }
{
    if has_behind(rows, place) {
        rows[place].is_live = false;
    } else {
        let _row = rows.remove(place);
    }
}

/// The volume's live row leaves its place.
fn leave(rows: &mut Vec<Row>, volume: u32)
    ensures { rows.new.items ≡ at_row row_left (live_row rows.old.items volume) rows.old.items }
{
    if let Some(place) = place_of(rows, volume) {
        leave_place(rows, place);
    }
}

/// The target gets a new live row directly behind the live row of its source.
fn put_target(rows: &mut Vec<Row>, source: u32, target: u32) -> Result<(), NoMemory>
    ensures { OnOk result (rows.new.items ≡ at_row (row_placed target) (live_row rows.old.items source) rows.old.items) }
{
    let Some(place) = place_of(rows, source) else {
        return Ok(());
    };
    let row = Row {
        chain: rows[place].chain,
        volume: target,
        is_live: true,
    };
    match rows.insert(place + 1, row) {
        Ok(()) => Ok(()),
        Err(_) => Err(NoMemory),
    }
}

/// One pair of a trigger.
fn start(rows: &mut Vec<Row>, pair: Pair) -> Result<(), NoMemory>
    ensures { OnOk result (rows.new.items ≡ rows_started rows.old.items pair) }
{
    leave(rows, pair.target.0);
    put_target(rows, pair.source.0, pair.target.0)
}

/// All pairs of a trigger, in order. Refused, a part of them may be done.
pub fn trigger_rows(rows: &mut Vec<Row>, pairs: &[Pair]) -> Result<(), NoMemory>
    ensures { OnOk result (rows.new.items ≡ rows_triggered pairs.now rows.old.items) }
{
    for pair in pairs {
        start(rows, *pair)?;
    }
    Ok(())
}
