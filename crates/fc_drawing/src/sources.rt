//! From whom moves copy.

ghost use Rattle.std.specs.Prelude.{◌≡◌, ◌++◌, [], ◌∷◌, IfOk, OnOk, Option};
ghost use Rattle.fc_base.specs.Sheet.{birth_place};
ghost use Rattle.fc_drawing.specs.Sources.{all_made, holder_at, source_at, source_of, sources_of};

use fc_base::ids::{SlotId, VolId};
use fc_base::outcome::NoMemory;
use fc_base::request::Move;
use fc_model::PlainSheet;
use std::alloc::Global;

/// What names a slot.
#[derive(Clone, Copy, PartialEq, Eq)]
pub struct Source {
    /// Its birth.
    pub slot: SlotId,
    /// Its volume.
    pub volume: VolId,
    /// Whether it is live.
    pub is_live: bool,
}

/// What names the slot at a place.
pub fn source_at(sheet: &PlainSheet, place: usize) -> Source
    ensures { result ≡ source_at sheet.now.slots place }
{
    Source {
        slot: sheet.slot(place),
        volume: sheet.volume(place),
        is_live: sheet.is_live(place),
    }
}

/// The place of the slot from which a move copies: the holder of its own slot. None where its slot isn't there, or has no holder.
fn place_of_source(sheet: &PlainSheet, made: Move) -> Option<usize>
    ensures { result ≡ holder_at sheet.now.slots made.grain.0 (birth_place sheet.now.slots made.slot.0) }
{
    match sheet.slot_place(made.slot) {
        Some(place) => sheet.holder(place, made.grain.0 as usize),
        None => None,
    }
}

/// The slot from which a move copies.
fn source_of(sheet: &PlainSheet, made: Move) -> Option<Source>
    ensures { result ≡ source_of sheet.now made }
{
    match place_of_source(sheet, made) {
        Some(place) => Some(source_at(sheet, place)),
        None => None,
    }
}

/// Puts a source at the end.
fn push_source(sources: &mut Vec<Option<Source>>, source: Option<Source>) -> Result<(), NoMemory>
    ensures { OnOk result (sources.new.items ≡ sources.old.items ++ source ∷ []) }
{
    match sources.push(source) {
        Ok(()) => Ok(()),
        Err(_) => Err(NoMemory),
    }
}

/// Makes moves one after the other, and answers from whom each copies: from the holder of its slot as the ones before it left the
/// chains. Refused for want of memory, the sheet may stand for anything.
pub fn make_moves(
    alloc: Global,
    sheet: &mut PlainSheet,
    moves: &[Move],
) -> Result<Vec<Option<Source>>, NoMemory>
    ensures sources { IfOk result (λ sources. sources.items ≡ sources_of sheet.old moves.now) }
    ensures made { OnOk result (sheet.new ≡ all_made sheet.old moves.now) }
{
    let mut sources = Vec::new(alloc);
    for made in moves {
        push_source(&mut sources, source_of(sheet, *made))?;
        sheet.moved(made.volume, made.grain.0 as usize, made.in_place);
    }
    Ok(sources)
}
