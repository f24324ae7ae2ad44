//! The moves of an entry as arrows of an SVG.

use crate::boxes::{BOX_HEIGHT, left_of};
use crate::escaped::put_escaped;
use crate::put_moves::{put_way, source_from};
use crate::rows::top_of;
use crate::text::Text;
use fc_base::ids::SlotId;
use fc_base::request::Move;
use fc_drawing::chains::Chain;
use fc_drawing::drawing::Drawing;
use fc_drawing::sources::Source;
use std::alloc::Global;

/// What arrows begin with, a dot, and what they end with, a tip.
const MARKS: &[u8] = b"<defs>\n\
<marker id=\"from\" markerWidth=\"4\" markerHeight=\"4\" refX=\"2\" refY=\"2\">\
<circle cx=\"2\" cy=\"2\" r=\"1.5\" fill=\"#111\"/></marker>\n\
<marker id=\"to\" markerWidth=\"5\" markerHeight=\"4\" refX=\"4\" refY=\"2\" orient=\"auto\">\
<path d=\"M0 0L5 2L0 4z\" fill=\"#111\"/></marker>\n\
</defs>\n";

/// An arrow from one height to another, so far from the left.
#[derive(Clone, Copy)]
struct Arrow {
    left: u64,
    from: u64,
    to: u64,
    in_place: bool,
}

/// The height of the middle of a slot's boxes, if it stands in one of the chains.
fn middle_of(drawing: Drawing<'_>, chains: &[Chain], slot: SlotId, first_top: u64) -> Option<u64> {
    let place = drawing.sheet.slot_place(slot)?;
    let top = top_of(chains, place, first_top)?;
    Some(top.saturating_add(BOX_HEIGHT / 2))
}

/// How far from the left the arrow stands of the move with this index: in the middle of its grain, those of several moves beside each
/// other.
fn arrow_left(drawing: Drawing<'_>, made: Move, index: usize) -> u64 {
    let grain = made.grain.0 as usize;
    let grains = match drawing.sheet.slot_place(made.slot) {
        Some(place) => drawing.sheet.grains(place),
        None => 0,
    };
    let left = left_of(grain, grains);
    let width = left_of(grain.saturating_add(1), grains).saturating_sub(left);
    left.saturating_add(width / 2)
        .saturating_add((index as u64).saturating_mul(8))
        .min(976)
}

/// The arrow of the move with this index, if both its slots stand in the chains.
fn arrow_of(
    drawing: Drawing<'_>,
    chains: &[Chain],
    made: Move,
    index: usize,
    from: Option<Source>,
    first_top: u64,
) -> Option<Arrow> {
    let source = from?;
    Some(Arrow {
        left: arrow_left(drawing, made, index),
        from: middle_of(drawing, chains, source.slot, first_top)?,
        to: middle_of(drawing, chains, made.slot, first_top)?,
        in_place: made.in_place,
    })
}

/// Puts an arrow with this title; where nothing was copied it is broken.
fn put_arrow(arrow: Arrow, title: &[u8], text: &mut Text) {
    text.add(b"<g role=\"img\"><title>");
    put_escaped(title, text);
    text.add_count(b"</title>\n<path d=\"M", arrow.left);
    text.add_count(b" ", arrow.from);
    text.add_count(b"V", arrow.to);
    text.add(b"\" stroke=\"#111\" stroke-width=\"2\"");
    if arrow.in_place {
        text.add(b" stroke-dasharray=\"4 3\"");
    }
    text.add(b" marker-start=\"url(#from)\" marker-end=\"url(#to)\"/>\n</g>\n");
}

/// Puts the arrow of a move, with what it moves as its title.
fn put_move_arrow(
    alloc: Global,
    drawing: Drawing<'_>,
    made: Move,
    from: Option<Source>,
    arrow: Arrow,
    text: &mut Text,
) {
    let mut title = Text::new(alloc);
    put_way(drawing.registry, made, from, &mut title);
    text.lack_as(&title);
    put_arrow(arrow, title.bytes(), text);
}

/// Puts an arrow for each move of the entry, from the slot that it copied to its own, where the first chain has this top.
pub(crate) fn put_arrows(
    alloc: Global,
    drawing: Drawing<'_>,
    chains: &[Chain],
    first_top: u64,
    text: &mut Text,
) {
    let moves = drawing.entry.moves.as_slice();
    if moves.is_empty() {
        return;
    }
    text.add(MARKS);
    for index in 0..moves.len() {
        let made = moves[index];
        let from = source_from(drawing.sources, index);
        match arrow_of(drawing, chains, made, index, from, first_top) {
            Some(arrow) => put_move_arrow(alloc, drawing, made, from, arrow, text),
            None => {}
        }
    }
}
