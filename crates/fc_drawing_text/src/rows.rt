//! The slots of a chain as rows of an SVG.

use crate::boxes::put_boxes;
use crate::escaped::put_escaped;
use crate::held::put_share;
use crate::names::{mapping_of, put_slot};
use crate::text::Text;
use crate::written::{LINE_HEIGHT, Spot, put_at};
use fc_drawing::chains::Chain;
use fc_drawing::drawing::Drawing;
use fc_drawing::slot::{DrawnSlot, drawn_slot};
use fc_drawing::sources::source_at;
use fc_entry::refusal_text::state_word;
use std::alloc::Global;

/// How high the head of a chain is, in pixels.
const HEAD_HEIGHT: u64 = 24;

/// How high a slot is, in pixels.
const SLOT_HEIGHT: u64 = 44;

/// Where the boxes of a slot begin below its top, in pixels.
const BOXES_TOP: u64 = 6;

/// How high chains are, in pixels.
pub(crate) fn height_of(chains: &[Chain]) -> u64 {
    let mut height: u64 = 0;
    for chain in chains {
        height = height.saturating_add(chain_height(chain));
    }
    height
}

/// How high a chain is, in pixels.
fn chain_height(chain: &Chain) -> u64 {
    let slots = chain.places().len() as u64;
    HEAD_HEIGHT.saturating_add(slots.saturating_mul(SLOT_HEIGHT))
}

/// Where the boxes of the slot stand that is the one with this number in a chain with this top.
fn boxes_top(top: u64, number: usize) -> u64 {
    top.saturating_add(HEAD_HEIGHT)
        .saturating_add((number as u64).saturating_mul(SLOT_HEIGHT))
        .saturating_add(BOXES_TOP)
}

/// Where the boxes of the slot at a place stand, where the first chain has this top. None where the place is in none of the chains.
pub(crate) fn top_of(chains: &[Chain], place: usize, first_top: u64) -> Option<u64> {
    let mut top = first_top;
    for chain in chains {
        match chain.places().iter().position(|other| *other == place) {
            Some(number) => return Some(boxes_top(top, number)),
            None => {}
        }
        top = top.saturating_add(chain_height(chain));
    }
    None
}

/// Puts the name of a slot, and whether it is live or old.
fn put_name(drawing: Drawing<'_>, place: usize, drawn: DrawnSlot<'_>, text: &mut Text) {
    put_slot(drawing.registry, source_at(drawing.sheet, place), text);
    if drawn.is_live {
        text.add(b", live");
    } else {
        text.add(b", old");
    }
}

/// Puts the mapping of a slot with its state, if it has one, and how many grains it holds.
fn put_progress(drawing: Drawing<'_>, place: usize, drawn: DrawnSlot<'_>, text: &mut Text) {
    match mapping_of(drawing.sheet, drawing.registry, place) {
        Some(mapping) => {
            text.add(b"by ");
            text.add(mapping.name.as_bytes());
            text.add(b", ");
            text.add(state_word(mapping.state));
            text.add(b", ");
        }
        None => {}
    }
    put_share(drawn.held, text);
}

/// Puts a slot, with its boxes at this height: a title, its two lines of text, and its boxes.
fn put_row(drawn: DrawnSlot<'_>, name: &[u8], progress: &[u8], top: u64, text: &mut Text) {
    text.add(b"<g role=\"img\"><title>");
    put_escaped(name, text);
    text.add(b", ");
    put_escaped(progress, text);
    text.add(b" grains</title>\n");
    let spot = Spot {
        foot: top.saturating_add(9),
        width: 290,
        fits: 40,
        style: b" font-weight=\"bold\"",
    };
    put_at(name, spot, text);
    let below = Spot {
        foot: top.saturating_add(9).saturating_add(LINE_HEIGHT),
        style: b"",
        ..spot
    };
    put_at(progress, below, text);
    put_boxes(drawn, top, text);
    text.add(b"</g>\n");
}

/// Puts the slot at a place, with its boxes at this height.
fn put_slot_row(alloc: Global, drawing: Drawing<'_>, place: usize, top: u64, text: &mut Text) {
    let drawn = drawn_slot(drawing.sheet, place);
    let mut name = Text::new(alloc);
    put_name(drawing, place, drawn, &mut name);
    let mut progress = Text::new(alloc);
    put_progress(drawing, place, drawn, &mut progress);
    text.lack_as(&name);
    text.lack_as(&progress);
    put_row(drawn, name.bytes(), progress.bytes(), top, text);
}

/// Puts the head of a chain: its number, as the text has it.
fn put_head(drawing: Drawing<'_>, chain: &Chain, top: u64, text: &mut Text) {
    match chain.places().first() {
        Some(place) => {
            text.add_count(b"<text x=\"20\" y=\"", top.saturating_add(LINE_HEIGHT));
            text.add_count(b"\" fill=\"#555\">chain ", drawing.sheet.chain(*place).0);
            text.add(b"</text>\n");
        }
        None => {}
    }
}

/// Puts a chain with this top: its head, and a row for each of its slots.
fn put_chain_rows(alloc: Global, drawing: Drawing<'_>, chain: &Chain, top: u64, text: &mut Text) {
    put_head(drawing, chain, top, text);
    let places = chain.places();
    for number in 0..places.len() {
        let place = places[number];
        put_slot_row(alloc, drawing, place, boxes_top(top, number), text);
    }
}

/// Puts chains, one below the other, the first with this top.
pub(crate) fn put_rows(
    alloc: Global,
    drawing: Drawing<'_>,
    chains: &[Chain],
    first_top: u64,
    text: &mut Text,
) {
    let mut top = first_top;
    for chain in chains {
        put_chain_rows(alloc, drawing, chain, top, text);
        top = top.saturating_add(chain_height(chain));
    }
}
