//! Grains as boxes of an SVG.

use crate::text::Text;
use fc_drawing::slot::DrawnSlot;

/// Where the grains of a slot begin, and how wide all of them are, in pixels.
const GRAINS_LEFT: u64 = 320;

const GRAINS_WIDTH: u64 = 660;

/// How high the box of a grain is, in pixels.
pub(crate) const BOX_HEIGHT: u64 = 24;

/// The most grains between which lines are put.
const MOST_LINES: usize = 64;

/// How far from the left a grain begins, among so many.
pub(crate) fn left_of(grain: usize, grains: usize) -> u64 {
    let all = (grains as u64).max(1);
    let before = (grain as u64).min(all);
    GRAINS_LEFT.saturating_add(before.saturating_mul(GRAINS_WIDTH) / all)
}

/// The place of the next grain from here on that is held or isn't, as asked; the end where there is none.
fn next_with(held: &[bool], from: usize, mark: bool) -> usize {
    for place in from..held.len() {
        if held[place] == mark {
            return place;
        }
    }
    held.len()
}

/// Puts a box over grains from one place to before another.
fn put_box(first: usize, end: usize, grains: usize, top: u64, paint: &[u8], text: &mut Text) {
    let left = left_of(first, grains);
    let width = left_of(end, grains).saturating_sub(left).max(1);
    text.add_count(b"<rect x=\"", left);
    text.add_count(b"\" y=\"", top);
    text.add_count(b"\" width=\"", width);
    text.add_count(b"\" height=\"", BOX_HEIGHT);
    text.add(b"\" ");
    text.add(paint);
    text.add(b"/>\n");
}

/// How the grains are painted that a live or an old slot holds.
fn paint_of(is_live: bool) -> &'static [u8] {
    if is_live {
        b"fill=\"#1b6ca8\""
    } else {
        b"fill=\"#d9a441\""
    }
}

/// How the frame around all grains of a live or an old slot is painted.
fn frame_of(is_live: bool) -> &'static [u8] {
    if is_live {
        b"fill=\"none\" stroke=\"#333\""
    } else {
        b"fill=\"none\" stroke=\"#333\" stroke-dasharray=\"5 3\""
    }
}

/// Puts a box for each run of grains that the slot holds.
fn put_held_boxes(drawn: DrawnSlot<'_>, top: u64, text: &mut Text) {
    let grains = drawn.held.len();
    let mut from = next_with(drawn.held, 0, true);
    for _ in 0..grains {
        if from >= grains {
            return;
        }
        let end = next_with(drawn.held, from, false);
        put_box(from, end, grains, top, paint_of(drawn.is_live), text);
        from = next_with(drawn.held, end, true);
    }
}

/// Puts a line between two grains.
fn put_stroke(grain: usize, grains: usize, top: u64, text: &mut Text) {
    text.add_count(b"M", left_of(grain, grains));
    text.add_count(b" ", top);
    text.add_count(b"v", BOX_HEIGHT);
}

/// Puts the lines between few grains.
fn put_strokes(grains: usize, top: u64, text: &mut Text) {
    if grains < 2 || grains > MOST_LINES {
        return;
    }
    text.add(b"<path d=\"");
    for grain in 1..grains {
        put_stroke(grain, grains, top, text);
    }
    text.add(b"\" stroke=\"#999\"/>\n");
}

/// Puts the grains of a slot: a frame around all of them, a filled box for those that it holds, and lines between few.
pub(crate) fn put_boxes(drawn: DrawnSlot<'_>, top: u64, text: &mut Text) {
    let grains = drawn.held.len();
    put_held_boxes(drawn, top, text);
    put_strokes(grains, top, text);
    put_box(0, grains, grains, top, frame_of(drawn.is_live), text);
}
