//! One drawing as SVG, 1,000 pixels wide, with titles that a screen reader reads.

use crate::arrows::put_arrows;
use crate::escaped::put_escaped;
use crate::put_chains::put_idles;
use crate::put_entry::{put_line, put_notes};
use crate::rows::{height_of, put_rows};
use crate::text::Text;
use crate::written::{LINE_HEIGHT, Spot, count_lines, put_at, put_lines};
use fc_drawing::chains::Chain;
use fc_drawing::drawing::Drawing;
use std::alloc::Global;

/// Where the foot of the first line below the head stands, in pixels.
const NOTES_FOOT: u64 = 52;

/// The front of an SVG, up to its height.
const OPENS: &[u8] =
    b"<svg xmlns=\"http://www.w3.org/2000/svg\" role=\"graphics-document document\" \
width=\"1000\" height=\"";

/// The end of an SVG, from the height of its last line on, which says how it is read.
const CLOSES: &[u8] =
    b"\" fill=\"#555\">A filled box is a grain that the slot holds. It reads the others at \
the nearest slot above it in its chain that holds them.</text>\n\
</svg>\n";

/// The texts of a drawing, as lines.
#[derive(Drop)]
struct Texts {
    /// The entry's line, without its end.
    line: Text,
    /// What is said of the entry.
    notes: Text,
    /// The mappings that have no slot.
    idles: Text,
}

/// Makes the texts of a drawing.
fn texts_of(alloc: Global, drawing: Drawing<'_>) -> Texts {
    let mut line = Text::new(alloc);
    put_line(drawing.history, drawing.entry, &mut line);
    let mut notes = Text::new(alloc);
    put_notes(drawing, &mut notes);
    let mut idles = Text::new(alloc);
    put_idles(drawing.sheet, drawing.registry, &mut idles);
    Texts { line, notes, idles }
}

/// How high lines of text are, in pixels.
fn lines_height(written: &[u8]) -> u64 {
    count_lines(written).saturating_mul(LINE_HEIGHT)
}

/// Puts the front of a drawing that is so high: its title, the entry's line, and what is said of it.
fn put_front(line: &[u8], notes: &[u8], height: u64, text: &mut Text) {
    text.add_count(OPENS, height);
    text.add_count(b"\" viewBox=\"0 0 1000 ", height);
    text.add(b"\" font-family=\"sans-serif\" font-size=\"13\" xml:space=\"preserve\">\n<title>");
    put_escaped(line, text);
    text.add(b", and the chains after it</title>\n");
    text.add(b"<rect width=\"100%\" height=\"100%\" fill=\"#fff\"/>\n");
    let spot = Spot {
        foot: 28,
        width: 960,
        fits: 105,
        style: b" font-size=\"16\" aria-hidden=\"true\"",
    };
    put_at(line, spot, text);
    put_lines(notes, NOTES_FOOT, text);
}

/// Puts the end of a drawing from this height on: the mappings without slots, and how it is read.
fn put_back(idles: &[u8], foot: u64, text: &mut Text) {
    put_lines(idles, foot, text);
    let last = foot.saturating_add(lines_height(idles));
    text.add_count(b"<text x=\"20\" y=\"", last);
    text.add(CLOSES);
}

/// Puts a drawing as one SVG.
pub(crate) fn put_svg(alloc: Global, drawing: Drawing<'_>, chains: &[Chain], text: &mut Text) {
    let texts = texts_of(alloc, drawing);
    text.lack_as(&texts.line);
    text.lack_as(&texts.notes);
    text.lack_as(&texts.idles);
    let notes = texts.notes.bytes();
    let idles = texts.idles.bytes();
    let first_top = NOTES_FOOT
        .saturating_add(lines_height(notes))
        .saturating_sub(LINE_HEIGHT);
    let back = first_top
        .saturating_add(height_of(chains))
        .saturating_add(LINE_HEIGHT);
    let height = back
        .saturating_add(lines_height(idles))
        .saturating_add(LINE_HEIGHT);
    put_front(texts.line.bytes(), notes, height, text);
    put_rows(alloc, drawing, chains, first_top, text);
    put_arrows(alloc, drawing, chains, first_top, text);
    put_back(idles, back, text);
}
