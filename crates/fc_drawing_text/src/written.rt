//! Lines of text in an SVG.

use crate::escaped::put_escaped;
use crate::text::Text;

/// How far from the left text begins, in pixels.
pub(crate) const TEXT_LEFT: u64 = 20;

/// How high a line of text is, in pixels.
pub(crate) const LINE_HEIGHT: u64 = 18;

/// How many lines a text has: one for each line end.
pub(crate) fn count_lines(written: &[u8]) -> u64 {
    let mut count: u64 = 0;
    for byte in written {
        if *byte == b'\n' {
            count = count.saturating_add(1);
        }
    }
    count
}

/// The first line of a text, and what stands behind its end.
fn split_line(written: &[u8]) -> (&[u8], &[u8]) {
    match written.iter().position(|byte| *byte == b'\n') {
        Some(end) => (&written[..end], &written[end + 1..]),
        None => (written, b""),
    }
}

/// A place for a line of text.
#[derive(Clone, Copy)]
pub(crate) struct Spot<'a> {
    /// How far from the top its foot stands, in pixels.
    pub foot: u64,
    /// How wide it is at most, in pixels.
    pub width: u64,
    /// How many bytes fit there as they are.
    pub fits: usize,
    /// Further attributes of its element, each behind a space.
    pub style: &'a [u8],
}

/// Puts what is seen of a line in a spot: all of it, narrowed where more than half of it is too much; of one that is longer than twice of
/// what fits its front, with two points behind it.
fn put_fitting(line: &[u8], spot: Spot<'_>, text: &mut Text) {
    if line.len() <= spot.fits {
        text.add(b">");
        put_escaped(line, text);
        return;
    }
    text.add_count(b" textLength=\"", spot.width);
    text.add(b"\" lengthAdjust=\"spacingAndGlyphs\">");
    let most = spot.fits.saturating_mul(2);
    if line.len() <= most {
        put_escaped(line, text);
        return;
    }
    put_escaped(&line[..most], text);
    text.add(b"..");
}

/// Puts a line in a spot.
pub(crate) fn put_at(line: &[u8], spot: Spot<'_>, text: &mut Text) {
    text.add_count(b"<text x=\"", TEXT_LEFT);
    text.add_count(b"\" y=\"", spot.foot);
    text.add(b"\"");
    text.add(spot.style);
    put_fitting(line, spot, text);
    text.add(b"</text>\n");
}

/// Puts each line of what was written, one below the other, the first with its foot at this height.
pub(crate) fn put_lines(written: &[u8], foot: u64, text: &mut Text) {
    let mut rest = written;
    for number in 0..count_lines(written) {
        let (line, next) = split_line(rest);
        let spot = Spot {
            foot: foot.saturating_add(number.saturating_mul(LINE_HEIGHT)),
            width: 960,
            fits: 140,
            style: b"",
        };
        put_at(line, spot, text);
        rest = next;
    }
}
