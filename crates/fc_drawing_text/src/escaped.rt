//! Text within SVG.

use crate::text::Text;

/// Adds a byte; what XML takes for its own by its name there.
fn put_escaped_byte(byte: u8, text: &mut Text) {
    match byte {
        b'&' => text.add(b"&amp;"),
        b'<' => text.add(b"&lt;"),
        b'>' => text.add(b"&gt;"),
        b'"' => text.add(b"&quot;"),
        _ => text.add_byte(byte),
    }
}

/// Adds what was written so that XML reads it as it is, whatever printable bytes it has.
pub(crate) fn put_escaped(written: &[u8], text: &mut Text) {
    for byte in written {
        put_escaped_byte(*byte, text);
    }
}
