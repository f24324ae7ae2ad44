//! The text of how a view ends.

use crate::text::Text;
use fc_drawing::drawing::Seen;

/// Says which entry isn't right, or at which byte no trace goes on; where all is right, nothing.
pub(crate) fn put_end(seen: Seen, text: &mut Text) {
    match seen {
        Seen::Right(_) => {}
        Seen::Wrong(number) => {
            text.add_count(b"wrong: entry ", number);
            text.add(b" isn't right after those before it\n");
        }
        Seen::Malformed(place) => {
            text.add_count(b"malformed: no trace goes on at byte ", place);
            text.add(b"\n");
        }
    }
}
