//! The text of an entry.

use crate::put_moves::put_moves;
use crate::put_reason::put_reason;
use crate::text::Text;
use fc_drawing::drawing::Drawing;
use fc_entry::entry::Entry;
use fc_entry::history::History;
use fc_entry::reply_text::put_reply;
use fc_entry::request_text::put_request;

/// Puts who asked, behind a space; nothing where it has no name.
fn put_actor(history: &History, actor: u32, text: &mut Text) {
    if (actor as usize) < history.actors() {
        text.add(b" ");
        text.add(history.actor_name(actor).as_bytes());
    }
}

/// Puts an entry as it stands in the history's line, without the line's end.
pub(crate) fn put_line(history: &History, entry: &Entry, text: &mut Text) {
    text.add_count(b"", entry.number);
    put_actor(history, entry.actor, text);
    text.add(b" ");
    let _ = put_request(&entry.request, text);
    text.add(b" -> ");
    let _ = put_reply(&entry.reply, text);
}

/// Says where the chains are those of one of several ways.
fn put_ways(ways: usize, text: &mut Text) {
    if ways > 1 {
        text.add_count(b"  the first of ", ways as u64);
        text.add(b" ways in which this may be\n");
    }
}

/// Puts what is said of an entry beside its line, a line each: why it read what it did, its moves, and, where the chains are drawn, in how
/// many ways this may be.
pub(crate) fn put_notes(drawing: Drawing<'_>, text: &mut Text) {
    put_reason(drawing, text);
    put_moves(drawing.registry, drawing.entry, drawing.sources, text);
    if drawing.shows_chains {
        put_ways(drawing.ways, text);
    }
}
