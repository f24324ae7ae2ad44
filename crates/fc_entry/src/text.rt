//! The text of an entry, and of the whole history.

ghost use Rattle.std.specs.Prelude.{◌<◌, ◌≤◌, ◌++◌, length, drop, codes, decimal, is_err, slice_get, IfSome};
ghost use Rattle.std.specs.List.{flat_map};
ghost use Rattle.std.specs.Option.{ForSome};
ghost use Rattle.fc_entry.specs.Text.{HasNames, entry_line, entry_text, history_text, line_text};
ghost use Rattle.fc_entry.specs.Written.{Written};

use crate::entry::Entry;
use crate::history::History;
use crate::parts::{put_all, put_text};
use crate::reply_text::{put_reply, put_reply_rows};
use crate::request_text::put_request;
use fc_base::outcome::Failed;
use fc_io::sink::Sink;
use itoa::Buffer;

/// Puts what stands before the request: the entry's number and the actor's name.
fn put_head<K: Sink>(number: u64, actor: &[u8], sink: &mut K) -> Result<(), Failed>
    ensures { Written (K.meaning sink.old) (decimal number ++ codes " " ++ actor.now ++ codes " ") (is_err result)
        (K.meaning sink.new) }
{
    let mut digits = Buffer::new();
    put_all(sink, &[digits.format(number).as_bytes(), b" ", actor, b" "])
}

/// Puts the line of an entry of the actor with this name.
fn put_line_by<K: Sink>(actor: &[u8], entry: &Entry, sink: &mut K) -> Result<(), Failed>
    ensures { Written (K.meaning sink.old) (line_text actor.now entry.now) (is_err result) (K.meaning sink.new) }
{
    put_head(entry.number, actor, sink)?;
    put_request(&entry.request, sink)?;
    put_text(sink, b" -> ")?;
    put_reply(&entry.reply, sink)?;
    put_text(sink, b"\n")
}

/// Puts the line of the entry with this number, without the rows of its report. Its actor needs a name. Takes no memory.
/// Failed, a front of the line was added, and the sink's count of faults rose in this call or stands at its last value.
pub fn put_line<K: Sink>(history: &History, index: usize, sink: &mut K) -> Result<(), Failed>
    requires within { index < length history.now.entries }
    requires named { ForSome (slice_get history.now.entries index) (λ entry. entry.actor < length history.now.actors) }
    ensures { IfSome (slice_get history.now.entries index) (λ entry.
        Written (K.meaning sink.old) (entry_line history.now.actors entry) (is_err result) (K.meaning sink.new)) }
{
    let entry = history.entry(index);
    let actor = history.actor_name(entry.actor);
    put_line_by(actor.as_bytes(), entry, sink)
}

/// Puts the text of the entry with this number: its line, and behind it the rows of its report. Its actor needs a
/// name. Takes no memory. Failed, a front of the text was added, and the sink's count of faults rose in this call or
/// stands at its last value.
pub fn put_entry<K: Sink>(history: &History, index: usize, sink: &mut K) -> Result<(), Failed>
    requires within { index < length history.now.entries }
    requires named { ForSome (slice_get history.now.entries index) (λ entry. entry.actor < length history.now.actors) }
    ensures { IfSome (slice_get history.now.entries index) (λ entry.
        Written (K.meaning sink.old) (entry_text history.now.actors entry) (is_err result) (K.meaning sink.new)) }
{
    let entry = history.entry(index);
    put_line(history, index, sink)?;
    put_reply_rows(&entry.reply, sink)
}

/// Puts the texts of the entries from number `from` on, in order. Each actor needs a name. Takes no memory. Failed, a
/// front of these texts was added, and the sink's count of faults rose in this call or stands at its last value.
pub fn put_entries<K: Sink>(history: &History, from: usize, sink: &mut K) -> Result<(), Failed>
    requires within { from ≤ length history.now.entries }
    requires named { HasNames history.now }
    ensures { Written (K.meaning sink.old) (flat_map (entry_text history.now.actors) (drop from history.now.entries))
        (is_err result) (K.meaning sink.new) }
{
    for index in from..history.len() {
        match put_entry(history, index, sink) {
            Ok(()) => {}
            Err(failed) => return Err(failed),
        }
    }
    Ok(())
}

/// Puts the texts of all entries, in order. Each actor needs a name. Takes no memory. Failed, a front of the whole
/// text was added, and the sink's count of faults rose in this call or stands at its last value.
pub fn put_history<K: Sink>(history: &History, sink: &mut K) -> Result<(), Failed>
    requires { HasNames history.now }
    ensures { Written (K.meaning sink.old) (history_text history.now) (is_err result) (K.meaning sink.new) }
{
    put_entries(history, 0, sink)
}
