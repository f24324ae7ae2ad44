//! The text of moves: from whom to whom, and for whom each was owed.

use crate::names::{put_slot, put_volume};
use crate::text::Text;
use fc_base::ids::VolId;
use fc_base::request::{Move, Request};
use fc_drawing::sources::Source;
use fc_entry::entry::Entry;
use fc_registry::Registry;

/// Why a move was made.
#[derive(Clone, Copy, PartialEq, Eq)]
enum Owed {
    /// A host's write of this volume was to come.
    Write(VolId),
    /// A copy to this volume was to come, which overwrites what the move's slot read.
    Copy(VolId),
    /// It is what was asked for.
    Asked,
}

/// What a move before these, which copied from this volume, was owed to: the next copy to that volume; where there is none, the
/// write of the entry, or else the last move, which is what was asked for.
fn owed_to(request: &Request, later: &[Move], from: Option<Source>) -> Owed {
    for made in later {
        match from {
            Some(source) => {
                if made.volume == source.volume && !made.in_place {
                    return Owed::Copy(made.volume);
                }
            }
            None => {}
        }
    }
    match request {
        Request::Write(part) => Owed::Write(part.volume),
        _ => match later.last() {
            Some(last) => Owed::Copy(last.volume),
            None => Owed::Asked,
        },
    }
}

/// Puts what a move was owed to.
fn put_owed(registry: &Registry, owed: Owed, text: &mut Text) {
    match owed {
        Owed::Write(volume) => {
            text.add(b", before the write of ");
            put_volume(registry, volume, text);
        }
        Owed::Copy(volume) => {
            text.add(b", before the copy to ");
            put_volume(registry, volume, text);
        }
        Owed::Asked => text.add(b", as asked"),
    }
}

/// Puts a move: its grain, from whom to whom, and whether it was in place.
pub(crate) fn put_way(registry: &Registry, made: Move, from: Option<Source>, text: &mut Text) {
    text.add_count(b"move grain ", u64::from(made.grain.0));
    match from {
        Some(source) => {
            text.add(b" from ");
            put_slot(registry, source, text);
        }
        None => {}
    }
    text.add(b" to ");
    let to = Source {
        slot: made.slot,
        volume: made.volume,
        is_live: true,
    };
    put_slot(registry, to, text);
    if made.in_place {
        text.add(b", in place");
    }
}

/// Puts a move on a line of its own.
fn put_move(registry: &Registry, made: Move, from: Option<Source>, owed: Owed, text: &mut Text) {
    text.add(b"  ");
    put_way(registry, made, from, text);
    put_owed(registry, owed, text);
    text.add(b"\n");
}

/// The slot from which the move with this index copied, if there is one.
pub(crate) fn source_from(sources: &[Option<Source>], index: usize) -> Option<Source> {
    if index < sources.len() {
        sources[index]
    } else {
        None
    }
}

/// Puts the moves of an entry, in order; `sources` says from whom each copied.
pub(crate) fn put_moves(
    registry: &Registry,
    entry: &Entry,
    sources: &[Option<Source>],
    text: &mut Text,
) {
    let moves = entry.moves.as_slice();
    for index in 0..moves.len() {
        let from = source_from(sources, index);
        let owed = owed_to(&entry.request, &moves[index + 1..], from);
        put_move(registry, moves[index], from, owed, text);
    }
}
