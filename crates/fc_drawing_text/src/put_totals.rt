//! The text of all moves by pair of volumes, and of the room that volumes take.

use crate::names::put_volume;
use crate::text::Text;
use fc_base::volume::Volume;
use fc_drawing::drawing::Sums;
use fc_drawing::room::room_of;
use fc_drawing::totals::PairTotal;
use fc_model::PlainSheet;
use fc_registry::Registry;

/// Puts the moves of a pair on a line of its own.
fn put_pair(registry: &Registry, pair: &PairTotal, text: &mut Text) {
    text.add(b"  ");
    match pair.from {
        Some(from) => {
            put_volume(registry, from, text);
            text.add(b" to ");
        }
        None => text.add(b"to "),
    }
    put_volume(registry, pair.to, text);
    text.add_count(b": ", pair.copied);
    text.add_count(b" copied, ", pair.in_place);
    text.add(b" in place\n");
}

/// Puts the room of a volume on a line of its own: how many of its grains one of its slots holds.
fn put_room(sheet: &PlainSheet, volume: &Volume, text: &mut Text) {
    text.add(b"  ");
    text.add(volume.name.as_bytes());
    let room = room_of(sheet, volume.id, volume.grains as usize);
    text.add_count(b": ", room as u64);
    text.add_count(b" of ", u64::from(volume.grains));
    text.add(b" grains\n");
}

/// Puts all moves by pair of volumes, and how many grains each volume takes.
pub(crate) fn put_sums(sums: Sums<'_>, text: &mut Text) {
    text.add(b"moves\n");
    for pair in sums.totals.pairs() {
        put_pair(sums.registry, pair, text);
    }
    text.add(b"room\n");
    for volume in sums.registry.all_volumes() {
        put_room(sums.sheet, volume, text);
    }
}
