//! How volumes, slots, mappings and entries are named in a drawing.

use crate::text::Text;
use fc_base::ids::VolId;
use fc_base::volume::Mapping;
use fc_drawing::sources::Source;
use fc_entry::history::History;
use fc_entry::request_text::put_request;
use fc_model::PlainSheet;
use fc_registry::Registry;

/// Adds the name of a volume; of one that is no more, its id.
pub(crate) fn put_volume(registry: &Registry, volume: VolId, text: &mut Text) {
    match registry.volume_with(volume) {
        Some(found) => text.add(found.name.as_bytes()),
        None => text.add_count(b"volume ", u64::from(volume.0)),
    }
}

/// Adds the name of a slot: of a live one that of its volume; of an old one that with a stroke, and the number of its birth.
pub(crate) fn put_slot(registry: &Registry, slot: Source, text: &mut Text) {
    put_volume(registry, slot.volume, text);
    if !slot.is_live {
        text.add_count(b"'", slot.slot.0);
    }
}

/// Whether the slot at a place is the mapping's. It is a slot of the mapping's target, so most are told apart by their volumes.
fn is_of(sheet: &PlainSheet, mapping: &Mapping, place: usize) -> bool {
    mapping.target == sheet.volume(place) && sheet.mapping_place(mapping.id) == Some(place)
}

/// The mapping whose slot stands at a place, if there is one.
pub(crate) fn mapping_of<'a>(
    sheet: &PlainSheet,
    registry: &'a Registry,
    place: usize,
) -> Option<&'a Mapping> {
    for mapping in registry.all_mappings() {
        if is_of(sheet, mapping, place) {
            return Some(mapping);
        }
    }
    None
}

/// Adds the number of an entry, and what was asked, if it is one of the history.
pub(crate) fn put_asked(history: &History, number: u64, text: &mut Text) {
    text.add_count(b"entry ", number);
    if number < history.len() as u64 {
        text.add(b", ");
        let _ = put_request(&history.entry(number as usize).request, text);
    }
}
