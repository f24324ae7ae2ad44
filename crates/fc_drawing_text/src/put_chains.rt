//! The text of the chains.

use crate::held::{put_held, put_share};
use crate::names::{mapping_of, put_slot, put_volume};
use crate::text::Text;
use fc_base::volume::Mapping;
use fc_drawing::chains::Chain;
use fc_drawing::slot::drawn_slot;
use fc_drawing::sources::source_at;
use fc_entry::refusal_text::state_word;
use fc_model::PlainSheet;
use fc_registry::Registry;

/// Puts the mapping whose slot it is: its name, its state, and how many grains of all the slot holds.
fn put_mapping(mapping: &Mapping, held: &[bool], text: &mut Text) {
    text.add(b"  by ");
    text.add(mapping.name.as_bytes());
    text.add(b", ");
    text.add(state_word(mapping.state));
    text.add(b", ");
    put_share(held, text);
}

/// Puts the slot at a place on a line of its own: what it holds, its name, whether it is old, and its mapping.
fn put_drawn(sheet: &PlainSheet, registry: &Registry, place: usize, text: &mut Text) {
    let drawn = drawn_slot(sheet, place);
    text.add(b"    ");
    put_held(drawn.held, text);
    text.add(b"  ");
    put_slot(registry, source_at(sheet, place), text);
    if !drawn.is_live {
        text.add(b"  old");
    }
    match mapping_of(sheet, registry, place) {
        Some(mapping) => put_mapping(mapping, drawn.held, text),
        None => {}
    }
    text.add(b"\n");
}

/// Puts a chain: a line with its number, and one for each of its slots.
fn put_chain(sheet: &PlainSheet, registry: &Registry, chain: &Chain, text: &mut Text) {
    match chain.places().first() {
        Some(place) => text.add_count(b"  chain ", sheet.chain(*place).0),
        None => return,
    }
    text.add(b"\n");
    for place in chain.places() {
        put_drawn(sheet, registry, *place, text);
    }
}

/// Puts a mapping that has no slot on a line of its own.
fn put_idle(registry: &Registry, mapping: &Mapping, text: &mut Text) {
    text.add(b"  ");
    text.add(mapping.name.as_bytes());
    text.add(b": ");
    put_volume(registry, mapping.source, text);
    text.add(b" to ");
    put_volume(registry, mapping.target, text);
    text.add(b", ");
    text.add(state_word(mapping.state));
    text.add(b", no slot\n");
}

/// Puts the mappings that have no slot.
pub(crate) fn put_idles(sheet: &PlainSheet, registry: &Registry, text: &mut Text) {
    for mapping in registry.all_mappings() {
        if sheet.mapping_place(mapping.id).is_none() {
            put_idle(registry, mapping, text);
        }
    }
}

/// Puts all chains, and behind them the mappings that have no slot.
pub(crate) fn put_chains(
    sheet: &PlainSheet,
    registry: &Registry,
    chains: &[Chain],
    text: &mut Text,
) {
    for chain in chains {
        put_chain(sheet, registry, chain, text);
    }
    put_idles(sheet, registry, text);
}
