//! The text of the chains as it was put last, for entries behind which the chains are the same.

use fc_base::outcome::NoMemory;
use fc_base::volume::{Mapping, Volume};
use fc_model::PlainSheet;
use fc_registry::Registry;
use std::alloc::Global;

/// The text of the chains as it was put last, and copies of the tables that it was made from.
#[derive(Drop)]
pub(crate) struct KeptChains {
    text: Vec<u8>,
    /// None where no text is kept.
    sheet: Option<PlainSheet>,
    registry: Option<Registry>,
}

/// Whether two volumes are named alike.
fn is_same_volume(one: &Volume, other: &Volume) -> bool {
    one.id == other.id && one.name.as_bytes() == other.name.as_bytes()
}

/// Whether the same is said of two mappings.
fn is_same_mapping(one: &Mapping, other: &Mapping) -> bool {
    one.id == other.id
        && one.state == other.state
        && one.source == other.source
        && one.target == other.target
        && one.name.as_bytes() == other.name.as_bytes()
}

/// Whether the volumes of two tables are named alike.
fn are_same_volumes(one: &[Volume], other: &[Volume]) -> bool {
    if one.len() != other.len() {
        return false;
    }
    for place in 0..one.len() {
        if !is_same_volume(&one[place], &other[place]) {
            return false;
        }
    }
    true
}

/// Whether the same is said of the mappings of two tables.
fn are_same_mappings(one: &[Mapping], other: &[Mapping]) -> bool {
    if one.len() != other.len() {
        return false;
    }
    for place in 0..one.len() {
        if !is_same_mapping(&one[place], &other[place]) {
            return false;
        }
    }
    true
}

/// Whether the text of chains takes the same from two registries.
fn is_same_registry(one: &Registry, other: &Registry) -> bool {
    are_same_volumes(one.all_volumes(), other.all_volumes())
        && are_same_mappings(one.all_mappings(), other.all_mappings())
}

/// Whether two sheets have the same slot at a place.
fn is_same_slot(one: &PlainSheet, other: &PlainSheet, place: usize) -> bool {
    one.slot(place) == other.slot(place)
        && one.chain(place) == other.chain(place)
        && one.volume(place) == other.volume(place)
        && one.is_live(place) == other.is_live(place)
        && one.held(place) == other.held(place)
}

/// Whether two sheets have the same slots.
fn are_same_slots(one: &PlainSheet, other: &PlainSheet) -> bool {
    if one.len() != other.len() {
        return false;
    }
    for place in 0..one.len() {
        if !is_same_slot(one, other, place) {
            return false;
        }
    }
    true
}

/// Whether the slots of these mappings stand at the same places of two sheets.
fn are_mapped_alike(one: &PlainSheet, other: &PlainSheet, mappings: &[Mapping]) -> bool {
    for mapping in mappings {
        if one.mapping_place(mapping.id) != other.mapping_place(mapping.id) {
            return false;
        }
    }
    true
}

impl KeptChains {
    /// No text is kept. Takes no memory.
    pub(crate) fn new(alloc: Global) -> KeptChains {
        KeptChains {
            text: Vec::new(alloc),
            sheet: None,
            registry: None,
        }
    }

    /// Whether a text is kept for chains of the same slots, which belong to the same of these mappings.
    fn is_of_sheet(&self, sheet: &PlainSheet, mappings: &[Mapping]) -> bool {
        match &self.sheet {
            Some(kept) => are_same_slots(kept, sheet) && are_mapped_alike(kept, sheet, mappings),
            None => false,
        }
    }

    /// Whether the registry that is kept gives a text the same as this one.
    fn is_of_registry(&self, registry: &Registry) -> bool {
        match &self.registry {
            Some(kept) => is_same_registry(kept, registry),
            None => false,
        }
    }

    /// The text that is kept, where it is the text of these chains.
    pub(crate) fn text_of(&self, sheet: &PlainSheet, registry: &Registry) -> Option<&[u8]> {
        if self.is_of_registry(registry) && self.is_of_sheet(sheet, registry.all_mappings()) {
            Some(self.text.as_slice())
        } else {
            None
        }
    }

    /// Notes what a text was made from, and the text. Refused for want of memory alone.
    fn note(
        &mut self,
        alloc: Global,
        sheet: &PlainSheet,
        registry: &Registry,
        text: &[u8],
    ) -> Result<(), NoMemory> {
        self.sheet = None;
        self.text.clear();
        if !self.is_of_registry(registry) {
            self.registry = Some(registry.copy(alloc)?);
        }
        match self.text.extend_from_slice(text) {
            Ok(()) => {}
            Err(_) => return Err(NoMemory),
        }
        self.sheet = Some(sheet.copy(alloc)?);
        Ok(())
    }

    /// Keeps the text of these chains; none, where there is no memory for it.
    pub(crate) fn keep(
        &mut self,
        alloc: Global,
        sheet: &PlainSheet,
        registry: &Registry,
        text: &[u8],
    ) {
        let _ = self.note(alloc, sheet, registry, text);
    }
}
