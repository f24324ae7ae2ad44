//! What reports count.

ghost use Rattle.std.specs.Prelude.{◌≡◌, ◌-◌, count_by};
ghost use Rattle.fc_base.specs.Tables.{Tables};
ghost use Rattle.fc_books.specs.Columns.{percent, copied_in, progress, unneeded, cleaned_in, copies_volume};
ghost use Rattle.fc_books.specs.Copies.{total};
ghost use Rattle.fc_report.specs.Asked.{asked};

use fc_base::ids::VolId;
use fc_base::sheet::Sheet;
use fc_base::state::MapState;
use fc_base::volume::Mapping;
use fc_registry::Registry;

/// In percent, rounded down; 0 of nothing.
fn percent(part: u32, whole: u32) -> u64
    ensures { result ≡ percent part whole }
{
    if whole == 0 {
        0
    } else {
        100 * u64::from(part) / u64::from(whole)
    }
}

/// How many grains the mapping's target has.
fn total<S: Sheet>(registry: &Registry, sheet: &S, mapping: &Mapping) -> u32
    ensures { result ≡ total (asked registry.now.tables (S.meaning sheet.now)) mapping.now }
{
    let _sheet = sheet;
    match registry.volume_with(mapping.target) {
        Some(volume) => volume.grains,
        None => 0,
    }
}

/// How many grains are copied, as far as the state of the mapping tells.
fn copied<S: Sheet>(sheet: &S, mapping: &Mapping) -> u32
    ensures { (tables : Tables) → result ≡ copied_in mapping.now.state (asked tables (S.meaning sheet.now)) mapping.now }
{
    match mapping.state {
        MapState::Copying => sheet.held(mapping.id),
        MapState::Preparing | MapState::Prepared => 0,
        MapState::Empty | MapState::IdleOrCopied | MapState::Stopping | MapState::Stopped => {
            mapping.held_at_leave
        }
    }
}

/// How much of the mapping's target is copied, in percent.
pub fn progress<S: Sheet>(registry: &Registry, sheet: &S, mapping: &Mapping) -> u64
    ensures { result ≡ progress (asked registry.now.tables (S.meaning sheet.now)) mapping.now }
{
    let copied = copied(sheet, mapping);
    percent(copied, total(registry, sheet, mapping))
}

/// How much of the mapping's target nobody needs, in percent.
fn unneeded<S: Sheet>(registry: &Registry, sheet: &S, mapping: &Mapping) -> u64
    ensures { result ≡ unneeded (asked registry.now.tables (S.meaning sheet.now)) mapping.now }
{
    let total = total(registry, sheet, mapping);
    percent(total.saturating_sub(sheet.needed(mapping.id)), total)
}

/// How much of the mapping's target nobody needs, in percent: all of it where it is neither copying nor stopping.
pub fn cleaned<S: Sheet>(registry: &Registry, sheet: &S, mapping: &Mapping) -> u64
    ensures { result ≡ cleaned_in mapping.now.state (asked registry.now.tables (S.meaning sheet.now)) mapping.now }
{
    match mapping.state {
        MapState::Copying | MapState::Stopping => unneeded(registry, sheet, mapping),
        MapState::Empty
        | MapState::IdleOrCopied
        | MapState::Preparing
        | MapState::Prepared
        | MapState::Stopped => 100,
    }
}

/// Whether the mapping has the volume as source or target.
fn is_of(mapping: &Mapping, volume: VolId) -> bool
    ensures { result ≡ copies_volume volume mapping.now }
{
    mapping.source.0 == volume.0 || mapping.target.0 == volume.0
}

/// How many mappings have the volume as source or target.
pub fn mappings_of(mappings: &[Mapping], volume: VolId) -> u64
    ensures { result ≡ count_by (copies_volume volume) mappings.now }
{
    let mut count = 0;
    for mapping in mappings {
        if is_of(mapping, volume) {
            count += 1;
        }
    }
    count
}
