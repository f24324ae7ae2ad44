//! Which mappings may be triggered at once.

ghost use Rattle.std.specs.Prelude.{◌≡◌, count_by, IsOk, MatchOption};
ghost use Rattle.std.specs.List.{list_any};
ghost use Rattle.fc_books.specs.Groups.{trigger_refusal, least, twice_targets, source_targets};
ghost use Rattle.fc_group.specs.Found.{mappings_of, is_known, is_target_of, ids_of, target_of, source_of, least_with, noted, is_twice, is_some_target};

use fc_base::fault::Refusal;
use fc_base::ids::{MapId, VolId};
use fc_registry::Registry;

/// Whether the mappings with these ids may be triggered at once; ids that name none are passed over. Empty where there
/// is none; else TargetTwice with the least volume that two have as target; else SourceIsTarget with the least volume
/// that one has as source and one as target.
pub fn check_trigger(registry: &Registry, maps: &[MapId]) -> Result<(), Refusal>
    ensures { MatchOption (trigger_refusal (mappings_of registry.now.tables maps.now)) (IsOk result) (λ refusal. result ≡ Err refusal) }
{
    if !some_there(registry, maps) {
        return Err(Refusal::Empty);
    }
    match least_target_twice(registry, maps) {
        Some(volume) => Err(Refusal::TargetTwice(volume)),
        None => match least_source_target(registry, maps) {
            Some(volume) => Err(Refusal::SourceIsTarget(volume)),
            None => Ok(()),
        },
    }
}

/// Whether one of the ids names a mapping.
fn some_there(registry: &Registry, maps: &[MapId]) -> bool
    ensures { result ≡ list_any (is_known registry.now.tables) maps.now }
{
    maps.iter().any(|map| is_there(registry, *map))
}

/// Whether the id names a mapping.
fn is_there(registry: &Registry, map: MapId) -> bool
    ensures { result ≡ is_known registry.now.tables map }
{
    registry.mapping_with(map).is_some()
}

/// The least volume that two of the mappings have as target.
fn least_target_twice(registry: &Registry, maps: &[MapId]) -> Option<VolId>
    ensures { ids_of result ≡ least (twice_targets (mappings_of registry.now.tables maps.now)) }
{
    let mut least: Option<VolId> = None;
    for map in maps {
        least = note_target(least, registry, maps, *map);
    }
    least
}

/// The least volume so far, with the target of one more mapping, if two of all have it.
fn note_target(
    least: Option<VolId>,
    registry: &Registry,
    maps: &[MapId],
    map: MapId,
) -> Option<VolId>
    ensures { ids_of result ≡ noted (is_twice registry.now.tables maps.now) (target_of registry.now.tables map) (ids_of least) }
{
    match registry.mapping_with(map) {
        Some(mapping) if count_targets(registry, maps, mapping.target) > 1 => {
            Some(lesser(least, mapping.target))
        }
        _ => least,
    }
}

/// The least volume that one of the mappings has as source and one as target.
fn least_source_target(registry: &Registry, maps: &[MapId]) -> Option<VolId>
    ensures { ids_of result ≡ least (source_targets (mappings_of registry.now.tables maps.now)) }
{
    let mut least: Option<VolId> = None;
    for map in maps {
        least = note_source(least, registry, maps, *map);
    }
    least
}

/// The least volume so far, with the source of one more mapping, if one of all has it as target.
fn note_source(
    least: Option<VolId>,
    registry: &Registry,
    maps: &[MapId],
    map: MapId,
) -> Option<VolId>
    ensures { ids_of result ≡ noted (is_some_target registry.now.tables maps.now) (source_of registry.now.tables map) (ids_of least) }
{
    match registry.mapping_with(map) {
        Some(mapping) if some_target(registry, maps, mapping.source) => {
            Some(lesser(least, mapping.source))
        }
        _ => least,
    }
}

/// The lesser of a volume and the least of others, if there are others.
fn lesser(least: Option<VolId>, volume: VolId) -> VolId
    ensures { result.0 ≡ least_with (ids_of least) volume.0 }
{
    match least {
        Some(other) if other.0 <= volume.0 => other,
        _ => volume,
    }
}

/// How many of the mappings have the volume as target.
fn count_targets(registry: &Registry, maps: &[MapId], volume: VolId) -> usize
    ensures { result ≡ count_by (is_target_of registry.now.tables volume.0) maps.now }
{
    let mut count: usize = 0;
    for map in maps {
        if is_target(registry, *map, volume) {
            count += 1;
        }
    }
    count
}

/// Whether some of the mappings has the volume as target.
fn some_target(registry: &Registry, maps: &[MapId], volume: VolId) -> bool
    ensures { result ≡ list_any (is_target_of registry.now.tables volume.0) maps.now }
{
    maps.iter().any(|map| is_target(registry, *map, volume))
}

/// Whether the id names a mapping that has the volume as target.
fn is_target(registry: &Registry, map: MapId, volume: VolId) -> bool
    ensures { result ≡ is_target_of registry.now.tables volume.0 map }
{
    match registry.mapping_with(map) {
        Some(mapping) => mapping.target.0 == volume.0,
        None => false,
    }
}
