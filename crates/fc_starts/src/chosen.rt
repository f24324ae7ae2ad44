//! The mappings that a command prepares or starts: one, or the members of a group.

ghost use Rattle.std.specs.Prelude.{◌≡◌, IfOk, map, filter};
ghost use Rattle.fc_books.specs.Starting.{pair_of};
ghost use Rattle.fc_starts.specs.Choosing.{is_chosen};

use fc_base::ids::{GroupId, MapId};
use fc_base::list::List;
use fc_base::outcome::NoMemory;
use fc_base::request::Pair;
use fc_base::volume::Mapping;
use fc_group::is_member;
use std::alloc::Global;

/// The mappings that a command prepares or starts.
#[derive(Clone, Copy)]
pub enum Chosen {
    /// The mapping with this id.
    One(MapId),
    /// All members of the group.
    Members(GroupId),
}

/// Whether the mapping is one of them.
pub fn is_chosen(mapping: &Mapping, chosen: Chosen) -> bool
    ensures { result ≡ is_chosen chosen mapping.now }
{
    match chosen {
        Chosen::One(map) => map.0 == mapping.id.0,
        Chosen::Members(group) => is_member(mapping, group),
    }
}

/// Their ids.
pub fn chosen_ids(
    alloc: Global,
    mappings: &[Mapping],
    chosen: Chosen,
) -> Result<List<MapId>, NoMemory>
    ensures { IfOk result (λ ids. ids ≡ map (λ m. m.id) (filter (is_chosen chosen) mappings.now)) }
{
    let mut ids = List::new(alloc);
    for mapping in mappings {
        if is_chosen(mapping, chosen) {
            ids.push(mapping.id)?;
        }
    }
    Ok(ids)
}

/// Their pairs.
pub fn chosen_pairs(
    alloc: Global,
    mappings: &[Mapping],
    chosen: Chosen,
) -> Result<List<Pair>, NoMemory>
    ensures { IfOk result (λ pairs. pairs ≡ map pair_of (filter (is_chosen chosen) mappings.now)) }
{
    let mut pairs = List::new(alloc);
    for mapping in mappings {
        if is_chosen(mapping, chosen) {
            pairs.push(pair_of(mapping))?;
        }
    }
    Ok(pairs)
}

/// The pair of a mapping.
fn pair_of(mapping: &Mapping) -> Pair
    ensures { result ≡ pair_of mapping.now }
{
    Pair {
        map: mapping.id,
        source: mapping.source,
        target: mapping.target,
        incremental: mapping.incremental,
    }
}
