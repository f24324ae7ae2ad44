//! The members of a group.

ghost use Rattle.std.specs.Prelude.{◌≡◌, ◌&&◌, not, length, filter};
ghost use Rattle.std.specs.List.{list_any};
ghost use Rattle.fc_books.specs.Accesses.{is_active};
ghost use Rattle.fc_books.specs.Groups.{is_member, is_none_of, some_in};

use crate::ending::is_active;
use fc_base::ids::GroupId;
use fc_base::volume::Mapping;
use fc_group::is_member;

/// How many mappings are in the group.
pub fn count_members(mappings: &[Mapping], group: GroupId) -> usize
    ensures { result ≡ length (filter (is_member group) mappings.now) }
{
    let mut count: usize = 0;
    for mapping in mappings {
        if is_member(mapping, group) {
            count += 1;
        }
    }
    count
}

/// Whether some mapping is in the group.
#[tactic(auto, using(crate::proofs::Selecting::any_there))]
pub fn has_member(mappings: &[Mapping], group: GroupId) -> bool
    ensures { result ≡ not (is_none_of (filter (is_member group) mappings.now)) }
{
    some_member(mappings, group)
}

/// Whether some mapping is a member of the group.
fn some_member(mappings: &[Mapping], group: GroupId) -> bool
    ensures { result ≡ list_any (is_member group) mappings.now }
{
    mappings.iter().any(|mapping| is_member(mapping, group))
}

/// Whether an active mapping is in the group.
#[tactic(auto, using(crate::proofs::Selecting::any_kept))]
pub fn has_active(mappings: &[Mapping], group: GroupId) -> bool
    ensures { result ≡ some_in is_active (filter (is_member group) mappings.now) }
{
    some_active_member(mappings, group)
}

/// Whether some mapping is active and in the group.
fn some_active_member(mappings: &[Mapping], group: GroupId) -> bool
    ensures { result ≡ list_any (λ m. is_member group m && is_active m.state) mappings.now }
{
    mappings
        .iter()
        .any(|mapping| is_active_member(mapping, group))
}

/// Whether the mapping is active and in the group.
fn is_active_member(mapping: &Mapping, group: GroupId) -> bool
    ensures { result ≡ (is_member group mapping.now && is_active mapping.now.state) }
{
    is_member(mapping, group) && is_active(mapping.state)
}
