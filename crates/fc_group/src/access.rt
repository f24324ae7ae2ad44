//! How hosts reach a volume.

ghost use Rattle.std.specs.Prelude.{◌≡◌, ◌&&◌, ◌==◌, not, find, option_copied};
ghost use Rattle.fc_books.specs.Accesses.{is_idle, access_by};

use fc_base::ids::VolId;
use fc_base::state::{Access, MapState};
use fc_base::volume::Mapping;
use fc_states::access;

/// How the volume is reached: the mapping with it as target that isn't idle decides; without one it is online.
pub fn access_in(mappings: &[Mapping], volume: VolId) -> Access
    ensures { result ≡ access_by (find (λ (m : Mapping). (m.target.0 == volume.0) && not (is_idle m.state)) mappings.now) }
{
    match find_deciding(mappings, volume) {
        Some(mapping) => access(mapping.id, mapping.state, mapping.complete),
        None => Access::Online,
    }
}

/// The mapping with the volume as target that isn't idle.
fn find_deciding(mappings: &[Mapping], volume: VolId) -> Option<&Mapping>
    ensures { option_copied result ≡ find (λ (m : Mapping). (m.target.0 == volume.0) && not (is_idle m.state)) mappings.now }
{
    mappings.iter().find(|mapping| decides(mapping, volume))
}

/// Whether the mapping has the volume as target and isn't idle.
fn decides(mapping: &Mapping, volume: VolId) -> bool
    ensures { result ≡ ((mapping.now.target.0 == volume.0) && not (is_idle mapping.now.state)) }
{
    mapping.target.0 == volume.0 && !is_idle(mapping.state)
}

/// Whether this is idle_or_copied.
fn is_idle(state: MapState) -> bool
    ensures { result ≡ is_idle state }
{
    matches!(state, MapState::IdleOrCopied)
}
