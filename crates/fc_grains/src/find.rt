//! A volume is found by its id.

ghost use Rattle.std.specs.Prelude.{◌≡◌, ◌<◌, true, false, length, map, slice_index_or, IfSome, IfNone};
ghost use Rattle.std.specs.List.{AllPairs};
ghost use Rattle.fc_grains.specs.Parts.{VolumeDiskState, grains_of};
ghost use Rattle.fc_grains.specs.Volumes.{is_there};

use crate::volume_disk::VolumeDisk;
use fc_base::ids::VolId;
use fc_mdisk::mdisk::Mdisk;

/// The place of a volume among volumes whose ids rise, and None where it isn't there.
pub(crate) fn find_place<D: Mdisk>(volumes: &[VolumeDisk<D>], volume: VolId) -> Option<usize>
    requires { AllPairs (λ (v w : VolumeDiskState). v.volume.0 < w.volume.0) volumes.now }
    ensures in_range { IfSome result (λ place. place < length volumes.now) }
    ensures found { IfSome result (λ place. (d : VolumeDiskState) → (slice_index_or volumes.now place d).volume.0 ≡ volume.0) }
    ensures none { IfNone result (is_there (map grains_of volumes.now) volume.0 ≡ false) }
{
    match volumes.binary_search_by_key(&volume.0, |v| v.volume().0) {
        Ok(place) => Some(place),
        Err(_) => None,
    }
}

/// The place of a volume that is there, among volumes whose ids rise.
pub(crate) fn place_of<D: Mdisk>(volumes: &[VolumeDisk<D>], volume: VolId) -> usize
    requires rising { AllPairs (λ (v w : VolumeDiskState). v.volume.0 < w.volume.0) volumes.now }
    requires there { is_there (map grains_of volumes.now) volume.0 ≡ true }
    ensures in_range { result < length volumes.now }
    ensures found { (d : VolumeDiskState) → (slice_index_or volumes.now result d).volume.0 ≡ volume.0 }
{
    match find_place(volumes, volume) {
        Some(place) => place,
        None => unreachable!(),
    }
}
