//! The volumes of a lane, as a judge keeps them.

ghost use Rattle.std.specs.Prelude.{◌≡◌};
ghost use Rattle.fc_rules.specs.LaneTold.{lane_access, is_thin_in, is_thin_kind};

use fc_base::disk::DiskKind;
use fc_base::ids::VolId;
use fc_base::state::Access;
use std::marker::Model;

/// A volume: the kind of its disks, and how hosts may reach it.
#[derive(Drop)]
pub struct LaneVolume {
    /// Its id.
    pub id: VolId,
    /// The kind of its disks.
    pub kind: DiskKind,
    /// How hosts may reach it.
    pub access: Access,
}

impl Model for LaneVolume {
    ghost use Rattle.fc_rules.specs.LaneTold as told;

    ghost Value = { told.LaneVolume };

    ghost view = { λ v. record { volume = v.id; kind = v.kind; access = v.access } };
}

/// How hosts may reach a volume; one that isn't there is as if online.
pub fn access_of(volumes: &[LaneVolume], id: VolId) -> Access
    ensures { result ≡ lane_access volumes.now id }
{
    for volume in volumes {
        if volume.id.0 == id.0 {
            return volume.access;
        }
    }
    Access::Online
}

/// Whether a kind of disks takes memory as it is written.
fn is_thin_kind(kind: DiskKind) -> bool
    ensures { result ≡ is_thin_kind kind }
{
    match kind {
        DiskKind::Flat => false,
        DiskKind::Thin => true,
    }
}

/// Whether a volume's disks are thin; those of one that isn't there are not.
pub fn is_thin(volumes: &[LaneVolume], id: VolId) -> bool
    ensures { result ≡ is_thin_in volumes.now id.0 }
{
    for volume in volumes {
        if volume.id.0 == id.0 {
            return is_thin_kind(volume.kind);
        }
    }
    false
}
