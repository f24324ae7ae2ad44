//! How large volumes are.

use fc_base::ids::VolId;

/// A volume, and how many grains it has.
#[derive(Clone, Copy)]
pub struct VolumeSize {
    /// The volume.
    pub volume: VolId,
    /// Its grains.
    pub grains: u32,
}
