//! Disks that lanes keep for new volumes.

ghost use Rattle.std.specs.Prelude.{◌≡◌};
ghost use Rattle.fc_base.specs.Pools.{of_kind, least_of_kind};
ghost use Rattle.fc_check_sheet.specs.View.{pool_of, pools_of};

use fc_base::disk::DiskKind;

/// How many disks of each kind a lane has for new volumes.
#[derive(Clone, Copy, PartialEq, Eq)]
pub struct LanePool {
    /// Disks that have all their grains.
    pub flat: u32,
    /// Disks that have a grain only once it is written.
    pub thin: u32,
}

impl LanePool {
    /// How many disks of this kind it has.
    fn of(self, kind: DiskKind) -> u32
        ensures { result ≡ of_kind kind (pool_of self) }
    {
        match kind {
            DiskKind::Flat => self.flat,
            DiskKind::Thin => self.thin,
        }
    }
}

/// The least number of disks of the kind that some lane has; 0 without lanes.
pub(crate) fn least_pool(lanes: &[LanePool], kind: DiskKind) -> u32
    ensures { result ≡ least_of_kind kind (pools_of lanes.now) }
{
    match lanes.split_first() {
        Some((first, rest)) => {
            let own = first.of(kind);
            if rest.is_empty() {
                own
            } else {
                own.min(least_pool(rest, kind))
            }
        }
        None => 0,
    }
}
