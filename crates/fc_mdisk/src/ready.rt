//! Disks that are made ready before the first call.

ghost use Rattle.std.specs.Prelude.{◌↔◌, map, IsTrue};
ghost use Rattle.std.specs.List.{All};
ghost use Rattle.fc_mdisk.specs.Disk.{IsFresh};

use crate::mdisk::Mdisk;

/// Disarms a disk, and says whether it is fresh: no calls and no faults.
fn make_disk_ready<D: Mdisk>(disk: &mut D) -> bool
    ensures ready { IsTrue result ↔ IsFresh (D.meaning disk.new) }
{
    disk.arm(0);
    disk.calls() == 0 && disk.faults() == 0
}

/// Disarms the disks, up to the first that isn't fresh, and says whether all are.
pub fn make_ready<D: Mdisk>(disks: &mut [D]) -> bool
    ensures ready { IsTrue result ↔ All IsFresh (map D.meaning disks.new) }
{
    for place in 0..disks.len() {
        if !make_disk_ready(&mut disks[place]) {
            return false;
        }
    }
    true
}
