//! Sums of the counts of disks.

ghost use Rattle.std.specs.Prelude.{◌≡◌, ◌+◌, map};
ghost use Rattle.fc_grains.specs.Grains.{stopped};
ghost use Rattle.fc_grains.specs.Kept.{AddUp};

use fc_mdisk::mdisk::Mdisk;

/// The counts of disks, added up. Each sum stands still at 2^64 - 1.
#[derive(Clone, Copy, PartialEq, Eq)]
pub(crate) struct Sums {
    pub(crate) calls: u64,
    pub(crate) faults: u64,
    pub(crate) write_faults: u64,
}

impl Sums {
    /// Adds so many calls, faults and faults of writes.
    pub(crate) fn add(&mut self, calls: u64, faults: u64, write_faults: u64)
        ensures calls { self.new.calls ≡ stopped (self.old.calls + calls) }
        ensures faults { self.new.faults ≡ stopped (self.old.faults + faults) }
        ensures write_faults { self.new.write_faults ≡ stopped (self.old.write_faults + write_faults) }
    {
        self.calls = self.calls.saturating_add(calls);
        self.faults = self.faults.saturating_add(faults);
        self.write_faults = self.write_faults.saturating_add(write_faults);
    }
}

/// The counts of these disks.
pub(crate) fn sums_of<D: Mdisk>(disks: &[D]) -> Sums
    ensures { AddUp (map D.meaning disks.now) result }
{
    let mut sums = Sums {
        calls: 0,
        faults: 0,
        write_faults: 0,
    };
    for disk in disks {
        sums.add(disk.calls(), disk.faults(), disk.write_faults());
    }
    sums
}
