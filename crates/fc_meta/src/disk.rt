//! Writes in a half of the disk.

ghost use Rattle.std.specs.Prelude.{◌≡◌, ◌+◌, ◌≤◌, ◌<◌, ◌^◌, length, true, is_err, OnOk, OnErr};
ghost use Rattle.fc_base.specs.Count.{FaultsAfter};
ghost use Rattle.fc_metadisk.specs.Disk.{bytes_put, LeavesOnly, Only};
ghost use Rattle.fc_metadisk.specs.Calls.{all_made, AreCutShort};
ghost use Rattle.fc_format.specs.Halves.{half_size, half_start};
ghost use Rattle.fc_meta.specs.Answers.{MayTear, more_calls, IsStopped};
ghost use Rattle.fc_meta.specs.DiskCalls.{write_and_sync};

use fc_base::outcome::Failed;
use fc_format::Half;
use fc_metadisk::MetaDisk;

/// How many bytes a half of the disk has.
pub(crate) fn half_len<M: MetaDisk>(disk: &M) -> u32
    ensures value { result ≡ half_size (M.seen disk.now) }
    ensures small { length (M.seen disk.now) < 2 ^ 32 }
{
    disk.size() / 2
}

/// The place of the disk at which a half begins.
pub(crate) fn start_of<M: MetaDisk>(disk: &M, half: Half) -> u32
    ensures value { result ≡ half_start half (M.seen disk.now) }
    ensures small { length (M.seen disk.now) < 2 ^ 32 }
{
    let len = half_len(disk);
    match half {
        Half::First => 0,
        Half::Second => len,
    }
}

/// Writes the bytes into a half, from its byte `at` on, and syncs them: one write, one sync. Failed, a crash may leave any
/// bytes in their range.
pub(crate) fn write_synced<M: MetaDisk>(
    disk: &mut M,
    half: Half,
    at: u32,
    bytes: &[u8],
) -> Result<(), Failed>
    requires { at + length bytes.now ≤ half_size (M.seen disk.old) }
    ensures bytes { OnOk result
        (M.seen disk.new ≡ bytes_put (half_start half (M.seen disk.old) + at) bytes.now
        (M.seen disk.old)) }
    ensures durable { OnOk result (Only (M.seen disk.new) (M.may_leave disk.new)) }
    ensures size { length (M.seen disk.new) ≡ length (M.seen disk.old) }
    ensures any_moment { LeavesOnly M.moment M.left_since disk.old disk.new
        (MayTear (half_start half (M.seen disk.old) + at) (length bytes.now) (M.may_leave disk.old)) }
    ensures made { OnOk result (M.calls disk.new ≡ more_calls 2 (M.calls disk.old)) }
    ensures stopped { OnErr result (IsStopped 2 (M.calls disk.old) (M.calls disk.new)) }
    ensures done { OnOk result (M.leads disk.old
        (all_made (write_and_sync (half_start half (M.seen disk.old) + at) bytes.now)) disk.new) }
    ensures cut_short { OnErr result (AreCutShort (λ made. M.leads disk.old made disk.new)
        (write_and_sync (half_start half (M.seen disk.old) + at) bytes.now)) }
    ensures cause { FaultsAfter true (is_err result) (M.fault_count disk.old)
        (M.fault_count disk.new) }
{
    let place = start_of(disk, half) + at;
    disk.write_at(place, bytes)?;
    disk.sync()
}
