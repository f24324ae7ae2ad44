//! The trait of disks that metadata lives on.

ghost use Rattle.std.specs.Prelude.{◌≡◌, ◌≤◌, ◌+◌, List, [], ◌++◌, ℕ, length, true, is_err, OnOk};
ghost use Rattle.fc_base.specs.Count.{one_more, FaultsAfter};
ghost use Rattle.fc_metadisk.specs.Disk.{IsRange, bytes_at, bytes_put, Torn, Follows, Only, Elapses};
ghost use Rattle.fc_metadisk.specs.Calls.{Made, Writes, Syncs, one_made};

use fc_base::outcome::Failed;

/// A row of bytes that may fail at any call, and of which a crash leaves what was synced and, of what was written since, any
/// bytes.
///
/// Writes and syncs are counted, and so are the calls that failed; each count stands still at 2^64 - 1. A disk may keep account of
/// which writes and syncs it was asked for, in which order, and which of them failed (`leads`): what a caller proves of its
/// calls holds for each such account.
pub trait MetaDisk: Drop {
    /// The bytes that a read gives.
    ghost seen: { Self → List ℕ };

    /// What a crash at this moment may leave.
    ghost may_leave: { Self → List ℕ → Type 0 };

    /// The moment, as a number that doesn't fall.
    ghost moment: { Self → ℕ };

    /// What a crash at some moment from that one on might have left, by the disk's own account.
    ghost left_since: { Self → ℕ → List ℕ → Type 0 };

    /// How many calls failed.
    ghost fault_count: { Self → ℕ };

    /// How many writes and syncs there were.
    ghost calls: { Self → ℕ };

    /// These writes and syncs, in this order, lead from the one to the other, by the disk's own account.
    ghost leads: { Self → List Made → Self → Type 0 };

    /// The number of bytes, which never changes.
    fn size(&self) -> u32
        ensures { result ≡ length (seen self.now) };

    /// How many calls failed.
    fn faults(&self) -> u64
        ensures { result ≡ fault_count self.now };

    /// Reads the bytes from `at` on into `out`. Failed, `out` may be anything.
    fn read(&mut self, at: u32, out: &mut [u8]) -> Result<(), Failed>
        requires { IsRange at (length out.old) (seen self.old) }
        ensures bytes { OnOk result (out.new ≡ bytes_at at (length out.old) (seen self.old)) }
        ensures seen { seen self.new ≡ seen self.old }
        ensures crash { (c : List ℕ) → may_leave self.new c → may_leave self.old c }
        ensures time { Elapses (moment self.old) (moment self.new) (left_since self.old) (left_since self.new) (may_leave self.new) }
        ensures calls { calls self.new ≡ calls self.old }
        ensures made { leads self.old [] self.new }
        ensures cause { FaultsAfter true (is_err result) (fault_count self.old) (fault_count self.new) };

    /// Writes the bytes from `at` on. Until a sync answers Ok, a crash may leave any bytes in their range; after Failed the
    /// range may read as any bytes too.
    fn write_at(&mut self, at: u32, bytes: &[u8]) -> Result<(), Failed>
        requires { IsRange at (length bytes.now) (seen self.old) }
        ensures bytes { OnOk result (seen self.new ≡ bytes_put at bytes.now (seen self.old)) }
        ensures torn { Torn at (length bytes.now) (seen self.old) (seen self.new) }
        ensures crash { Follows (Torn at (length bytes.now)) (may_leave self.old) (may_leave self.new) }
        ensures time { Elapses (moment self.old) (moment self.new) (left_since self.old) (left_since self.new) (may_leave self.new) }
        ensures calls { calls self.new ≡ one_more (calls self.old) }
        ensures made { leads self.old (one_made (Writes at bytes.now) (is_err result)) self.new }
        ensures cause { FaultsAfter true (is_err result) (fault_count self.old) (fault_count self.new) };

    /// After Ok a crash leaves what a read gives. Failed, a crash may leave what it might before.
    fn sync(&mut self) -> Result<(), Failed>
        ensures durable { OnOk result (Only (seen self.old) (may_leave self.new)) }
        ensures seen { seen self.new ≡ seen self.old }
        ensures crash { (c : List ℕ) → may_leave self.new c → may_leave self.old c }
        ensures time { Elapses (moment self.old) (moment self.new) (left_since self.old) (left_since self.new) (may_leave self.new) }
        ensures calls { calls self.new ≡ one_more (calls self.old) }
        ensures made { leads self.old (one_made Syncs (is_err result)) self.new }
        ensures cause { FaultsAfter true (is_err result) (fault_count self.old) (fault_count self.new) };

    /// A disk as it reads is one that a crash may leave.
    ghost reads: { (disk : Self) → may_leave disk (seen disk) };

    /// This moment is one of those since an earlier one.
    ghost counts_now: { (disk : Self) (t : ℕ) (c : List ℕ) → t ≤ moment disk → may_leave disk c → left_since disk t c };

    /// Since this moment there is no other.
    ghost only_now: { (disk : Self) (c : List ℕ) → left_since disk (moment disk) c → may_leave disk c };

    /// No call leads from a disk to itself.
    ghost leads_nowhere: { (disk : Self) → leads disk [] disk };

    /// Calls, and others behind them.
    ghost leads_on: { (a b c : Self) (first rest : List Made) → leads a first b → leads b rest c → leads a (first ++ rest) c };
}
