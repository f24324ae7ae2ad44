//! The disk that all crates above are written over.

ghost use Rattle.std.specs.Prelude.{◌≡◌, ◌<◌, length, is_err, OnOk, OnErr};
ghost use Rattle.fc_mdisk.specs.Disk.{DiskState, grain_at, used_of, AfterRead, AfterWrite, formatted, cleared, armed};

use fc_base::disk::{DiskError, DiskKind};
use fc_base::outcome::{Failed, NoMemory};

/// A disk of grains, which may fail at any read or write.
///
/// The counts of calls and faults stand still at 2^64 - 1 and never fall; only `read` and `write` change them. The
/// kind never changes.
pub trait Mdisk: Drop {
    /// What the disk holds, its counts and its armed fault.
    ghost meaning: { Self → DiskState };

    /// Flat or thin.
    fn kind(&self) -> DiskKind
        ensures { result ≡ (meaning self.now).kind };

    /// The number of grains: 0 until the disk is formatted, and after `clear`.
    fn grains(&self) -> u32
        ensures { result ≡ length (meaning self.now).grains };

    /// The number of grains that occupy memory: of a flat disk all, of a thin one those that a write reached.
    fn used(&self) -> u32
        ensures { result ≡ used_of (meaning self.now) };

    /// The reads and writes that failed.
    fn faults(&self) -> u64
        ensures { result ≡ (meaning self.now).faults };

    /// The reads and writes.
    fn calls(&self) -> u64
        ensures { result ≡ (meaning self.now).calls };

    /// The writes that failed.
    fn write_faults(&self) -> u64
        ensures { result ≡ (meaning self.now).write_faults };

    /// Makes `grains` grains of `bytes` zeros each, in place of those that were there. Refused, the disk is as it was.
    fn format(&mut self, grains: u32, bytes: u32) -> Result<(), NoMemory>
        ensures ok { OnOk result (meaning self.new ≡ formatted (meaning self.old) grains bytes) }
        ensures err { OnErr result (meaning self.new ≡ meaning self.old) };

    /// Reads a whole grain into `out`. Failed, the disk holds what it held, and `out` may be anything.
    fn read(&mut self, grain: u32, out: &mut [u8]) -> Result<(), Failed>
        requires in_range { grain < length (meaning self.old).grains }
        requires whole { length out.old ≡ length (grain_at (meaning self.old).grains grain) }
        ensures { AfterRead (meaning self.old) grain (is_err result) out.new (meaning self.new) };

    /// Writes a whole grain. Failed, the grain may hold any bytes. A flat disk never answers NoMemory; a thin one that
    /// does holds what it held.
    fn write(&mut self, grain: u32, bytes: &[u8]) -> Result<(), DiskError>
        requires in_range { grain < length (meaning self.old).grains }
        requires whole { length bytes.now ≡ length (grain_at (meaning self.old).grains grain) }
        ensures { AfterWrite (meaning self.old) grain bytes.now result (meaning self.new) };

    /// Arms a fault: the read or write that is `calls` calls away fails, the next one being 1 away. 0 disarms. A disk
    /// that doesn't tell its armed fault does what it likes with this.
    fn arm(&mut self, calls: u32)
        ensures { meaning self.new ≡ armed (meaning self.old) calls };

    /// Leaves no grains. Takes no memory.
    fn clear(&mut self)
        ensures { meaning self.new ≡ cleared (meaning self.old) };
}
