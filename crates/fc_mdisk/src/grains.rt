//! What keeps the grains of a disk in memory.

ghost use Rattle.std.specs.Prelude.{◌≡◌, ◌<◌, true, [], length, replicate, slice_set, OnOk, OnErr};
ghost use Rattle.fc_base.specs.declared.disk.DiskKind.{DiskKind};
ghost use Rattle.fc_base.specs.declared.disk.DiskKind.TheVariants.{Thin};
ghost use Rattle.fc_mdisk.specs.Disk.{grain_at, used_as, is_flat};
ghost use Rattle.fc_mdisk.specs.Grains.{GrainsState, IsTorn};

use fc_base::disk::DiskKind;
use fc_base::outcome::NoMemory;
use std::alloc::Global;

/// Grains of one size, and the memory that they occupy. Nothing fails here but for want of memory.
pub trait Grains: Drop {
    /// How the grains take their memory.
    ghost KIND: { DiskKind };

    const KIND: DiskKind;

    /// The bytes of each grain, and which of them occupy memory.
    ghost state: { Self → GrainsState };

    /// No grains. Takes no memory.
    fn new(alloc: Global) -> Self
        ensures { state result ≡ record { grains = []; occupied = [] } };

    /// The number of grains.
    fn count(&self) -> u32
        ensures { result ≡ length (state self.now).grains };

    /// The number of grains that occupy memory.
    fn used(&self) -> u32
        ensures { result ≡ used_as KIND (state self.now).grains (state self.now).occupied };

    /// Makes `count` grains of `width` zeros each, in place of those that were there. Refused, all are as they were.
    fn format(&mut self, count: u32, width: u32) -> Result<(), NoMemory>
        ensures ok { OnOk result (state self.new ≡ record { grains = replicate count (replicate width 0); occupied = replicate count (is_flat KIND) }) }
        ensures err { OnErr result (state self.new ≡ state self.old) };

    /// Leaves no grains. Takes no memory.
    fn clear(&mut self)
        ensures { state self.new ≡ record { grains = []; occupied = [] } };

    /// Reads a whole grain into `out`.
    fn read(&self, grain: u32, out: &mut [u8])
        requires in_range { grain < length (state self.now).grains }
        requires whole { length out.old ≡ length (grain_at (state self.now).grains grain) }
        ensures { out.new ≡ grain_at (state self.now).grains grain };

    /// Writes a whole grain. Refused, which only thin grains are, all are as they were.
    fn write(&mut self, grain: u32, bytes: &[u8]) -> Result<(), NoMemory>
        requires in_range { grain < length (state self.old).grains }
        requires whole { length bytes.now ≡ length (grain_at (state self.old).grains grain) }
        ensures ok { OnOk result (state self.new ≡ record { grains = slice_set (state self.old).grains grain bytes.now; occupied = slice_set (state self.old).occupied grain true }) }
        ensures err { OnErr result (state self.new ≡ state self.old) }
        ensures refused { OnErr result (KIND ≡ Thin) };

    /// A write that fails: it leaves the first half of the bytes where its grain has memory, and takes none.
    fn tear(&mut self, grain: u32, bytes: &[u8])
        requires in_range { grain < length (state self.old).grains }
        requires whole { length bytes.now ≡ length (grain_at (state self.old).grains grain) }
        ensures size { length (grain_at (state self.new).grains grain) ≡ length bytes.now }
        ensures half { IsTorn KIND bytes.now (grain_at (state self.old).grains grain) (grain_at (state self.new).grains grain) }
        ensures others { (state self.new).grains ≡ slice_set (state self.old).grains grain (grain_at (state self.new).grains grain) }
        ensures reached { (state self.new).occupied ≡ slice_set (state self.old).occupied grain true };
}
