//! A disk in memory that fails where a fault was armed.

ghost use Rattle.std.specs.Prelude.{◌≡◌, ◌<◌, IsTrue, Some, length};
ghost use Rattle.fc_mdisk.specs.Disk.{AfterWrite, blank, grain_at, write_failed};
ghost use Rattle.fc_mdisk.specs.Grains.{IsTorn};

use crate::counts::{Counts, comes_due};
use crate::grains::Grains;
use crate::mdisk::Mdisk;
use fc_base::disk::{DiskError, DiskKind};
use fc_base::outcome::{Failed, NoMemory};
use std::alloc::Global;
use std::marker::Model;

/// A disk over grains in memory. A read or write fails only where a fault was armed.
#[derive(Drop)]
pub struct ArmedDisk<G: Grains> {
    grains: G,
    counts: Counts,
    due: u32,
}

impl<G: Grains> Model for ArmedDisk<G> {
    ghost use Rattle.std.specs.Prelude.{Some};
    ghost use Rattle.fc_mdisk.specs.Disk.{DiskState};

    ghost Value = { DiskState };

    ghost view = { λ d. record {
      kind = G.KIND;
      grains = (G.state d.grains).grains;
      occupied = (G.state d.grains).occupied;
      calls = d.counts.calls;
      faults = d.counts.faults;
      write_faults = d.counts.write_faults;
      due = Some d.due;
    } };
}

impl<G: Grains> ArmedDisk<G> {
    /// A disk without grains. Takes no memory.
    pub fn new(alloc: Global) -> Self
        ensures { result ≡ blank G.KIND (Some 0) }
    {
        ArmedDisk {
            grains: G::new(alloc),
            counts: Counts::new(),
            due: 0,
        }
    }
}

impl<G: Grains> Mdisk for ArmedDisk<G> {
    ghost meaning = { λ d. d };

    fn kind(&self) -> DiskKind {
        // Shows the proof the fields, and with them the kind that they stand for.
        let _ = &self.due;
        G::KIND
    }

    fn grains(&self) -> u32 {
        self.grains.count()
    }

    fn used(&self) -> u32 {
        self.grains.used()
    }

    fn faults(&self) -> u64 {
        self.counts.faults
    }

    fn calls(&self) -> u64 {
        self.counts.calls
    }

    fn write_faults(&self) -> u64 {
        self.counts.write_faults
    }

    fn format(&mut self, grains: u32, bytes: u32) -> Result<(), NoMemory> {
        self.grains.format(grains, bytes)
    }

    fn read(&mut self, grain: u32, out: &mut [u8]) -> Result<(), Failed> {
        let failed = comes_due(&mut self.due);
        self.counts.add_read(failed);
        if failed {
            return Err(Failed);
        }
        self.grains.read(grain, out);
        Ok(())
    }

    /// A write that fails leaves the first half of the bytes, on a thin disk only where the grain has memory.
    fn write(&mut self, grain: u32, bytes: &[u8]) -> Result<(), DiskError>
        requires in_range { grain < length self.old.grains }
        requires whole { length bytes.now ≡ length (grain_at self.old.grains grain) }
        ensures disk { AfterWrite self.old grain bytes.now result self.new }
        ensures torn { IsTrue (write_failed result) → IsTorn G.KIND bytes.now (grain_at self.old.grains grain) (grain_at self.new.grains grain) }
    {
        let failed = comes_due(&mut self.due);
        self.counts.add_write(failed);
        if failed {
            self.grains.tear(grain, bytes);
            return Err(DiskError::Failed);
        }
        match self.grains.write(grain, bytes) {
            Ok(()) => Ok(()),
            Err(NoMemory) => Err(DiskError::NoMemory),
        }
    }

    fn arm(&mut self, calls: u32) {
        self.due = calls;
    }

    fn clear(&mut self) {
        self.grains.clear();
    }
}
