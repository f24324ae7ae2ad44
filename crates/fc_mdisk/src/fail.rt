//! A flat disk that fails when it is told to.

ghost use Rattle.std.specs.Prelude.{◌≡◌, ◌<◌, length, is_err, IsTrue, None, OnOk, OnErr};
ghost use Rattle.fc_base.specs.declared.disk.DiskKind.TheVariants.{Flat};
ghost use Rattle.fc_mdisk.specs.Disk.{blank, grain_at, AfterRead, AfterWrite, formatted, armed, cleared, write_failed};
ghost use Rattle.fc_mdisk.specs.Failing.{fails_next};
ghost use Rattle.fc_mdisk.specs.Grains.{IsTorn};

use crate::counts::Counts;
use crate::flat::FlatGrains;
use crate::grains::Grains;
use crate::mdisk::Mdisk;
use fc_base::disk::{DiskError, DiskKind};
use fc_base::outcome::{Failed, NoMemory};
use std::alloc::Global;
use std::marker::Model;

/// A flat disk of which the calls with given numbers fail; no call changes the numbers. It tells no armed fault, and
/// `arm` does nothing.
#[derive(Drop)]
pub struct FailDisk {
    grains: FlatGrains,
    counts: Counts,
    failing: Vec<u64>,
}

impl Model for FailDisk {
    ghost use Rattle.std.specs.Prelude.{true, length, replicate, None};
    ghost use Rattle.fc_base.specs.declared.disk.DiskKind.TheVariants.{Flat};
    ghost use Rattle.fc_mdisk.specs.Failing.{FailingDisk};

    ghost Value = { FailingDisk };

    ghost view = { λ d. record {
      disk = record {
        kind = Flat;
        grains = d.grains;
        occupied = replicate (length d.grains) true;
        calls = d.counts.calls;
        faults = d.counts.faults;
        write_faults = d.counts.write_faults;
        due = None;
      };
      failing = d.failing.items;
    } };
}

impl FailDisk {
    /// A disk without grains. Its reads and writes are counted from 1, and those whose numbers are in `failing` fail.
    pub fn new(alloc: Global, failing: Vec<u64>) -> Self
        ensures { result ≡ record { disk = blank Flat None; failing = failing.items } }
    {
        FailDisk {
            grains: FlatGrains::new(alloc),
            counts: Counts::new(),
            failing,
        }
    }

    /// Whether the coming read or write fails.
    pub fn fails_next(&self) -> bool
        ensures { result ≡ fails_next self.now }
    {
        self.failing.contains(&self.counts.calls.saturating_add(1))
    }
}

impl Mdisk for FailDisk {
    ghost meaning = { λ d. d.disk };

    fn kind(&self) -> DiskKind {
        // Shows the proof the fields, and with them the kind that they stand for.
        let _ = &self.counts;
        DiskKind::Flat
    }

    fn grains(&self) -> u32 {
        self.grains.count()
    }

    fn used(&self) -> u32 {
        self.grains.used()
    }

    fn faults(&self) -> u64 {
        self.counts.faults
    }

    fn calls(&self) -> u64 {
        self.counts.calls
    }

    fn write_faults(&self) -> u64 {
        self.counts.write_faults
    }

    fn format(&mut self, grains: u32, bytes: u32) -> Result<(), NoMemory>
        ensures ok { OnOk result (self.new.disk ≡ formatted self.old.disk grains bytes) }
        ensures err { OnErr result (self.new.disk ≡ self.old.disk) }
        ensures failing { self.new.failing ≡ self.old.failing }
    {
        self.grains.format(grains, bytes)
    }

    fn read(&mut self, grain: u32, out: &mut [u8]) -> Result<(), Failed>
        requires in_range { grain < length self.old.disk.grains }
        requires whole { length out.old ≡ length (grain_at self.old.disk.grains grain) }
        ensures disk { AfterRead self.old.disk grain (is_err result) out.new self.new.disk }
        ensures told { is_err result ≡ fails_next self.old }
        ensures failing { self.new.failing ≡ self.old.failing }
    {
        let failed = self.fails_next();
        self.counts.add_read(failed);
        if failed {
            return Err(Failed);
        }
        self.grains.read(grain, out);
        Ok(())
    }

    /// A write that fails is torn: it leaves the first half of the bytes.
    fn write(&mut self, grain: u32, bytes: &[u8]) -> Result<(), DiskError>
        requires in_range { grain < length self.old.disk.grains }
        requires whole { length bytes.now ≡ length (grain_at self.old.disk.grains grain) }
        ensures disk { AfterWrite self.old.disk grain bytes.now result self.new.disk }
        ensures told { write_failed result ≡ fails_next self.old }
        ensures torn { IsTrue (write_failed result) → IsTorn Flat bytes.now (grain_at self.old.disk.grains grain) (grain_at self.new.disk.grains grain) }
        ensures failing { self.new.failing ≡ self.old.failing }
    {
        let failed = self.fails_next();
        self.counts.add_write(failed);
        if failed {
            self.grains.tear(grain, bytes);
            return Err(DiskError::Failed);
        }
        match self.grains.write(grain, bytes) {
            Ok(()) => Ok(()),
            Err(NoMemory) => Err(DiskError::NoMemory),
        }
    }

    fn arm(&mut self, calls: u32)
        ensures disk { self.new.disk ≡ armed self.old.disk calls }
        ensures failing { self.new.failing ≡ self.old.failing }
    {
        // Shows the proof the fields, which tell no armed fault.
        let _ = (self.counts, calls);
    }

    fn clear(&mut self)
        ensures disk { self.new.disk ≡ cleared self.old.disk }
        ensures failing { self.new.failing ≡ self.old.failing }
    {
        self.grains.clear();
    }
}
