//! What a disk counts, and its armed fault.

ghost use Rattle.std.specs.Prelude.{◌≡◌, ◌≤◌, ◌==◌, ◌-◌, if◌then◌else◌};
ghost use Rattle.fc_base.specs.Count.{one_more};

/// The calls of a disk and those that failed. Each count stands still at 2^64 - 1.
#[derive(Clone, Copy)]
pub(crate) struct Counts {
    pub calls: u64,
    pub faults: u64,
    pub write_faults: u64,
}

impl Counts {
    pub fn new() -> Self
        ensures { result ≡ record { calls = 0; faults = 0; write_faults = 0 } }
    {
        Counts {
            calls: 0,
            faults: 0,
            write_faults: 0,
        }
    }

    /// Counts a read.
    pub fn add_read(&mut self, failed: bool)
        ensures calls { self.new.calls ≡ one_more self.old.calls }
        ensures kept { self.old.faults ≤ self.new.faults }
        ensures faults { self.new.faults ≡ (if failed then one_more self.old.faults else self.old.faults) }
        ensures write_faults { self.new.write_faults ≡ self.old.write_faults }
    {
        self.calls = self.calls.saturating_add(1);
        if failed {
            self.faults = self.faults.saturating_add(1);
        }
    }

    /// Counts a write.
    pub fn add_write(&mut self, failed: bool)
        ensures calls { self.new.calls ≡ one_more self.old.calls }
        ensures kept { self.old.faults ≤ self.new.faults }
        ensures faults { self.new.faults ≡ (if failed then one_more self.old.faults else self.old.faults) }
        ensures write_faults_kept { self.old.write_faults ≤ self.new.write_faults }
        ensures write_faults { self.new.write_faults ≡ (if failed then one_more self.old.write_faults else self.old.write_faults) }
    {
        self.add_read(failed);
        if failed {
            self.write_faults = self.write_faults.saturating_add(1);
        }
    }
}

/// Brings an armed fault one call nearer and answers whether it falls on this call. 0 is no fault.
pub(crate) fn comes_due(due: &mut u32) -> bool
    ensures fails { result ≡ (due.old == 1) }
    ensures nearer { due.new ≡ due.old - 1 }
{
    let comes = *due == 1;
    *due = due.saturating_sub(1);
    comes
}
