//! A disk in memory.

ghost use Rattle.std.specs.Prelude.{◌≡◌, ◌<◌, ◌≤◌, ◌+◌, ◌^◌, ◌⊎◌, ⊤, List, ℕ, length, replicate, is_err, false, IfOk, OnOk, IsOk};
ghost use Rattle.std.proofs.Common.{inr, refl};
ghost use Rattle.fc_base.specs.Count.{one_more, FaultsAfter};
ghost use Rattle.fc_metadisk.specs.Disk.{IsRange, bytes_at, bytes_put, Torn, Follows, Only, Elapses};

use crate::meta_disk::MetaDisk;
use fc_base::outcome::{Failed, NoMemory};
use std::alloc::Global;
use std::marker::Model;

/// A disk in memory, which never fails. What is written stands at once, so that a crash leaves what a read gives.
#[derive(Drop)]
pub struct MemMeta {
    bytes: Vec<u8>,
    calls: u64,
}

impl Model for MemMeta {
    ghost use Rattle.std.specs.Prelude.{◌<◌, ◌^◌, length};
    ghost use Rattle.fc_metadisk.specs.Stop.{MemState};

    ghost Value = { MemState };

    ghost view = { λ d. record { bytes = d.bytes.items; calls = d.calls } };

    ghost invariant = { λ d. length d.bytes.items < 2 ^ 32 };
}

impl MemMeta {
    /// A disk of so many zeros.
    pub fn new(alloc: Global, size: u32) -> Result<MemMeta, NoMemory>
        ensures { IfOk result (λ disk. disk ≡ record { bytes = replicate size 0; calls = 0 }) }
    {
        let bytes = zeros(alloc, size)?;
        Ok(MemMeta { bytes, calls: 0 })
    }

    /// A disk with these bytes.
    pub(crate) fn of(bytes: Vec<u8>) -> MemMeta
        requires { length bytes.items < 2 ^ 32 }
        ensures { result ≡ record { bytes = bytes.items; calls = 0 } }
    {
        MemMeta { bytes, calls: 0 }
    }

    /// The bytes.
    pub fn as_bytes(&self) -> &[u8]
        ensures { result.now ≡ self.now.bytes }
    {
        self.bytes.as_slice()
    }
}

/// So many zeros.
pub(crate) fn zeros(alloc: Global, size: u32) -> Result<Vec<u8>, NoMemory>
    ensures { IfOk result (λ bytes. bytes.items ≡ replicate size 0) }
{
    match vec![in alloc; 0; size as usize] {
        Ok(bytes) => Ok(bytes),
        Err(_) => Err(NoMemory),
    }
}

/// Puts the bytes in the place of those that stand from `at` on.
pub(crate) fn put_bytes(row: &mut [u8], at: u32, bytes: &[u8])
    requires { IsRange at (length bytes.now) row.old }
    ensures { row.new ≡ bytes_put at bytes.now row.old }
{
    let from = at as usize;
    row[from..from + bytes.len()].copy_from_slice(bytes);
}

/// Reads the bytes from `at` on.
pub(crate) fn get_bytes(row: &[u8], at: u32, out: &mut [u8])
    requires { IsRange at (length out.old) row.now }
    ensures { out.new ≡ bytes_at at (length out.old) row.now }
{
    let from = at as usize;
    out.copy_from_slice(&row[from..from + out.len()]);
}

impl MetaDisk for MemMeta {
    ghost seen = { λ d. d.bytes };

    ghost may_leave = { λ d c. c ≡ d.bytes };

    ghost moment = { λ d. 0 };

    ghost left_since = { λ d t c. c ≡ d.bytes };

    ghost fault_count = { λ d. 0 };

    ghost calls = { λ d. d.calls };

    // It keeps no account of its calls.
    ghost leads = { λ d made e. ⊤ };

    ghost reads = { λ d. refl };

    ghost counts_now = { λ d t c le now. now };

    ghost only_now = { λ d c left. left };

    ghost leads_nowhere = { λ d. tt };

    ghost leads_on = { λ a b c first rest one two. tt };

    fn size(&self) -> u32 {
        self.bytes.len() as u32
    }

    fn faults(&self) -> u64 {
        // Shows the proof the fields, which tell no faults.
        let _ = &self.calls;
        0
    }

    fn read(&mut self, at: u32, out: &mut [u8]) -> Result<(), Failed>
        requires { IsRange at (length out.old) self.old.bytes }
        ensures bytes { out.new ≡ bytes_at at (length out.old) self.old.bytes }
        ensures disk { self.new ≡ self.old }
        ensures never { IsOk result }
    {
        get_bytes(self.bytes.as_slice(), at, out);
        Ok(())
    }

    fn write_at(&mut self, at: u32, bytes: &[u8]) -> Result<(), Failed>
        requires { IsRange at (length bytes.now) self.old.bytes }
        ensures disk { self.new ≡ record { bytes = bytes_put at bytes.now self.old.bytes; calls = one_more self.old.calls } }
        ensures torn { Torn at (length bytes.now) self.old.bytes self.new.bytes }
        ensures never { IsOk result }
    {
        self.calls = self.calls.saturating_add(1);
        put_bytes(self.bytes.as_mut_slice(), at, bytes);
        Ok(())
    }

    fn sync(&mut self) -> Result<(), Failed>
        ensures disk { self.new ≡ record { bytes = self.old.bytes; calls = one_more self.old.calls } }
        ensures never { IsOk result }
    {
        self.calls = self.calls.saturating_add(1);
        Ok(())
    }
}
