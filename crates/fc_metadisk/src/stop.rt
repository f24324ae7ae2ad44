//! A disk that stops at a call.

ghost use Rattle.std.specs.Prelude.{◌≡◌, ◌<◌, ◌≤◌, ◌+◌, ◌-◌, ◌^◌, ◌⊎◌, ⊤, List, ℕ, length, replicate, nat_le, if◌then◌else◌, is_err, true, IfOk, OnOk, OnErr};
ghost use Rattle.std.specs.Bool.{OnTrue, OnFalse};
ghost use Rattle.std.proofs.Common.{inl, refl};
ghost use Rattle.fc_base.specs.Count.{one_more, FaultsAfter};
ghost use Rattle.fc_metadisk.specs.Disk.{IsRange, bytes_at, bytes_put, Torn, Follows, Only, Elapses};
ghost use Rattle.fc_metadisk.specs.Stop.{has_stopped, found_after, StopLeaves, new_stop};

use crate::mem::{MemMeta, get_bytes, put_bytes, zeros};
use crate::meta_disk::MetaDisk;
use fc_base::outcome::{Failed, NoMemory};
use std::alloc::Global;
use std::marker::Model;

/// A disk in memory that fails at its write or sync number `stop`, counted from 1, and at every later call, and at no
/// earlier one. The write at which it stops is done or not, as `after` says; a later one changes nothing.
#[derive(Drop)]
pub struct StopMeta {
    bytes: Vec<u8>,
    synced: Vec<u8>,
    // where the two may differ
    low: usize,
    high: usize,
    calls: u64,
    faults: u64,
    stop: u32,
}

impl Model for StopMeta {
    ghost use Rattle.std.specs.Prelude.{◌<◌, ◌≤◌, ◌-◌, ◌^◌, length};
    ghost use Rattle.fc_metadisk.specs.Disk.{Torn};
    ghost use Rattle.fc_metadisk.specs.Stop.{StopState, IsStopDisk};

    ghost Value = { StopState };

    ghost view = { λ d. record { bytes = d.bytes.items; synced = d.synced.items; calls = d.calls; faults = d.faults; stop = d.stop } };

    ghost invariant = { λ d. IsStopDisk d.bytes.items d.synced.items d.low d.high d.calls d.faults d.stop };
}

impl StopMeta {
    /// A disk of so many zeros that stops at this call, the first being 1.
    pub fn new(alloc: Global, size: u32, stop: u32) -> Result<StopMeta, NoMemory>
        requires { 0 < stop }
        ensures { IfOk result (λ disk. disk ≡ new_stop size stop) }
    {
        let bytes = zeros(alloc, size)?;
        let synced = zeros(alloc, size)?;
        Ok(StopMeta {
            bytes,
            synced,
            low: 0,
            high: 0,
            calls: 0,
            faults: 0,
            stop,
        })
    }

    /// Whether the call at which it stops was made.
    pub fn has_stopped(&self) -> bool
        ensures stopped { result ≡ has_stopped self.now }
        ensures faults { OnFalse result (self.now.faults ≡ 0) }
        ensures faulted { OnTrue result (0 < self.now.faults) }
        ensures small { self.now.stop < 2 ^ 32 }
    {
        u64::from(self.stop) <= self.calls
    }

    /// Counts a write or sync, and fails where it is the one at which the disk stops or a later one.
    fn count_call(&mut self) -> Result<(), Failed>
        ensures disk { self.new ≡ record self.old { calls = one_more self.old.calls; faults = self.new.faults } }
        ensures told { is_err result ≡ has_stopped self.new }
        ensures faults { self.new.faults ≡ (if has_stopped self.new then one_more self.old.faults else self.old.faults) }
        ensures cause { FaultsAfter true (is_err result) self.old.faults self.new.faults }
    {
        self.calls = self.calls.saturating_add(1);
        if u64::from(self.stop) <= self.calls {
            self.faults = self.faults.saturating_add(1);
            return Err(Failed);
        }
        Ok(())
    }

    /// Puts the bytes in their place, where they may be lost until they are synced.
    fn put(&mut self, at: u32, bytes: &[u8])
        requires { IsRange at (length bytes.now) self.old.bytes }
        ensures { self.new ≡ record self.old { bytes = bytes_put at bytes.now self.old.bytes } }
    {
        let from = at as usize;
        let end = from + bytes.len();
        self.low = self.low.min(from);
        self.high = self.high.max(end);
        put_bytes(self.bytes.as_mut_slice(), at, bytes);
    }

    /// All that was written is synced.
    fn settle(&mut self)
        ensures { self.new ≡ record self.old { synced = self.old.bytes } }
    {
        let end = self.high.max(self.low);
        let written = &self.bytes[self.low..end];
        put_bytes(self.synced.as_mut_slice(), self.low as u32, written);
        self.low = self.bytes.len();
        self.high = 0;
    }

    /// The disk that is found after the stop: all that was written since the last sync, the write that failed included, if
    /// the number of the call is odd; none of it if it is even.
    pub fn after(self) -> MemMeta
        ensures { result ≡ record { bytes = found_after self; calls = 0 } }
    {
        if self.stop % 2 == 1 {
            MemMeta::of(self.bytes)
        } else {
            MemMeta::of(self.synced)
        }
    }
}

impl MetaDisk for StopMeta {
    ghost seen = { λ d. d.bytes };

    ghost may_leave = { StopLeaves };

    ghost moment = { λ d. 0 };

    ghost left_since = { λ d t c. StopLeaves d c };

    ghost fault_count = { λ d. d.faults };

    ghost calls = { λ d. d.calls };

    // It keeps no account of its calls.
    ghost leads = { λ d made e. ⊤ };

    ghost reads = { λ d. inl refl };

    ghost counts_now = { λ d t c le now. now };

    ghost only_now = { λ d c left. left };

    ghost leads_nowhere = { λ d. tt };

    ghost leads_on = { λ a b c first rest one two. tt };

    fn size(&self) -> u32 {
        self.bytes.len() as u32
    }

    fn faults(&self) -> u64 {
        self.faults
    }

    fn read(&mut self, at: u32, out: &mut [u8]) -> Result<(), Failed>
        requires { IsRange at (length out.old) self.old.bytes }
        ensures bytes { OnOk result (out.new ≡ bytes_at at (length out.old) self.old.bytes) }
        ensures row { self.new.bytes ≡ self.old.bytes }
        ensures synced { self.new.synced ≡ self.old.synced }
        ensures calls { self.new.calls ≡ self.old.calls }
        ensures stop { self.new.stop ≡ self.old.stop }
        ensures told { is_err result ≡ has_stopped self.old }
        ensures faults { self.new.faults ≡ (if has_stopped self.old then one_more self.old.faults else self.old.faults) }
        ensures cause { FaultsAfter true (is_err result) self.old.faults self.new.faults }
    {
        if self.has_stopped() {
            self.faults = self.faults.saturating_add(1);
            return Err(Failed);
        }
        get_bytes(self.bytes.as_slice(), at, out);
        Ok(())
    }

    fn write_at(&mut self, at: u32, bytes: &[u8]) -> Result<(), Failed>
        requires { IsRange at (length bytes.now) self.old.bytes }
        ensures row { self.new.bytes ≡ (if has_stopped self.old then self.old.bytes else bytes_put at bytes.now self.old.bytes) }
        ensures torn { Torn at (length bytes.now) self.old.bytes self.new.bytes }
        ensures synced { self.new.synced ≡ self.old.synced }
        ensures calls { self.new.calls ≡ one_more self.old.calls }
        ensures stop { self.new.stop ≡ self.old.stop }
        ensures told { is_err result ≡ has_stopped self.new }
        ensures faults { self.new.faults ≡ (if has_stopped self.new then one_more self.old.faults else self.old.faults) }
        ensures cause { FaultsAfter true (is_err result) self.old.faults self.new.faults }
        ensures done { OnOk result (self.new.bytes ≡ bytes_put at bytes.now self.old.bytes) }
        ensures crash { Follows (Torn at (length bytes.now)) (StopLeaves self.old) (StopLeaves self.new) }
    {
        if self.has_stopped() {
            return self.count_call();
        }
        self.put(at, bytes);
        self.count_call()
    }

    fn sync(&mut self) -> Result<(), Failed>
        ensures row { self.new.bytes ≡ self.old.bytes }
        ensures synced { self.new.synced ≡ (if has_stopped self.new then self.old.synced else self.old.bytes) }
        ensures calls { self.new.calls ≡ one_more self.old.calls }
        ensures stop { self.new.stop ≡ self.old.stop }
        ensures told { is_err result ≡ has_stopped self.new }
        ensures faults { self.new.faults ≡ (if has_stopped self.new then one_more self.old.faults else self.old.faults) }
        ensures cause { FaultsAfter true (is_err result) self.old.faults self.new.faults }
        ensures durable { OnOk result (Only self.old.bytes (StopLeaves self.new)) }
        ensures crash { (c : List ℕ) → StopLeaves self.new c → StopLeaves self.old c }
    {
        match self.count_call() {
            Ok(()) => {
                self.settle();
                Ok(())
            }
            Err(Failed) => Err(Failed),
        }
    }
}
