//! A disk of metadata that stops, as it is counted towards its stop.

ghost use Rattle.std.specs.Prelude.{◌≡◌, ⊤};
ghost use Rattle.std.proofs.Common.{inl, refl};
ghost use Rattle.fc_metadisk.specs.Stop.{StopLeaves, StopState, found_after};
ghost use Rattle.fc_stopped.specs.Countdown.{calls_by_stop, faults_by_stop};

use fc_base::outcome::Failed;
use fc_metadisk::{MemMeta, MetaDisk, StopMeta};
use std::marker::Model;

/// A disk that stops (`StopMeta`). Contracts see a count of its calls that comes to its last value, 2^64 - 1, at its stop and not before:
/// so the number of its stop can be told by how many calls led there.
#[derive(Drop)]
pub(crate) struct Countdown {
    disk: StopMeta,
}

impl Model for Countdown {
    ghost use Rattle.fc_metadisk.specs.Stop.{StopState};

    ghost Value = { StopState };

    ghost view = { λ c. c.disk };
}

impl Countdown {
    /// This disk.
    pub fn of(disk: StopMeta) -> Countdown
        ensures { result ≡ disk }
    {
        Countdown { disk }
    }

    /// The disk that is found after the stop (`StopMeta::after`).
    pub fn after(self) -> MemMeta
        ensures { result ≡ record { bytes = found_after self; calls = 0 } }
    {
        self.disk.after()
    }
}

impl MetaDisk for Countdown {
    ghost seen = { λ d. d.bytes };

    ghost may_leave = { StopLeaves };

    ghost moment = { λ d. 0 };

    ghost left_since = { λ d t c. StopLeaves d c };

    ghost fault_count = { faults_by_stop };

    ghost calls = { calls_by_stop };

    // It keeps no account of its calls.
    ghost leads = { λ d made e. ⊤ };

    ghost reads = { λ d. inl refl };

    ghost counts_now = { λ d t c le now. now };

    ghost only_now = { λ d c left. left };

    ghost leads_nowhere = { λ d. tt };

    ghost leads_on = { λ a b c first rest one two. tt };

    fn size(&self) -> u32 {
        self.disk.size()
    }

    fn faults(&self) -> u64 {
        let _stopped = self.disk.has_stopped();
        self.disk.faults()
    }

    fn read(&mut self, at: u32, out: &mut [u8]) -> Result<(), Failed> {
        let _before = self.disk.has_stopped();
        let answer = self.disk.read(at, out);
        let _behind = self.disk.has_stopped();
        answer
    }

    fn write_at(&mut self, at: u32, bytes: &[u8]) -> Result<(), Failed> {
        let _before = self.disk.has_stopped();
        let answer = self.disk.write_at(at, bytes);
        let _behind = self.disk.has_stopped();
        answer
    }

    fn sync(&mut self) -> Result<(), Failed> {
        let _before = self.disk.has_stopped();
        let answer = self.disk.sync();
        let _behind = self.disk.has_stopped();
        answer
    }
}
