//! A disk that keeps account of its calls.

ghost use Rattle.std.specs.Prelude.{◌≡◌, ◌++◌, List, [], ◌∷◌, true};
ghost use Rattle.fc_metadisk.specs.Disk.{IsRange, bytes_at, bytes_put, Torn, Follows, Only, Elapses};
ghost use Rattle.meta_steps.specs.Account.{HasKept};
ghost use Rattle.meta_steps.specs.Accounts.{kept_none, kept_both};

use fc_base::outcome::Failed;
use fc_metadisk::MetaDisk;
use std::alloc::Global;

/// What a disk was asked for.
#[derive(Clone, Copy, Debug, PartialEq, Eq)]
pub enum Asked {
    /// To write so many bytes from this place on.
    Write(u32, usize),
    /// To sync.
    Sync,
}

/// A call that was made.
#[derive(Clone, Copy, Debug, PartialEq, Eq)]
pub struct Kept {
    /// What was asked for.
    pub asked: Asked,
    /// Whether it failed.
    pub failed: bool,
}

/// A disk, and the account of its writes and syncs. Where memory is wanted for it the account isn't whole from then on.
#[derive(Drop)]
pub struct KeptMeta<M: MetaDisk> {
    disk: M,
    account: Vec<Kept>,
    is_whole: bool,
}

impl<M: MetaDisk> KeptMeta<M> {
    /// The disk with an empty account.
    pub fn new(alloc: Global, disk: M) -> Self
        ensures disk { result.disk ≡ disk }
        ensures account { result.account.items ≡ [] }
        ensures whole { result.is_whole ≡ true }
    {
        KeptMeta {
            disk,
            account: Vec::new(alloc),
            is_whole: true,
        }
    }

    /// The calls so far, in their order. None where the account isn't whole.
    pub fn account(&self) -> Option<&[Kept]> {
        if self.is_whole {
            Some(self.account.as_slice())
        } else {
            None
        }
    }

    /// The disk alone.
    pub fn into_disk(self) -> M
        ensures { result ≡ self.disk }
    {
        self.disk
    }

    /// Keeps a call.
    fn keep(&mut self, asked: Asked, failed: bool)
        ensures disk { self.new.disk ≡ self.old.disk }
        ensures account { self.new.is_whole ≡ true → (self.old.is_whole ≡ true) ×
            (self.new.account.items ≡
            self.old.account.items ++ (record { asked = asked; failed = failed } ∷ [])) }
    {
        if self.account.push(Kept { asked, failed }).is_err() {
            self.is_whole = false;
        }
    }
}

impl<M: MetaDisk> MetaDisk for KeptMeta<M> {
    ghost seen = { λ d. M.seen d.disk };

    ghost may_leave = { λ d c. M.may_leave d.disk c };

    ghost moment = { λ d. M.moment d.disk };

    ghost left_since = { λ d t c. M.left_since d.disk t c };

    ghost fault_count = { λ d. M.fault_count d.disk };

    ghost calls = { λ d. M.calls d.disk };

    ghost leads = { λ d made e. HasKept d.account.items d.is_whole made e.account.items e.is_whole };

    ghost reads = { λ d. M.reads d.disk };

    ghost counts_now = { λ d t c le now. M.counts_now d.disk t c le now };

    ghost only_now = { λ d c left. M.only_now d.disk c left };

    ghost leads_nowhere = { λ d. kept_none d.account.items d.is_whole };

    ghost leads_on = { λ a b c first rest one two. kept_both a.account.items b.account.items c.account.items a.is_whole b.is_whole c.is_whole first rest one two };

    fn size(&self) -> u32 {
        self.disk.size()
    }

    fn faults(&self) -> u64 {
        self.disk.faults()
    }

    fn read(&mut self, at: u32, out: &mut [u8]) -> Result<(), Failed> {
        self.disk.read(at, out)
    }

    fn write_at(&mut self, at: u32, bytes: &[u8]) -> Result<(), Failed> {
        let answer = self.disk.write_at(at, bytes);
        self.keep(Asked::Write(at, bytes.len()), answer.is_err());
        answer
    }

    fn sync(&mut self) -> Result<(), Failed> {
        let answer = self.disk.sync();
        self.keep(Asked::Sync, answer.is_err());
        answer
    }
}
