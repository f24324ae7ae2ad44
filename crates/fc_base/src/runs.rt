//! Runs of equal bytes.

ghost use Rattle.std.specs.Prelude.{◌≡◌, ◌≢◌, ◌<◌, ◌≤◌, ◌^◌, length, IfOk, take, drop, replicate, slice_index, ◌-◌, [], ◌∷◌, ◌++◌, OnOk, OnErr};
ghost use Rattle.fc_base.specs.declared.runs.Run.{Run};
ghost use Rattle.fc_base.specs.Runs.{expanded, EndsOtherwise, IsCanonical};

use crate::outcome::NoMemory;
use std::alloc::Global;
use std::marker::Model;

/// So many bytes of one value.
#[derive(Clone, Copy, PartialEq, Eq)]
pub struct Run {
    /// How many, above 0.
    pub count: u32,
    /// The byte.
    pub byte: u8,
}

/// Bytes as runs of equal bytes: no run is empty, and no two neighbours have the same byte.
#[derive(Drop)]
pub struct Runs {
    runs: Vec<Run>,
}

impl Model for Runs {
    ghost use Rattle.std.specs.Prelude.{List};
    ghost use Rattle.fc_base.specs.declared.runs.Run.{Run};

    ghost Value = { List Run };

    ghost use Rattle.fc_base.specs.Runs.{IsCanonical};

    ghost view = { λ r. r.runs.items };

    ghost invariant = { λ r. IsCanonical r.runs.items };
}

impl Runs {
    /// No byte. Takes no memory.
    pub fn new(alloc: Global) -> Self
        ensures { result ≡ [] }
    {
        Runs {
            runs: Vec::new(alloc),
        }
    }

    /// Puts a run behind all others: it isn't empty, and the last one has another byte. Refused, the runs are as they were.
    pub fn push(&mut self, run: Run) -> Result<(), NoMemory>
        requires counts { 0 < run.count }
        requires behind { EndsOtherwise self.old run.byte }
        ensures ok { OnOk result (self.new ≡ self.old ++ run ∷ []) }
        ensures err { OnErr result (self.new ≡ self.old) }
    {
        match self.runs.push(run) {
            Ok(()) => Ok(()),
            Err(_) => Err(NoMemory),
        }
    }

    /// The runs of these bytes, of which there are fewer than 2^32.
    pub fn of(alloc: Global, bytes: &[u8]) -> Result<Runs, NoMemory>
        requires { length bytes.now < 2 ^ 32 }
        ensures expands { IfOk result (λ runs. expanded runs ≡ bytes.now) }
        ensures canonical { IfOk result (λ runs. IsCanonical runs) }
    {
        let mut runs: Vec<Run> = Vec::new(alloc);
        let mut start = 0;
        while start < bytes.len() {
            let byte = bytes[start];
            let count = equal_bytes(&bytes[start..], byte);
            match runs.push(Run { count, byte }) {
                Ok(()) => {}
                Err(_) => return Err(NoMemory),
            }
            start += count as usize;
        }
        Ok(Runs { runs })
    }
}

/// How many of the first bytes are this byte.
fn equal_bytes(bytes: &[u8], byte: u8) -> u32
    requires { length bytes.now < 2 ^ 32 }
    ensures within { result ≤ length bytes.now }
    ensures equal { take result bytes.now ≡ replicate result byte }
    ensures stops { result < length bytes.now → slice_index bytes.now result ≢ byte }
{
    let mut count = 0;
    for next in bytes {
        if *next != byte {
            return count;
        }
        count += 1;
    }
    count
}

impl Runs {
    /// The runs, in order.
    pub fn as_slice(&self) -> &[Run]
        ensures value { result.now ≡ self.now }
        ensures canonical { IsCanonical self.now }
    {
        self.runs.as_slice()
    }

    /// Puts the bytes that the runs stand for into `out`, which has room for just these.
    pub fn expand(&self, out: &mut [u8])
        requires { length out.old ≡ length (expanded self.now) }
        ensures { out.new ≡ expanded self.now }
    {
        fill_runs(self.runs.as_slice(), out);
    }
}

/// Puts one byte at the places from `start` to before `end`.
fn fill_part(out: &mut [u8], start: usize, end: usize, byte: u8)
    requires order { start ≤ end }
    requires within { end ≤ length out.old }
    ensures filled { out.new ≡ take start out.old ++ replicate (end - start) byte ++ drop end out.old }
    ensures len { length out.new ≡ length out.old }
{
    out[start..end].fill(byte);
}

/// Puts the bytes that runs stand for into `out`.
fn fill_runs(runs: &[Run], out: &mut [u8])
    requires { length out.old ≡ length (expanded runs.now) }
    ensures { out.new ≡ expanded runs.now }
{
    let mut start = 0;
    for run in runs {
        let end = start + run.count as usize;
        fill_part(out, start, end, run.byte);
        start = end;
    }
}
