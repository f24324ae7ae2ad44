//! What one grain of a plain volume holds.

ghost use Rattle.std.specs.Prelude.{◌≡◌, ℕ, ◌+◌, ◌++◌, Some, None, IfOk, OnOk, MatchOption, take, drop, replicate};
ghost use Rattle.fc_entry.specs.Picture.{Bytes, Lost, written};

use fc_base::outcome::NoMemory;
use std::alloc::Global;
use std::marker::Model;

/// The bytes of a grain.
#[derive(Drop)]
pub(crate) struct GrainBytes {
    bytes: Vec<u8>,
}

impl Model for GrainBytes {
    ghost use Rattle.std.specs.Prelude.{ℕ, List};

    ghost Value = { List ℕ };

    ghost view = { λ b. b.bytes.items };
}

impl GrainBytes {
    /// So many bytes of one value.
    fn filled(alloc: Global, count: usize, byte: u8) -> Result<GrainBytes, NoMemory>
        ensures { IfOk result (λ b. b ≡ replicate count byte) }
    {
        match vec![in alloc; byte; count] {
            Ok(bytes) => Ok(GrainBytes { bytes }),
            Err(_) => Err(NoMemory),
        }
    }

    /// Other bytes like these.
    fn copy(&self, alloc: Global) -> Result<GrainBytes, NoMemory>
        ensures { IfOk result (λ b. b ≡ self.now) }
    {
        match Vec::from_slice(alloc, self.bytes.as_slice()) {
            Ok(bytes) => Ok(GrainBytes { bytes }),
            Err(_) => Err(NoMemory),
        }
    }

    /// The bytes.
    pub(crate) fn as_slice(&self) -> &[u8]
        ensures { result.now ≡ self.now }
    {
        self.bytes.as_slice()
    }

    /// These bytes with one byte at `count` places from `from` on.
    fn with(
        &self,
        alloc: Global,
        from: usize,
        count: usize,
        byte: u8,
    ) -> Result<GrainBytes, NoMemory>
        ensures { IfOk result (λ b. b ≡ take from self.now ++ replicate count byte ++ drop (from + count) self.now) }
    {
        let bytes = self.bytes.as_slice();
        let mut new = GrainBytes::filled(alloc, 0, 0)?;
        new.add(front_of(bytes, from))?;
        let middle = GrainBytes::filled(alloc, count, byte)?;
        new.add(middle.as_slice())?;
        new.add(rest_of(rest_of(bytes, from), count))?;
        Ok(new)
    }

    /// Puts bytes at the end.
    fn add(&mut self, bytes: &[u8]) -> Result<(), NoMemory>
        ensures { OnOk result (self.new ≡ self.old ++ bytes.now) }
    {
        match self.bytes.extend_from_slice(bytes) {
            Ok(()) => Ok(()),
            Err(_) => Err(NoMemory),
        }
    }
}

/// The first so many bytes, or all where there are fewer.
pub(crate) fn front_of(bytes: &[u8], count: usize) -> &[u8]
    ensures { result.now ≡ take count bytes.now }
{
    if count < bytes.len() {
        &bytes[..count]
    } else {
        bytes
    }
}

/// What is behind the first so many bytes.
pub(crate) fn rest_of(bytes: &[u8], count: usize) -> &[u8]
    ensures { result.now ≡ drop count bytes.now }
{
    if count < bytes.len() {
        &bytes[count..]
    } else {
        &[]
    }
}

/// What a grain holds: bytes, or nothing that can be read.
#[derive(Drop)]
pub(crate) struct Grain {
    bytes: Option<GrainBytes>,
}

impl Model for Grain {
    ghost use Rattle.fc_entry.specs.Picture.{Content};
    ghost use Rattle.fc_plain.specs.Grains.{content_of};

    ghost Value = { Content };

    ghost view = { λ g. content_of g.bytes };
}

impl Grain {
    /// A grain of so many zeros.
    pub(crate) fn zeros(alloc: Global, size: usize) -> Result<Grain, NoMemory>
        ensures { IfOk result (λ g. g ≡ Bytes (replicate size 0)) }
    {
        let bytes = GrainBytes::filled(alloc, size, 0)?;
        Ok(Grain { bytes: Some(bytes) })
    }

    /// A grain that was lost.
    pub(crate) fn lost() -> Grain
        ensures { result ≡ Lost }
    {
        Grain { bytes: None }
    }

    /// Another grain like it.
    pub(crate) fn copy(&self, alloc: Global) -> Result<Grain, NoMemory>
        ensures { IfOk result (λ g. g ≡ self.now) }
    {
        match &self.bytes {
            Some(bytes) => {
                let bytes = bytes.copy(alloc)?;
                Ok(Grain { bytes: Some(bytes) })
            }
            None => Ok(Grain { bytes: None }),
        }
    }

    /// What it holds after one byte was written at `count` places from `from` on; a lost grain is written whole.
    pub(crate) fn after_write(
        &self,
        alloc: Global,
        from: usize,
        count: usize,
        byte: u8,
    ) -> Result<Grain, NoMemory>
        ensures { IfOk result (λ g. g ≡ written from count byte self.now) }
    {
        match &self.bytes {
            Some(bytes) => {
                let bytes = bytes.with(alloc, from, count, byte)?;
                Ok(Grain { bytes: Some(bytes) })
            }
            None => {
                let bytes = GrainBytes::filled(alloc, count, byte)?;
                Ok(Grain { bytes: Some(bytes) })
            }
        }
    }

    /// Its bytes, and None exactly where it was lost.
    pub(crate) fn bytes(&self) -> Option<&[u8]>
        ensures { MatchOption result (self.now ≡ Lost) (λ bytes. self.now ≡ Bytes bytes.now) }
    {
        match &self.bytes {
            Some(bytes) => Some(bytes.as_slice()),
            None => None,
        }
    }
}
