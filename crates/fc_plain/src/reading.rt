//! Reads of plain volumes.

ghost use Rattle.std.specs.Prelude.{◌≡◌, ℕ, ◌+◌, ◌++◌, ◌<◌, ◌≤◌, ◌^◌, ◌↔◌, IfOk, OnOk, IsTrue, Some, length, take, drop};
ghost use Rattle.fc_base.specs.Grain.{block_bytes, grain_blocks};
ghost use Rattle.fc_entry.specs.Picture.{grain_of_block};
ghost use Rattle.fc_plain.specs.Reading.{AllThere, SomeLost, IsReadOf, IsPlainRead, IsRunsOf};

use crate::change::{byte_at, grain_at};
use crate::grain::{front_of, rest_of};
use crate::volume::Volume;
use fc_base::ids::VolId;
use fc_base::outcome::NoMemory;
use fc_base::runs::Runs;
use fc_base::size::GrainSize;
use std::alloc::Global;

/// What a read of plain volumes answers.
#[derive(Drop)]
pub enum PlainRead {
    /// The volume, or one of the blocks, isn't there.
    NoSuch,
    /// One of the blocks stands in a lost grain.
    Lost,
    /// The bytes of the blocks.
    Bytes(Runs),
}

/// Whether a volume of so many grains has all these blocks.
fn has_blocks(grain: GrainSize, grains: usize, block: u64, count: u32) -> bool
    ensures { IsTrue result ↔ ((b : ℕ) → block ≤ b → b < block + count → grain_of_block grain b < grains) }
{
    let blocks = grain.blocks() as u128 * grains as u128;
    count == 0 || block as u128 + count as u128 <= blocks
}

/// Adds the bytes of a block that begins at `from` in its grain.
fn add_block(buffer: &mut Vec<u8>, bytes: &[u8], from: usize) -> Result<(), NoMemory>
    ensures { OnOk result (buffer.new.items ≡ buffer.old.items ++ take block_bytes (drop from bytes.now)) }
{
    match buffer.extend_from_slice(front_of(rest_of(bytes, from), 512)) {
        Ok(()) => Ok(()),
        Err(_) => Err(NoMemory),
    }
}

/// The runs of gathered bytes.
fn runs_of(alloc: Global, buffer: &[u8]) -> Result<PlainRead, NoMemory>
    requires { length buffer.now < 2 ^ 32 }
    ensures { IfOk result (λ read. IsRunsOf buffer.now read) }
{
    let runs = Runs::of(alloc, buffer)?;
    Ok(PlainRead::Bytes(runs))
}

/// Reads blocks of a volume, which has them.
fn read_blocks(
    alloc: Global,
    grain: GrainSize,
    volume: &Volume,
    block: u64,
    count: u32,
) -> Result<PlainRead, NoMemory>
    requires few { count < 2 ^ 23 }
    requires there { AllThere grain (Some volume.now) block count }
    requires fits { block + count < 2 ^ 64 }
    ensures { IfOk result (λ read. IsReadOf grain (Some volume.now) block count read) }
{
    let mut buffer = Vec::new(alloc);
    for offset in 0..count {
        let next = block + offset as u64;
        match volume.now()[grain_at(grain, next) as usize].bytes() {
            Some(bytes) => add_block(&mut buffer, bytes, byte_at(grain, next))?,
            None => return Ok(PlainRead::Lost),
        }
    }
    runs_of(alloc, buffer.as_slice())
}

/// Reads blocks of a volume. Refused also where the number of a block past the last would be 2^64.
fn read_volume(
    alloc: Global,
    grain: GrainSize,
    volume: &Volume,
    block: u64,
    count: u32,
) -> Result<PlainRead, NoMemory>
    requires { count < 2 ^ 23 }
    ensures { IfOk result (λ read. IsReadOf grain (Some volume.now) block count read) }
{
    if !has_blocks(grain, volume.now().len(), block, count) {
        return Ok(PlainRead::NoSuch);
    }
    match block.checked_add(count as u64) {
        Some(_) => read_blocks(alloc, grain, volume, block, count),
        None => Err(NoMemory),
    }
}

/// Reads blocks of the volume with an id.
pub(crate) fn read_among(
    alloc: Global,
    grain: GrainSize,
    volumes: &[Volume],
    id: VolId,
    block: u64,
    count: u32,
) -> Result<PlainRead, NoMemory>
    requires { count < 2 ^ 23 }
    ensures { IfOk result (λ read. IsPlainRead grain volumes.now id block count read) }
{
    for volume in volumes {
        if volume.is(id) {
            return read_volume(alloc, grain, volume, block, count);
        }
    }
    Ok(PlainRead::NoSuch)
}
