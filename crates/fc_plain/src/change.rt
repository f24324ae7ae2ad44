//! What a write and a torn grain do to plain volumes.

ghost use Rattle.std.specs.Prelude.{◌≡◌, ◌*◌, ◌++◌, IfOk, OnOk, OnErr, map, take, drop};
ghost use Rattle.fc_base.specs.Grain.{block_bytes};
ghost use Rattle.fc_entry.specs.Picture.{grain_of_block, byte_in_grain};
ghost use Rattle.fc_entry.specs.PlainStep.{after_loss};
ghost use Rattle.fc_plain.specs.Changes.{write_if, tear_if, after_done, fresh_of, put_if};

use crate::grain::Grain;
use crate::volume::Volume;
use fc_base::outcome::NoMemory;
use fc_base::request::{Torn, WritePart};
use fc_base::size::GrainSize;
use std::alloc::Global;

/// The grain in which a block stands.
pub fn grain_at(grain: GrainSize, block: u64) -> u64
    ensures { result ≡ grain_of_block grain block }
{
    match grain {
        GrainSize::K64 => block / 128,
        GrainSize::K256 => block / 512,
    }
}

/// The first byte of a block in its grain.
pub(crate) fn byte_at(grain: GrainSize, block: u64) -> usize
    ensures { result ≡ byte_in_grain grain block }
{
    match grain {
        GrainSize::K64 => 512 * (block % 128) as usize,
        GrainSize::K256 => 512 * (block % 512) as usize,
    }
}

/// How many bytes so many blocks have.
fn bytes_of_blocks(count: u32) -> usize
    ensures { result ≡ block_bytes * count }
{
    512 * count as usize
}

/// What the grain of a write becomes, in the volume that is written.
fn fresh_grain(
    alloc: Global,
    grain: GrainSize,
    volume: &Volume,
    part: WritePart,
) -> Result<Option<Grain>, NoMemory>
    ensures { IfOk result (λ fresh. fresh ≡ fresh_of grain part volume.now) }
{
    if volume.is(part.volume) {
        let fresh = volume.written_at(
            alloc,
            grain_at(grain, part.block),
            byte_at(grain, part.block),
            bytes_of_blocks(part.count),
            part.byte,
        )?;
        Ok(Some(fresh))
    } else {
        Ok(None)
    }
}

/// A grain of a volume becomes another, if there is one.
fn put_fresh(volume: &mut Volume, place: u64, fresh: Option<Grain>)
    ensures { volume.new ≡ put_if place fresh volume.old }
{
    match fresh {
        Some(grain) => volume.put(place, grain),
        None => {}
    }
}

/// Does a write to the volumes from an index on. All memory is taken before the first one changes: refused, all are as they
/// were.
fn write_from(
    alloc: Global,
    grain: GrainSize,
    volumes: &mut [Volume],
    index: usize,
    part: WritePart,
) -> Result<(), NoMemory>
    ensures ok { OnOk result (volumes.new ≡ take index volumes.old ++ map (write_if grain part) (drop index volumes.old)) }
    ensures err { OnErr result (volumes.new ≡ volumes.old) }
{
    if index >= volumes.len() {
        return Ok(());
    }
    let fresh = fresh_grain(alloc, grain, &volumes[index], part)?;
    write_from(alloc, grain, volumes, index + 1, part)?;
    put_fresh(&mut volumes[index], grain_at(grain, part.block), fresh);
    Ok(())
}

/// Does a write, if there is one. Refused, all volumes are as they were.
pub(crate) fn write_done(
    alloc: Global,
    grain: GrainSize,
    volumes: &mut [Volume],
    write: Option<WritePart>,
) -> Result<(), NoMemory>
    ensures ok { OnOk result (volumes.new ≡ after_done grain volumes.old write) }
    ensures err { OnErr result (volumes.new ≡ volumes.old) }
{
    match write {
        Some(part) => write_from(alloc, grain, volumes, 0, part),
        None => Ok(()),
    }
}

/// A failed write left any bytes in a grain.
fn tear_grain(volumes: &mut [Volume], torn: Torn)
    ensures { volumes.new ≡ map (tear_if torn) volumes.old }
{
    for volume in volumes.iter_mut() {
        volume.tear_where(torn);
    }
}

/// A failed write left any bytes in a grain, if there was one.
pub(crate) fn tear_torn(volumes: &mut [Volume], torn: Option<Torn>)
    ensures { volumes.new ≡ after_loss volumes.old torn }
{
    match torn {
        Some(torn) => tear_grain(volumes, torn),
        None => {}
    }
}
