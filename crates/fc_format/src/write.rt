//! What stands behind a gate: an image with its generation, or a batch of records.

ghost use Rattle.std.specs.Prelude.{◌≡◌, ◌++◌, length, All, IfOk, OnOk, min, ◌+◌, ◌^◌, ◌-◌};
ghost use Rattle.std.specs.List.{sum_by};
ghost use Rattle.byteorder.specs.Endian.{big_bytes};
ghost use Rattle.fc_format.specs.Bytes.{byte, half_bytes, batch_bytes, record_bytes};
ghost use Rattle.fc_format.specs.Ranges.{IsTypedImage, IsTypedRecord};

use crate::field::{Put, put_bytes, put_count, put_items};
use fc_base::outcome::NoMemory;
use fc_image::{MetaImage, MetaRecord};
use std::alloc::Global;

/// Puts what was written behind its length, and a closed gate behind it.
fn put_gated(out: &mut Vec<u8>, written: &[u8]) -> Result<(), NoMemory>
    ensures { OnOk result (out.new.items ≡ out.old.items ++ (big_bytes 4 (length written.now) ++ (written.now ++ byte 0))) }
{
    put_count(out, written.len())?;
    put_bytes(out, written)?;
    put_bytes(out, &[0])?;
    Ok(())
}

/// The bytes behind the gate of a half: generation, length, image, and the closed gate of the first batch.
pub fn half_with(alloc: Global, generation: u64, image: &MetaImage) -> Result<Vec<u8>, NoMemory>
    ensures bytes { IfOk result (λ bytes. bytes.items ≡ half_bytes generation image.now) }
    ensures typed { IfOk result (λ bytes. IsTypedImage image.now) }
{
    let mut written = Vec::new(alloc);
    image.put(&mut written)?;
    let mut bytes = Vec::new(alloc);
    generation.put(&mut bytes)?;
    put_gated(&mut bytes, &written)?;
    Ok(bytes)
}

/// The bytes behind the gate of a batch: length, records, and the closed gate of the next one.
pub fn batch_with(alloc: Global, records: &[MetaRecord]) -> Result<Vec<u8>, NoMemory>
    ensures bytes { IfOk result (λ bytes. bytes.items ≡ batch_bytes records.now) }
    ensures typed { IfOk result (λ bytes. All IsTypedRecord records.now) }
{
    let mut written = Vec::new(alloc);
    put_items(&mut written, records)?;
    let mut bytes = Vec::new(alloc);
    put_gated(&mut bytes, &written)?;
    Ok(bytes)
}

/// How many bytes a record takes: 19 a move, 10 a failed write, 9 each other.
fn record_len(told: MetaRecord) -> u64
    ensures { result ≡ length (record_bytes told) }
{
    match told {
        MetaRecord::Pair { .. } => 19,
        MetaRecord::Torn { .. } => 10,
        MetaRecord::Written { .. } => 9,
        MetaRecord::Changing { .. } => 9,
    }
}

/// How many bytes a batch takes behind its gate, the closed gate of the next one included; 2^64 - 1 where they are as many or
/// more.
pub fn batch_len(records: &[MetaRecord]) -> u64
    ensures { result ≡ min (length (batch_bytes records.now)) (2 ^ 64 - 1) }
{
    let mut all: u64 = 5;
    for record in records {
        all = all.saturating_add(record_len(*record));
    }
    all
}
