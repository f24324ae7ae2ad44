//! What an open half stands for.

ghost use Rattle.std.specs.Prelude.{◌≡◌, ◌≤◌, length, OnSome, option_map};
ghost use Rattle.fc_format.specs.Reading.{IfPart, part_of, counted, IsRead, items_read};
ghost use Rattle.fc_format.specs.Fields.{records};
ghost use Rattle.fc_format.specs.Halves.{batches, IsHalfRead};

use crate::cursor::{Cursor, ReadError};
use crate::field::Field;
use byteorder::{BigEndian, ByteOrder};
use fc_base::outcome::NoMemory;
use fc_image::{MetaImage, MetaRecord, with_records};
use std::alloc::Global;
use std::marker::Model;

/// Records that fill the bytes that are left.
#[derive(Drop)]
struct Records {
    all: Vec<MetaRecord>,
}

impl Model for Records {
    ghost use Rattle.std.specs.Prelude.{List};
    ghost use Rattle.fc_image.specs.declared.record.MetaRecord.{MetaRecord};

    ghost Value = { List MetaRecord };

    ghost view = { λ r. r.all.items };
}

impl Field for Records {
    ghost reading = { records };

    fn read(alloc: Global, cursor: &mut Cursor) -> Result<Self, ReadError> {
        let mut all = Vec::new(alloc);
        let count = cursor.bytes().len();
        for taken in 0..count {
            let _ = taken;
            match cursor.first() {
                None => return Ok(Records { all }),
                Some(_) => {
                    let record = MetaRecord::read(alloc, cursor)?;
                    if all.push(record).is_err() {
                        return Err(ReadError::NoMemory);
                    }
                }
            }
        }
        match cursor.first() {
            Some(_) => Err(cursor.damaged()),
            None => Ok(Records { all }),
        }
    }
}

/// The part that a length of four bytes counts; passes over both. None where the bytes are fewer, and then nothing is passed.
fn take_part<'a>(cursor: &mut Cursor<'a>) -> Option<Cursor<'a>>
    ensures front { result ≡ option_map (λ part. part.front) (part_of cursor.old) }
    ensures behind { IfPart (part_of cursor.old) cursor.old cursor.new }
{
    let bytes = cursor.bytes();
    if bytes.len() < 4 {
        return None;
    }
    let count = BigEndian::read_u32(bytes) as usize;
    let rest = &bytes[4..];
    if rest.len() < count {
        return None;
    }
    let end = (cursor.end() as usize).saturating_sub(bytes.len() - 4 - count) as u32;
    cursor.skip(4 + count);
    Some(Cursor::new(&rest[..count], end))
}

/// Takes a part behind its length, which one value fills.
fn take_counted<T: Field>(alloc: Global, cursor: &mut Cursor) -> Result<T, ReadError>
    ensures { IsRead (counted T.reading cursor.old) result cursor.new }
{
    let mut part = match take_part(cursor) {
        Some(part) => part,
        None => return Err(cursor.damaged()),
    };
    let value = T::read(alloc, &mut part)?;
    match part.first() {
        Some(_) => Err(part.damaged()),
        None => Ok(value),
    }
}

/// Takes the batches whose gates are open, and the first gate that is closed.
fn take_batches(alloc: Global, cursor: &mut Cursor) -> Result<Vec<MetaRecord>, ReadError>
    ensures { IsRead (batches cursor.old) (items_read result) cursor.new }
{
    let mut all = Vec::new(alloc);
    let count = cursor.bytes().len();
    for taken in 0..count {
        let _ = taken;
        match cursor.first() {
            None => return Err(cursor.damaged()),
            Some(gate) => {
                cursor.skip(1);
                if gate != 1 {
                    return Ok(all);
                }
                let records: Records = take_counted(alloc, cursor)?;
                if all.extend_from_slice(&records.all).is_err() {
                    return Err(ReadError::NoMemory);
                }
            }
        }
    }
    Err(cursor.damaged())
}

/// The image of an open half with its open batches applied, and how many bytes stand before its closed gate. `bytes` are
/// those of the half behind its generation, and `end` is the place of the disk at which they end.
pub fn image_in(alloc: Global, bytes: &[u8], end: u32) -> Result<(MetaImage, usize), ReadError>
    ensures { IsHalfRead bytes.now end result }
{
    let mut cursor = Cursor::new(bytes, end);
    let image: MetaImage = take_counted(alloc, &mut cursor)?;
    let records = take_batches(alloc, &mut cursor)?;
    let left = cursor.bytes().len();
    let closed = bytes.len() - left - 1;
    match with_records(alloc, image, &records) {
        Ok(image) => Ok((image, closed)),
        Err(NoMemory) => Err(ReadError::NoMemory),
    }
}
