//! Records.

ghost use Rattle.std.specs.Prelude.{◌≡◌};
ghost use Rattle.fc_format.specs.Bytes.{record_bytes};
ghost use Rattle.fc_format.specs.Reading.{IsRead};
ghost use Rattle.fc_format.specs.Fields.{record_code, record_kind_of, pair, written, torn, changing, one_record};
ghost use Rattle.fc_format.specs.Ranges.{IsTypedRecord};

use crate::codes::Code;
use crate::cursor::{Cursor, ReadError};
use crate::field::{Field, Put};
use fc_base::ids::{GrainNo, SlotId, VolId};
use fc_base::outcome::NoMemory;
use fc_base::request::Side;
use fc_image::MetaRecord;
use std::alloc::Global;

/// Which record it is.
#[derive(Clone, Copy)]
pub(crate) enum RecordKind {
    /// A move.
    Pair,
    /// A write.
    Written,
    /// A failed write.
    Torn,
    /// A write that is about to begin.
    Changing,
}

impl Code for RecordKind {
    ghost code_of = { record_code };

    ghost meaning = { record_kind_of };

    fn code(self) -> u8 {
        match self {
            RecordKind::Pair => 1,
            RecordKind::Written => 2,
            RecordKind::Torn => 3,
            RecordKind::Changing => 4,
        }
    }

    fn with_code(code: u8) -> Option<RecordKind> {
        match code {
            1 => Some(RecordKind::Pair),
            2 => Some(RecordKind::Written),
            3 => Some(RecordKind::Torn),
            4 => Some(RecordKind::Changing),
            _ => None,
        }
    }
}

/// Takes the fields of a move off the front.
fn take_pair(alloc: Global, cursor: &mut Cursor) -> Result<MetaRecord, ReadError>
    ensures { IsRead (pair cursor.old) result cursor.new }
{
    match Field::read(alloc, cursor) {
        Ok((slot, (volume, (grain, (in_place, empty))))) => Ok(MetaRecord::Pair {
            slot: SlotId(slot),
            volume: VolId(volume),
            grain: GrainNo(grain),
            in_place,
            empty,
        }),
        Err(error) => Err(error),
    }
}

/// Takes the fields of a write off the front.
fn take_written(alloc: Global, cursor: &mut Cursor) -> Result<MetaRecord, ReadError>
    ensures { IsRead (written cursor.old) result cursor.new }
{
    match Field::read(alloc, cursor) {
        Ok((volume, grain)) => Ok(MetaRecord::Written {
            volume: VolId(volume),
            grain: GrainNo(grain),
        }),
        Err(error) => Err(error),
    }
}

/// Takes the fields of a failed write off the front.
fn take_torn(alloc: Global, cursor: &mut Cursor) -> Result<MetaRecord, ReadError>
    ensures { IsRead (torn cursor.old) result cursor.new }
{
    match Field::read(alloc, cursor) {
        Ok((volume, (grain, side))) => Ok(MetaRecord::Torn {
            volume: VolId(volume),
            grain: GrainNo(grain),
            side,
        }),
        Err(error) => Err(error),
    }
}

/// Takes the fields of a write that is about to begin off the front.
fn take_changing(alloc: Global, cursor: &mut Cursor) -> Result<MetaRecord, ReadError>
    ensures { IsRead (changing cursor.old) result cursor.new }
{
    match Field::read(alloc, cursor) {
        Ok((volume, grain)) => Ok(MetaRecord::Changing {
            volume: VolId(volume),
            grain: GrainNo(grain),
        }),
        Err(error) => Err(error),
    }
}

impl Put for MetaRecord {
    ghost bytes_of = { record_bytes };

    ghost is_typed = { IsTypedRecord };

    #[tactic(auto, unfolding(crate::specs::Bytes::record_bytes))]
    fn put(&self, out: &mut Vec<u8>) -> Result<(), NoMemory> {
        match *self {
            MetaRecord::Pair {
                slot,
                volume,
                grain,
                in_place,
                empty,
            } => {
                let told = (slot.0, (volume.0, (grain.0, (in_place, empty))));
                (RecordKind::Pair, told).put(out)
            }
            MetaRecord::Written { volume, grain } => {
                (RecordKind::Written, (volume.0, grain.0)).put(out)
            }
            MetaRecord::Torn {
                volume,
                grain,
                side,
            } => (RecordKind::Torn, (volume.0, (grain.0, side))).put(out),
            MetaRecord::Changing { volume, grain } => {
                (RecordKind::Changing, (volume.0, grain.0)).put(out)
            }
        }
    }
}

impl Field for MetaRecord {
    ghost reading = { one_record };

    fn read(alloc: Global, cursor: &mut Cursor) -> Result<Self, ReadError> {
        let kind = RecordKind::read(alloc, cursor)?;
        match kind {
            RecordKind::Pair => take_pair(alloc, cursor),
            RecordKind::Written => take_written(alloc, cursor),
            RecordKind::Torn => take_torn(alloc, cursor),
            RecordKind::Changing => take_changing(alloc, cursor),
        }
    }
}
