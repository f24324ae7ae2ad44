//! Ids that may be absent.

ghost use Rattle.std.specs.Prelude.{◌≡◌, ◌<◌, ◌^◌, ℕ, option_map};
ghost use Rattle.byteorder.specs.Endian.{big_bytes};
ghost use Rattle.fc_format.specs.Bytes.{id_code};
ghost use Rattle.fc_format.specs.Fields.{optional};

use crate::cursor::{Cursor, ReadError};
use crate::field::{Field, Put};
use fc_base::ids::{GroupId, MapId, VolId};
use fc_base::outcome::NoMemory;
use std::alloc::Global;

/// The number that stands for an absent id.
const NO_ID: u32 = u32::MAX;

/// A number by which something is named.
pub(crate) trait Id: Copy + Drop {
    /// Its number.
    ghost number_of: { Self → ℕ };

    /// The id of a number.
    ghost named: { ℕ → Self };

    /// Its number.
    fn number(self) -> u32
        ensures { result ≡ number_of self };

    /// The id of this number.
    fn with_number(number: u32) -> Self
        ensures { result ≡ named number };
}

impl Id for VolId {
    ghost number_of = { λ id. id.0 };

    ghost named = { λ n. record { 0 = n } };

    fn number(self) -> u32 {
        self.0
    }

    fn with_number(number: u32) -> VolId {
        VolId(number)
    }
}

impl Id for MapId {
    ghost number_of = { λ id. id.0 };

    ghost named = { λ n. record { 0 = n } };

    fn number(self) -> u32 {
        self.0
    }

    fn with_number(number: u32) -> MapId {
        MapId(number)
    }
}

impl Id for GroupId {
    ghost number_of = { λ id. id.0 };

    ghost named = { λ n. record { 0 = n } };

    fn number(self) -> u32 {
        self.0
    }

    fn with_number(number: u32) -> GroupId {
        GroupId(number)
    }
}

impl<I: Id> Put for Option<I> {
    ghost bytes_of = { λ id. big_bytes 4 (id_code I.number_of id) };

    ghost is_typed = { λ id. id_code I.number_of id < 2 ^ 32 };

    fn put(&self, out: &mut Vec<u8>) -> Result<(), NoMemory> {
        let number = match self {
            Some(id) => id.number(),
            None => NO_ID,
        };
        number.put(out)
    }
}

impl<I: Id> Field for Option<I> {
    ghost reading = { optional (λ n. option_map I.named n) };

    fn read(alloc: Global, cursor: &mut Cursor) -> Result<Self, ReadError> {
        let number = u32::read(alloc, cursor)?;
        if number == NO_ID {
            return Ok(None);
        }
        Ok(Some(I::with_number(number)))
    }
}
