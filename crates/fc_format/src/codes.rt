//! Fields of one byte.

ghost use Rattle.std.specs.Prelude.{◌≡◌, ℕ, ⊤, Option, Some};
ghost use Rattle.fc_format.specs.Bytes.{byte, flag_code, kind_code, side_code, state_code};
ghost use Rattle.fc_format.specs.Reading.{choice};
ghost use Rattle.fc_format.specs.Fields.{flag_of, kind_of, side_of, state_of};

use crate::cursor::{Cursor, ReadError};
use crate::field::{Field, Put, put_bytes};
use fc_base::disk::DiskKind;
use fc_base::outcome::NoMemory;
use fc_base::request::Side;
use fc_base::state::MapState;
use std::alloc::Global;

/// A value for which a byte stands.
pub(crate) trait Code: Copy + Drop {
    /// The byte that stands for it.
    ghost code_of: { Self → ℕ };

    /// The value that a byte stands for. None where it stands for no value.
    ghost meaning: { ℕ → Option Self };

    /// The byte that stands for it.
    fn code(self) -> u8
        ensures { result ≡ code_of self };

    /// The value that a byte stands for. None where it stands for no value.
    fn with_code(code: u8) -> Option<Self>
        ensures { result ≡ meaning code };
}

impl<C: Code> Put for C {
    ghost bytes_of = { λ value. byte (C.code_of value) };

    ghost is_typed = { λ value. ⊤ };

    fn put(&self, out: &mut Vec<u8>) -> Result<(), NoMemory> {
        put_bytes(out, &[self.code()])
    }
}

impl<C: Code> Field for C {
    ghost reading = { choice C.meaning };

    fn read(_alloc: Global, cursor: &mut Cursor) -> Result<Self, ReadError> {
        match cursor.first() {
            Some(code) => match C::with_code(code) {
                Some(value) => {
                    cursor.skip(1);
                    Ok(value)
                }
                None => Err(cursor.damaged()),
            },
            None => Err(cursor.damaged()),
        }
    }
}

impl Code for u8 {
    ghost code_of = { λ n. n };

    ghost meaning = { λ n. Some n };

    fn code(self) -> u8 {
        self
    }

    fn with_code(code: u8) -> Option<u8> {
        Some(code)
    }
}

impl Code for bool {
    ghost code_of = { flag_code };

    ghost meaning = { flag_of };

    fn code(self) -> u8 {
        u8::from(self)
    }

    fn with_code(code: u8) -> Option<bool> {
        match code {
            0 => Some(false),
            1 => Some(true),
            _ => None,
        }
    }
}

impl Code for DiskKind {
    ghost code_of = { kind_code };

    ghost meaning = { kind_of };

    fn code(self) -> u8 {
        match self {
            DiskKind::Flat => 0,
            DiskKind::Thin => 1,
        }
    }

    fn with_code(code: u8) -> Option<DiskKind> {
        match code {
            0 => Some(DiskKind::Flat),
            1 => Some(DiskKind::Thin),
            _ => None,
        }
    }
}

impl Code for Side {
    ghost code_of = { side_code };

    ghost meaning = { side_of };

    fn code(self) -> u8 {
        match self {
            Side::Now => 0,
            Side::Under => 1,
        }
    }

    fn with_code(code: u8) -> Option<Side> {
        match code {
            0 => Some(Side::Now),
            1 => Some(Side::Under),
            _ => None,
        }
    }
}

impl Code for MapState {
    ghost code_of = { state_code };

    ghost meaning = { state_of };

    fn code(self) -> u8 {
        match self {
            MapState::Empty => 0,
            MapState::IdleOrCopied => 1,
            MapState::Preparing => 2,
            MapState::Prepared => 3,
            MapState::Copying => 4,
            MapState::Stopping => 5,
            MapState::Stopped => 6,
        }
    }

    fn with_code(code: u8) -> Option<MapState> {
        match code {
            0 => Some(MapState::Empty),
            1 => Some(MapState::IdleOrCopied),
            2 => Some(MapState::Preparing),
            3 => Some(MapState::Prepared),
            4 => Some(MapState::Copying),
            5 => Some(MapState::Stopping),
            6 => Some(MapState::Stopped),
            _ => None,
        }
    }
}
