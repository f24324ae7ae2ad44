//! Bytes that are read from the front.

ghost use Rattle.std.specs.Prelude.{◌≡◌, ◌≤◌, ◌<◌, ◌^◌, length, OnSome};
ghost use Rattle.fc_format.specs.Left.{place, passed, first_byte};

use std::marker::Model;

/// Why bytes couldn't be read.
#[derive(Clone, Copy)]
pub enum ReadError {
    /// Memory was wanted.
    NoMemory,
    /// The bytes at this place of the disk don't continue the format.
    Damaged(u32),
}

/// The bytes that are left to be read.
#[derive(Drop)]
pub(crate) struct Cursor<'a> {
    bytes: &'a [u8],
    // the place on the disk at which they end
    end: u32,
}

impl<'a> Model for Cursor<'a> {
    ghost use Rattle.fc_format.specs.Left.{Left};

    ghost Value = { Left };

    ghost view = { λ c. record { bytes = c.bytes.now; end = c.end } };
}

impl<'a> Cursor<'a> {
    /// All these bytes are left; they end at this place of the disk.
    pub fn new(bytes: &'a [u8], end: u32) -> Self
        ensures { result ≡ record { bytes = bytes.now; end = end } }
    {
        Cursor { bytes, end }
    }

    /// The bytes that are left.
    pub fn bytes(&self) -> &'a [u8]
        ensures { result.now ≡ self.now.bytes }
    {
        self.bytes
    }

    /// The place on the disk at which the bytes end.
    pub fn end(&self) -> u32
        ensures { result ≡ self.now.end }
    {
        self.end
    }

    /// The first byte. None where no byte is left.
    pub fn first(&self) -> Option<u8>
        ensures value { result ≡ first_byte self.now.bytes }
        ensures there { OnSome result (1 ≤ length self.now.bytes) }
    {
        match self.bytes {
            [first, ..] => Some(*first),
            [] => None,
        }
    }

    /// Passes over so many bytes, which are there.
    pub fn skip(&mut self, count: usize)
        requires { count ≤ length self.old.bytes }
        ensures { self.new ≡ passed count self.old }
    {
        self.bytes = &self.bytes[count..];
    }

    /// The bytes don't continue the format here.
    pub fn damaged(&self) -> ReadError
        ensures { result ≡ ReadError.Damaged (place self.now) }
    {
        ReadError::Damaged((self.end as usize).saturating_sub(self.bytes.len()) as u32)
    }
}
