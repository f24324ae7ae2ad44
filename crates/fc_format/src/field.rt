//! What a part of an image writes and reads, and the parts that all others are made of.

ghost use Rattle.std.specs.Prelude.{◌≡◌, ◌<◌, ◌≤◌, ◌^◌, ◌++◌, List, ℕ, ⊤, All, IsTrue, true, length, IfOk, OnOk};
ghost use Rattle.std.specs.List.{flat_map};
ghost use Rattle.std.specs.Result.{result_map_both};
ghost use Rattle.byteorder.specs.Endian.{big_bytes, big_number};
ghost use Rattle.fc_base.specs.Names.{is_name};
ghost use Rattle.fc_format.specs.Bytes.{name_bytes, list_bytes, words_bytes};
ghost use Rattle.fc_format.specs.Left.{Left};
ghost use Rattle.fc_format.specs.Reading.{Reading, number, name, both, items, list, IsRead, items_read};
ghost use Rattle.fc_format.specs.Fields.{words};
ghost use Rattle.fc_format.specs.Ranges.{AreWords};

use crate::cursor::{Cursor, ReadError};
use byteorder::{BigEndian, ByteOrder};
use fc_base::list::List;
use fc_base::name::Name;
use fc_base::outcome::NoMemory;
use fc_image::Words;
use std::alloc::{AllocError, Global};

/// What is written as bytes.
pub(crate) trait Put {
    /// The bytes that stand for it.
    ghost bytes_of: { Self → List ℕ };

    /// Its numbers are of their types.
    ghost is_typed: { Self → Type 0 };

    /// Puts its bytes at the end.
    fn put(&self, out: &mut Vec<u8>) -> Result<(), NoMemory>
        ensures bytes { OnOk result (out.new.items ≡ out.old.items ++ bytes_of self.now) }
        ensures typed { OnOk result (is_typed self.now) };
}

/// What is read from bytes.
pub(crate) trait Field: Drop + Sized {
    /// What bytes are read as.
    ghost reading: { Left → Reading Self };

    /// Takes one off the front.
    fn read(alloc: Global, cursor: &mut Cursor) -> Result<Self, ReadError>
        ensures { IsRead (reading cursor.old) result cursor.new };
}

/// Puts bytes at the end.
pub(crate) fn put_bytes(out: &mut Vec<u8>, bytes: &[u8]) -> Result<(), NoMemory>
    ensures { OnOk result (out.new.items ≡ out.old.items ++ bytes.now) }
{
    match out.extend_from_slice(bytes) {
        Ok(()) => Ok(()),
        Err(_) => Err(NoMemory),
    }
}

/// Puts the lowest four bytes of a count at the end.
pub(crate) fn put_count(out: &mut Vec<u8>, count: usize) -> Result<(), NoMemory>
    ensures { OnOk result (out.new.items ≡ out.old.items ++ big_bytes 4 count) }
{
    let mut buffer = [0u8; 8];
    let bytes: &mut [u8] = &mut buffer;
    BigEndian::write_u64(bytes, count as u64);
    put_bytes(out, &bytes[4..])
}

/// A part that stays where it is.
pub(crate) struct Lent<'a, T>(pub(crate) &'a T);

impl<'a, T> Clone for Lent<'a, T> {
    ghost is_clone = { λ lent clone. clone ≡ lent };

    ghost is_infallible = { λ lent. ⊤ };

    fn clone(&self) -> Result<Self, AllocError> {
        Ok(*self)
    }
}

impl<'a, T> Copy for Lent<'a, T> {}

impl<'a, T: Put> Put for Lent<'a, T> {
    ghost bytes_of = { λ lent. T.bytes_of lent.0.now };

    ghost is_typed = { λ lent. T.is_typed lent.0.now };

    fn put(&self, out: &mut Vec<u8>) -> Result<(), NoMemory> {
        self.0.put(out)
    }
}

impl<A: Put, B: Put> Put for (A, B) {
    ghost bytes_of = { λ two. A.bytes_of two.0 ++ B.bytes_of two.1 };

    ghost is_typed = { λ two. A.is_typed two.0 × B.is_typed two.1 };

    fn put(&self, out: &mut Vec<u8>) -> Result<(), NoMemory> {
        self.0.put(out)?;
        self.1.put(out)?;
        Ok(())
    }
}

impl<A: Field, B: Field> Field for (A, B) {
    ghost reading = { both A.reading B.reading };

    fn read(alloc: Global, cursor: &mut Cursor) -> Result<Self, ReadError> {
        let first = A::read(alloc, cursor)?;
        let second = B::read(alloc, cursor)?;
        Ok((first, second))
    }
}

/// Passes over a number of so many bytes, and answers the bytes from it on. Damaged where fewer are left.
fn take_number<'a>(cursor: &mut Cursor<'a>, count: usize) -> Result<&'a [u8], ReadError>
    ensures there { IfOk result (λ bytes. count ≤ length bytes.now) }
    ensures number { IsRead (number count cursor.old)
        (result_map_both (λ bytes. big_number count bytes.now) (λ error. error) result)
        cursor.new }
{
    let bytes = cursor.bytes();
    if bytes.len() < count {
        return Err(cursor.damaged());
    }
    cursor.skip(count);
    Ok(bytes)
}

impl Put for u32 {
    ghost bytes_of = { big_bytes 4 };

    ghost is_typed = { λ n. n < 2 ^ 32 };

    fn put(&self, out: &mut Vec<u8>) -> Result<(), NoMemory> {
        put_count(out, *self as usize)
    }
}

impl Field for u32 {
    ghost reading = { number 4 };

    fn read(_alloc: Global, cursor: &mut Cursor) -> Result<Self, ReadError> {
        match take_number(cursor, 4) {
            Ok(bytes) => Ok(BigEndian::read_u32(bytes)),
            Err(error) => Err(error),
        }
    }
}

impl Put for u64 {
    ghost bytes_of = { big_bytes 8 };

    ghost is_typed = { λ n. n < 2 ^ 64 };

    fn put(&self, out: &mut Vec<u8>) -> Result<(), NoMemory> {
        let mut buffer = [0u8; 8];
        let bytes: &mut [u8] = &mut buffer;
        BigEndian::write_u64(bytes, *self);
        put_bytes(out, bytes)
    }
}

impl Field for u64 {
    ghost reading = { number 8 };

    fn read(_alloc: Global, cursor: &mut Cursor) -> Result<Self, ReadError> {
        match take_number(cursor, 8) {
            Ok(bytes) => Ok(BigEndian::read_u64(bytes)),
            Err(error) => Err(error),
        }
    }
}

impl Put for Name {
    ghost bytes_of = { name_bytes };

    ghost is_typed = { λ text. IsTrue (is_name text) };

    fn put(&self, out: &mut Vec<u8>) -> Result<(), NoMemory> {
        let bytes = self.as_bytes();
        put_bytes(out, &[bytes.len() as u8])?;
        put_bytes(out, bytes)
    }
}

impl Field for Name {
    ghost reading = { name };

    fn read(alloc: Global, cursor: &mut Cursor) -> Result<Self, ReadError> {
        let count = match cursor.first() {
            Some(count) => usize::from(count),
            None => return Err(cursor.damaged()),
        };
        let rest = &cursor.bytes()[1..];
        if rest.len() < count {
            return Err(cursor.damaged());
        }
        match Name::new(alloc, &rest[..count]) {
            Ok(Some(name)) => {
                cursor.skip(1 + count);
                Ok(name)
            }
            Ok(None) => Err(cursor.damaged()),
            Err(NoMemory) => Err(ReadError::NoMemory),
        }
    }
}

/// Puts items one after the other at the end.
pub(crate) fn put_items<T: Put>(out: &mut Vec<u8>, all: &[T]) -> Result<(), NoMemory>
    ensures bytes { OnOk result (out.new.items ≡ out.old.items ++ flat_map T.bytes_of all.now) }
    ensures typed { OnOk result (All T.is_typed all.now) }
{
    for item in all {
        item.put(out)?;
    }
    Ok(())
}

/// Puts a list behind its count.
pub(crate) fn put_list<T: Put>(out: &mut Vec<u8>, all: &[T]) -> Result<(), NoMemory>
    ensures bytes { OnOk result (out.new.items ≡ out.old.items ++ list_bytes T.bytes_of all.now) }
    ensures typed { OnOk result (All T.is_typed all.now) }
{
    put_count(out, all.len())?;
    put_items(out, all)?;
    Ok(())
}

/// Takes so many items off the front.
fn take_items<T: Field>(alloc: Global, cursor: &mut Cursor, count: u32) -> Result<Vec<T>, ReadError>
    ensures { IsRead (items T.reading count cursor.old) (items_read result) cursor.new }
{
    let mut all = Vec::new(alloc);
    for taken in 0..count {
        let _ = taken;
        let item = T::read(alloc, cursor)?;
        if all.push(item).is_err() {
            return Err(ReadError::NoMemory);
        }
    }
    Ok(all)
}

/// Takes a list behind its count off the front.
pub(crate) fn take_list<T: Field>(alloc: Global, cursor: &mut Cursor) -> Result<Vec<T>, ReadError>
    ensures { IsRead (list T.reading cursor.old) (items_read result) cursor.new }
{
    let count = u32::read(alloc, cursor)?;
    take_items(alloc, cursor, count)
}

impl<T: Put> Put for List<T> {
    ghost bytes_of = { list_bytes T.bytes_of };

    ghost is_typed = { All T.is_typed };

    fn put(&self, out: &mut Vec<u8>) -> Result<(), NoMemory> {
        put_list(out, self.as_slice())
    }
}

impl<T: Field> Field for List<T> {
    ghost reading = { list T.reading };

    fn read(alloc: Global, cursor: &mut Cursor) -> Result<Self, ReadError> {
        match take_list(alloc, cursor) {
            Ok(all) => Ok(List::of(all)),
            Err(error) => Err(error),
        }
    }
}

impl Put for Words {
    ghost bytes_of = { words_bytes };

    ghost is_typed = { AreWords };

    fn put(&self, out: &mut Vec<u8>) -> Result<(), NoMemory> {
        put_list(out, self.as_slice())
    }
}

impl Field for Words {
    ghost reading = { words };

    fn read(alloc: Global, cursor: &mut Cursor) -> Result<Self, ReadError> {
        match take_list(alloc, cursor) {
            Ok(all) => Ok(Words::of(all)),
            Err(error) => Err(error),
        }
    }
}
