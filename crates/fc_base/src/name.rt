//! Names and references.

ghost use Rattle.std.specs.Prelude.{◌≡◌, ◌≤◌, IsTrue, IfOk, IsSome, ◌↔◌, IfSome, IfNone, OnOk, Some, None};
ghost use Rattle.std.specs.List.{list_all};
ghost use Rattle.fc_base.specs.Names.{is_name, starts_name, continues_name};

use crate::outcome::NoMemory;
use std::alloc::Global;
use std::marker::Model;

/// A name: 1 to 63 bytes, each a letter, a digit, `_`, `-` or `.`, the first a letter or `_`.
#[derive(Debug, Drop)]
pub struct Name {
    bytes: Vec<u8>,
}

impl Model for Name {
    ghost use Rattle.std.specs.Prelude.{List, ℕ, IsTrue};
    ghost use Rattle.std.specs.List.{list_all};
    ghost use Rattle.fc_base.specs.Names.{is_name};

    ghost Value = { List ℕ };

    ghost view = { λ n. n.bytes.items };

    ghost invariant = { λ n. IsTrue (is_name n.bytes.items) };
}

impl Name {
    /// The name of these bytes. None exactly where they aren't a name.
    pub fn new(alloc: Global, bytes: &[u8]) -> Result<Option<Name>, NoMemory>
        ensures found { IfOk result (λ name. IsSome name ↔ IsTrue (is_name bytes.now)) }
        ensures value { IfOk result (λ name. IfSome name (λ n. n ≡ bytes.now)) }
    {
        if !is_name_text(bytes) {
            return Ok(None);
        }
        match Vec::from_slice(alloc, bytes) {
            Ok(bytes) => Ok(Some(Name { bytes })),
            Err(_) => Err(NoMemory),
        }
    }

    /// The bytes of the name.
    pub fn as_bytes(&self) -> &[u8]
        ensures value { result.now ≡ self.now }
        ensures name { IsTrue (is_name self.now) }
    {
        self.bytes.as_slice()
    }

    /// The same name again.
    pub fn copy(&self, alloc: Global) -> Result<Name, NoMemory>
        ensures { IfOk result (λ name. name ≡ self.now) }
    {
        match Vec::from_slice(alloc, self.bytes.as_slice()) {
            Ok(bytes) => Ok(Name { bytes }),
            Err(_) => Err(NoMemory),
        }
    }
}

/// An object by its id or its name.
#[derive(Drop)]
pub enum Ref {
    /// By id.
    Id(u32),
    /// By name.
    Name(Name),
}

/// Whether a name may begin with this byte: a letter or `_`.
fn starts_name_byte(byte: u8) -> bool
    ensures { result ≡ starts_name byte }
{
    (byte >= b'A' && byte <= b'Z') || (byte >= b'a' && byte <= b'z') || byte == b'_'
}

/// Whether a name may go on with this byte: a letter, a digit, `_`, `-` or `.`.
fn continues_name_byte(byte: u8) -> bool
    ensures { result ≡ continues_name byte }
{
    starts_name_byte(byte) || (byte >= b'0' && byte <= b'9') || byte == b'-' || byte == b'.'
}

/// Whether all bytes may stand in a name behind its first.
fn all_continue(bytes: &[u8]) -> bool
    ensures { result ≡ list_all continues_name bytes.now }
{
    bytes.iter().all(|byte| continues_name_byte(*byte))
}

/// Whether the bytes are a name.
pub fn is_name_text(bytes: &[u8]) -> bool
    ensures { result ≡ is_name bytes.now }
{
    if bytes.is_empty() || bytes.len() > 63 {
        return false;
    }
    let starts = starts_name_byte(bytes[0]);
    let continues = all_continue(&bytes[1..]);
    starts && continues
}
