//! Names of new objects.

ghost use Rattle.std.specs.Prelude.{◌≡◌, ◌≤◌, ◌++◌, IfOk, IsTrue, decimal, length};
ghost use Rattle.fc_base.specs.Names.{is_name};
ghost use Rattle.fc_desk.specs.Names.{name_or};

use fc_base::name::Name;
use fc_base::outcome::NoMemory;
use itoa::Buffer;
use std::alloc::Global;

/// The name that was given; else the front, which is a short name itself, and the id.
pub fn name_or(alloc: Global, given: &Option<Name>, front: &[u8], id: u32) -> Result<Name, NoMemory>
    requires name { IsTrue (is_name front.now) }
    requires short { length front.now ≤ 20 }
    ensures { IfOk result (λ name. name ≡ name_or given.now front.now id) }
{
    match given {
        Some(name) => name.copy(alloc),
        None => default_name(alloc, front, id),
    }
}

/// The front and the id, as a name.
fn default_name(alloc: Global, front: &[u8], id: u32) -> Result<Name, NoMemory>
    requires name { IsTrue (is_name front.now) }
    requires short { length front.now ≤ 20 }
    ensures { IfOk result (λ name. name ≡ front.now ++ decimal id) }
{
    let bytes = front_and_id(alloc, front, id)?;
    whole_name(alloc, bytes.as_slice())
}

/// Bytes that are a name, as a name.
fn whole_name(alloc: Global, bytes: &[u8]) -> Result<Name, NoMemory>
    requires { IsTrue (is_name bytes.now) }
    ensures { IfOk result (λ name. name ≡ bytes.now) }
{
    match Name::new(alloc, bytes) {
        Ok(Some(name)) => Ok(name),
        Ok(None) => unreachable!(),
        Err(NoMemory) => Err(NoMemory),
    }
}

/// The front and the id.
fn front_and_id(alloc: Global, front: &[u8], id: u32) -> Result<Vec<u8>, NoMemory>
    ensures { IfOk result (λ bytes. bytes.items ≡ front.now ++ decimal id) }
{
    let mut digits = Buffer::new();
    let mut bytes = match Vec::from_slice(alloc, front) {
        Ok(bytes) => bytes,
        Err(_) => return Err(NoMemory),
    };
    match bytes.extend_from_slice(digits.format(id).as_bytes()) {
        Ok(()) => Ok(bytes),
        Err(_) => Err(NoMemory),
    }
}
