//! Objects by id and by name: volumes, mappings or groups.

use fc_base::name::{Name, Ref};
use fc_base::outcome::NoMemory;
use std::alloc::Global;

/// An object.
#[derive(Drop)]
pub(crate) struct Object<T> {
    /// Its id.
    pub(crate) id: u32,
    name: Vec<u8>,
    /// What is known of it.
    pub(crate) known: T,
}

/// The objects of one kind that there are, in the order of making, which is that of their ids.
#[derive(Drop)]
pub(crate) struct Table<T> {
    next: u32,
    objects: Vec<Object<T>>,
}

/// The name that was given; or, where none was, the kind's word and the id.
fn name_of(alloc: Global, given: &Option<Name>, word: &str, id: u32) -> Result<Vec<u8>, NoMemory> {
    let name = match given {
        Some(name) => Vec::from_slice(alloc, name.as_bytes()),
        None => match format!(in alloc; "{word}{id}") {
            Ok(text) => Vec::from_slice(alloc, text.as_bytes()),
            Err(_) => return Err(NoMemory),
        },
    };
    match name {
        Ok(name) => Ok(name),
        Err(_) => Err(NoMemory),
    }
}

impl<T: Drop> Table<T> {
    /// No objects; the first that is made has this id.
    pub(crate) fn new(alloc: Global, first: u32) -> Table<T> {
        Table {
            next: first,
            objects: Vec::new(alloc),
        }
    }

    /// The id that the next object has.
    pub(crate) fn next(&self) -> u32 {
        self.next
    }

    /// The next object is made, with the name that was given or else the kind's word and its id.
    pub(crate) fn make(
        &mut self,
        alloc: Global,
        given: &Option<Name>,
        word: &str,
        known: T,
    ) -> Result<(), NoMemory> {
        let id = self.next;
        let name = name_of(alloc, given, word, id)?;
        match self.objects.push(Object { id, name, known }) {
            Ok(()) => {
                self.next = id.saturating_add(1);
                Ok(())
            }
            Err(_) => Err(NoMemory),
        }
    }

    /// The objects, by id.
    pub(crate) fn all(&self) -> &[Object<T>] {
        self.objects.as_slice()
    }

    /// The object that is named.
    pub(crate) fn named(&self, reference: &Ref) -> Option<&Object<T>> {
        match reference {
            Ref::Id(id) => self.with_id(*id),
            Ref::Name(name) => {
                self.objects
                    .iter()
                    .find(|object| object.name.as_slice() == name.as_bytes())
            }
        }
    }

    /// The object with this id.
    pub(crate) fn with_id(&self, id: u32) -> Option<&Object<T>> {
        self.objects.iter().find(|object| object.id == id)
    }

    /// The object with this id goes.
    pub(crate) fn remove(&mut self, id: u32) {
        self.objects.retain(|object| object.id != id);
    }

    /// The objects, to be changed.
    pub(crate) fn all_mut(&mut self) -> &mut [Object<T>] {
        self.objects.as_mut_slice()
    }
}
