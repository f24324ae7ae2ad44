//! One table: objects in order of id, each found by its id or by its name with one hash look-up.

ghost use Rattle.std.specs.Prelude.{◌≡◌, ◌+◌, ◌<◌, ◌≤◌, ◌↔◌, ℕ, List, [], ◌∷◌, ◌++◌, map, filter, find, position, All, Option, None, Some, option_copied, IsSome, IsNone, OnOk, OnErr, IfOk, IfSome, length, not, bytes_eq, ◌==◌, slice_get, option_map, if◌then◌else◌};
ghost use Rattle.fc_base.specs.Tables.{refers_to, IsOrdered};
ghost use Rattle.fc_registry.specs.Index.{rows, room};

use crate::objects::key_of;
use fc_base::name::{Name, Ref};
use fc_base::outcome::NoMemory;
use fc_base::volume::Mapping;
use indexmap::IndexSet;
use std::alloc::Global;
use std::marker::Model;

/// An object that has an id and a name.
pub trait Named: Drop {
    // Its id.
    ghost id_of: { Self → ℕ };

    // Its name.
    ghost name_of: { Self → List ℕ };

    /// Its id.
    fn id(&self) -> u32
        ensures { result ≡ id_of self.now };

    /// Its name.
    fn name(&self) -> &Name
        ensures { result.now ≡ name_of self.now };
}

/// The id of an object, if there is one.
pub fn id_of<T: Named>(object: Option<&T>) -> Option<u32>
    ensures { result ≡ option_map T.id_of (option_copied object.entry) }
{
    match object {
        Some(object) => Some(object.id()),
        None => None,
    }
}

/// Objects in order of id. Contracts see the list of them, and how many more fit with no memory.
pub struct Table<T: Named> {
    items: Vec<T>,
    ids: IndexSet<u32>,
    names: IndexSet<Vec<u8>>,
}

impl<T: Named> Drop for Table<T> {
    // Written out, so that a function that drops it has one call for all of it in its proof.
    fn drop(self) {
        let Table {
            items: _,
            ids: _,
            names: _,
        } = self;
    }
}

impl<T: Named> Model for Table<T> {
    ghost use Rattle.std.specs.Prelude.{ℕ, List, ◌-◌, min, vec_len, vec_capacity};
    ghost use Rattle.indexmap.specs.IndexSet.{spare};
    ghost use Rattle.fc_registry.specs.Index.{IsIndexed};

    ghost Value = { List T × ℕ };

    ghost view = { λ t. (t.items.items, min (vec_capacity t.items - vec_len t.items) (min (spare t.ids) (spare t.names))) };

    ghost invariant = { λ t. IsIndexed T.id_of T.name_of t.ids.keys t.names.keys t.items.items };
}

impl<T: Named> Table<T> {
    /// An empty table. Takes no memory.
    pub fn new(alloc: Global) -> Self
        ensures { rows result ≡ [] }
    {
        Table {
            items: Vec::new(alloc),
            ids: IndexSet::new(alloc),
            names: IndexSet::new(alloc),
        }
    }

    /// The objects, in order of id.
    pub fn as_slice(&self) -> &[T]
        ensures value { result.now ≡ rows self.now }
        ensures ordered { IsOrdered T.id_of T.name_of (rows self.now) }
    {
        self.items.as_slice()
    }

    /// The object that the reference names. None exactly where there is none.
    pub fn get(&self, reference: &Ref) -> Option<&T>
        ensures { option_copied result ≡ find (λ x. refers_to reference.now (T.id_of x) (T.name_of x)) (rows self.now) }
    {
        match reference {
            Ref::Id(id) => self.with_id(*id),
            Ref::Name(name) => self.with_name(name),
        }
    }

    /// The object with this id. None exactly where there is none.
    pub fn with_id(&self, id: u32) -> Option<&T>
        ensures { option_copied result ≡ find (λ x. id == T.id_of x) (rows self.now) }
    {
        match self.place_of_id(id) {
            Some(place) => self.at(place),
            None => None,
        }
    }

    /// The object with this name. None exactly where there is none.
    pub fn with_name(&self, name: &Name) -> Option<&T>
        ensures { option_copied result ≡ find (λ x. bytes_eq name.now (T.name_of x)) (rows self.now) }
    {
        match self.place_of_name(name.as_bytes()) {
            Some(place) => self.at(place),
            None => None,
        }
    }

    /// Makes room for one more object, and gives the key of its name. Refused, the objects are as they were.
    pub fn reserve(&mut self, alloc: Global, name: &Name) -> Result<Vec<u8>, NoMemory>
        ensures room { OnOk result (0 < room self.new) }
        ensures key { IfOk result (λ key. key.items ≡ name.now) }
        ensures same { rows self.new ≡ rows self.old }
    {
        match self.items.reserve(1) {
            Ok(()) => {}
            Err(_) => return Err(NoMemory),
        }
        match self.ids.reserve(1) {
            Ok(()) => {}
            Err(_) => return Err(NoMemory),
        }
        match self.names.reserve(1) {
            Ok(()) => key_of(alloc, name),
            Err(_) => Err(NoMemory),
        }
    }

    /// Puts an object at the end, under its id and `name`. Takes no memory.
    pub fn add(&mut self, item: T, name: Vec<u8>)
        requires room { 0 < room self.old }
        requires own_name { name.items ≡ T.name_of item }
        requires above { All (λ x. T.id_of x < T.id_of item) (rows self.old) }
        requires new_name { IsNone (find (λ x. bytes_eq (T.name_of item) (T.name_of x)) (rows self.old)) }
        ensures { rows self.new ≡ rows self.old ++ item ∷ [] }
    {
        self.ids.insert(item.id()).unwrap();
        self.names.insert(name).unwrap();
        self.items.push(item).unwrap();
    }

    /// Takes out the object with this id, if there is one. Takes no memory.
    pub fn remove(&mut self, id: u32)
        ensures rest { rows self.new ≡ filter (λ x. not (id == T.id_of x)) (rows self.old) }
        ensures room { room self.old ≤ room self.new }
    {
        match self.place_of_id(id) {
            Some(place) => {
                let _ = self.ids.shift_remove_index(place);
                let _ = self.names.shift_remove_index(place);
                let _ = self.items.remove(place);
            }
            None => {}
        }
    }

    /// The object at a place.
    fn at(&self, place: usize) -> Option<&T>
        ensures { option_copied result ≡ slice_get (rows self.now) place }
    {
        self.items.as_slice().get(place)
    }

    /// The place of the object with this id.
    fn place_of_id(&self, id: u32) -> Option<usize>
        ensures { result ≡ position (λ x. id == T.id_of x) (rows self.now) }
    {
        self.ids.get_index_of(&id)
    }

    /// The place of the object with this name.
    fn place_of_name(&self, name: &[u8]) -> Option<usize>
        ensures { result ≡ position (λ x. bytes_eq name.now (T.name_of x)) (rows self.now) }
    {
        self.names.get_index_of(name)
    }
}

impl Table<Mapping> {
    /// Puts the mapping in the place of the one with its id, whose name it keeps. Takes no memory.
    pub fn set(&mut self, mapping: &Mapping)
        requires { option_map (λ m. m.name) (find (λ m. mapping.now.id.0 == m.id.0) (rows self.old)) ≡ Some mapping.now.name }
        ensures rows { rows self.new ≡ map (λ m. if mapping.now.id.0 == m.id.0 then mapping.now else m) (rows self.old) }
        ensures room { room self.new ≡ room self.old }
    {
        match self.place_of_id(mapping.id.0) {
            Some(place) => {
                let row = &mut self.items[place];
                row.source = mapping.source;
                row.target = mapping.target;
                row.group = mapping.group;
                row.state = mapping.state;
                row.copy_rate = mapping.copy_rate;
                row.clean_rate = mapping.clean_rate;
                row.incremental = mapping.incremental;
                row.autodelete = mapping.autodelete;
                row.restoring = mapping.restoring;
                row.held_at_leave = mapping.held_at_leave;
                row.complete = mapping.complete;
            }
            None => {}
        }
    }
}
