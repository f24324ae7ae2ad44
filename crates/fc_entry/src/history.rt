//! The history: actors' names, and entries in order of number.

ghost use Rattle.std.specs.Prelude.{◌≡◌, ◌<◌, ◌^◌, [], ◌∷◌, ◌++◌, length, take, IfOk, OnOk, OnErr, IfErr, IfSome, slice_get, slice_index_or, Some};
ghost use Rattle.fc_entry.specs.HistoryState.{HistoryState, place_of_name, number_of_actor, with_actor};

use crate::entry::Entry;
use fc_base::name::Name;
use fc_base::outcome::NoMemory;
use std::alloc::Global;
use std::marker::Model;

/// The names of actors by number, and all entries in order of number.
pub struct History {
    actors: Vec<Name>,
    entries: Vec<Entry>,
}

impl Drop for History {
    // Written out, so that a function that drops it has one call for all of it in its proof.
    fn drop(self) {
        let History {
            actors: _,
            entries: _,
        } = self;
    }
}

impl Model for History {
    ghost use Rattle.fc_entry.specs.HistoryState.{HistoryState};

    ghost Value = { HistoryState };

    ghost view = { λ h. record { actors = h.actors.items; entries = h.entries.items } };
}

impl History {
    /// A history without actors and entries. Takes no memory.
    pub fn new(alloc: Global) -> Self
        ensures { result ≡ record { actors = []; entries = [] } }
    {
        History {
            actors: Vec::new(alloc),
            entries: Vec::new(alloc),
        }
    }

    /// How many entries there are.
    pub fn len(&self) -> usize
        ensures { result ≡ length self.now.entries }
    {
        self.entries.len()
    }

    /// How many actors have a name.
    pub fn actors(&self) -> usize
        ensures { result ≡ length self.now.actors }
    {
        self.actors.len()
    }

    /// The entry with this number.
    pub fn entry(&self, index: usize) -> &Entry
        requires { index < length self.now.entries }
        ensures { slice_get self.now.entries index ≡ Some result.now }
    {
        &self.entries[index]
    }

    /// The name of an actor.
    pub fn actor_name(&self, actor: u32) -> &Name
        requires { actor < length self.now.actors }
        ensures { slice_get self.now.actors actor ≡ Some result.now }
    {
        &self.actors[actor as usize]
    }

    /// The number of the actor with this name: the one that it has, or the next, by which the name is known from then
    /// on. Refused, the history is as it was.
    pub fn actor(&mut self, alloc: Global, name: &Name) -> Result<u32, NoMemory>
        requires { length self.old.actors < 2 ^ 32 }
        ensures number { IfOk result (λ number. number ≡ number_of_actor self.old.actors name.now) }
        ensures ok { OnOk result (self.new ≡ record self.old { actors = with_actor self.old.actors name.now }) }
        ensures err { OnErr result (self.new ≡ self.old) }
    {
        match place_of_name(self.actors.as_slice(), name.as_bytes()) {
            Some(place) => Ok(place as u32),
            None => {
                let number = self.actors.len() as u32;
                match name.copy(alloc) {
                    Ok(copy) => match self.actors.push(copy) {
                        Ok(()) => Ok(number),
                        Err(_) => Err(NoMemory),
                    },
                    Err(refused) => Err(refused),
                }
            }
        }
    }

    /// Only the first names stay, so many of them; all, where there are no more. Takes no memory.
    pub fn keep_actors(&mut self, count: usize)
        ensures { self.new ≡ record self.old { actors = take count self.old.actors } }
    {
        self.actors.truncate(count);
    }

    /// Puts an entry at the end. Refused for want of memory, it is given back and the history is as it was.
    pub fn push(&mut self, entry: Entry) -> Result<(), Entry>
        requires { entry.number ≡ length self.old.entries }
        ensures ok { OnOk result (self.new ≡ record self.old { entries = self.old.entries ++ entry ∷ [] }) }
        ensures err { OnErr result (self.new ≡ self.old) }
        ensures given_back { IfErr result (λ back. back ≡ entry) }
    {
        match self.entries.push(entry) {
            Ok(()) => Ok(()),
            Err(failed) => Err(failed.value),
        }
    }
}

/// The place of a name among the actors' names, if it has one.
pub fn place_of_name(names: &[Name], name: &[u8]) -> Option<usize>
    ensures value { result ≡ place_of_name names.now name.now }
    ensures within { IfSome result (λ place. place < length names.now) }
{
    names.iter().position(|known| known.as_bytes() == name)
}
