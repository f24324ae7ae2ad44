//! By which entry a slot got a grain.

ghost use Rattle.std.specs.Prelude.{◌≡◌, ◌++◌, [], ◌∷◌, OnErr, OnOk, length, slice_get};
ghost use Rattle.fc_drawing.specs.Arrivals.{is_brought, last_arrival};

use crate::places::last_place;
use crate::sources::Source;
use fc_base::ids::SlotId;
use fc_base::outcome::NoMemory;
use std::alloc::Global;
use std::collections::HashMap;
use std::marker::Model;

/// A slot got a grain.
#[derive(Clone, Copy, PartialEq, Eq)]
pub struct Arrival {
    /// The slot.
    pub to: Source,
    /// The grain.
    pub grain: usize,
    /// The number of the entry that gave it the grain.
    pub entry: u64,
    /// The slot from which the grain was copied; None where a host wrote it.
    pub from: Option<Source>,
    /// Whether its volume held the bytes already, so that nothing was copied.
    pub in_place: bool,
}

/// How grains came to slots, in the order in which they came, numbered from 0 on. What isn't among them a slot held from its birth.
pub struct Arrivals {
    all: Vec<Arrival>,
    /// For a slot, by its birth, and a grain: the number of the last arrival there.
    latest: HashMap<(u64, usize), usize>,
}

impl Drop for Arrivals {
    // Written out, so that a function that drops it has one call for all of it in its proof.
    fn drop(self) {
        let Arrivals { all: _, latest: _ } = self;
    }
}

impl Model for Arrivals {
    ghost use Rattle.std.specs.Prelude.{List};
    ghost use Rattle.fc_drawing.specs.declared.arrivals.Arrival.{Arrival};

    ghost Value = { List Arrival };

    ghost view = { λ a. a.all.items };

    ghost use Rattle.std.specs.HashMap.{get};
    ghost use Rattle.fc_drawing.specs.Arrivals.{AreLatest, same_place};

    ghost invariant = { λ a. AreLatest a.all.items (get same_place a.latest) };
}

impl Arrivals {
    /// Nothing came yet. Takes no memory.
    pub fn new(alloc: Global) -> Arrivals
        ensures { result ≡ [] }
    {
        Arrivals {
            all: Vec::new(alloc),
            latest: HashMap::new(alloc),
        }
    }

    /// How many there are.
    pub fn len(&self) -> usize
        ensures { result ≡ length self.now }
    {
        self.all.len()
    }

    /// The arrival of this number, if it is one.
    pub fn at(&self, number: usize) -> Option<Arrival>
        ensures { result ≡ slice_get self.now number }
    {
        if number < self.all.len() {
            Some(self.all[number])
        } else {
            None
        }
    }

    /// Whether the arrival of this number brought a grain to a slot.
    fn brought(&self, slot: SlotId, grain: usize, number: usize) -> bool
        ensures { result ≡ is_brought slot.0 grain (slice_get self.now number) }
    {
        match self.at(number) {
            Some(arrival) => arrival.to.slot.0 == slot.0 && arrival.grain == grain,
            None => false,
        }
    }

    /// The number of the last arrival of a grain at a slot, among all.
    fn last_of_all(&self, slot: SlotId, grain: usize) -> Option<usize>
        ensures { result ≡ last_arrival self.now slot.0 grain (length self.now) }
    {
        self.latest.get(&(slot.0, grain)).copied()
    }

    /// The number of the last arrival of a grain at a slot, among the first `end` ones; None where it held the grain from its birth, or
    /// didn't get it. One look-up, where none or the last of all is among them; else it is looked for from the end downwards.
    pub fn last(&self, slot: SlotId, grain: usize, end: usize) -> Option<usize>
        ensures { result ≡ last_arrival self.now slot.0 grain end }
    {
        match self.last_of_all(slot, grain) {
            None => None,
            Some(number) if number < end => Some(number),
            Some(_) => last_place(end, |number| self.brought(slot, grain, number)),
        }
    }

    /// Notes one more. Refused for want of memory, it isn't noted.
    pub fn note(&mut self, arrival: Arrival) -> Result<(), NoMemory>
        ensures noted { OnOk result (self.new ≡ self.old ++ arrival ∷ []) }
        ensures refused { OnErr result (self.new ≡ self.old) }
    {
        match self.all.reserve(1) {
            Ok(()) => {}
            Err(_) => return Err(NoMemory),
        }
        let place = (arrival.to.slot.0, arrival.grain);
        match self.latest.insert(place, self.all.len()) {
            Ok(_) => {}
            Err(_) => return Err(NoMemory),
        }
        self.all.push(arrival).unwrap();
        Ok(())
    }
}
