//! For each volume the mappings that name it, so that a note on a volume reaches them alone.

ghost use Rattle.std.specs.Prelude.{◌≡◌, ◌≢◌, ℕ, ◌<◌, [], OnOk, OnErr, IsTrue, true, length, position, nat_eq, None};
ghost use Rattle.fc_diff.specs.Index.{is_listed, named_by};

use fc_base::outcome::NoMemory;
use indexmap::IndexSet;
use std::alloc::Global;
use std::marker::Model;

/// For each volume the numbers of the mappings that name it, found by one hash look-up. Contracts see the lists beside
/// the volumes.
pub(crate) struct Namers {
    volumes: IndexSet<u32>,
    lists: Vec<Vec<u32>>,
}

impl Drop for Namers {
    // Written out, so that a function that drops it has one call for all of it in its proof.
    fn drop(self) {
        let Namers {
            volumes: _,
            lists: _,
        } = self;
    }
}

impl Model for Namers {
    ghost use Rattle.std.specs.Prelude.{◌≡◌, length};
    ghost use Rattle.fc_diff.specs.Index.{Listing, numbers};

    ghost Value = { Listing };

    ghost view = { λ n. record { volumes = n.volumes.keys; lists = numbers n.lists.items } };

    ghost invariant = { λ n. length n.volumes.keys ≡ length n.lists.items };
}

impl Namers {
    /// No mapping names a volume. Takes no memory.
    pub(crate) fn new(alloc: Global) -> Namers
        ensures { (volume : ℕ) → named_by result volume ≡ [] }
    {
        Namers {
            volumes: IndexSet::new(alloc),
            lists: Vec::new(alloc),
        }
    }

    /// The mappings that name the volume.
    pub(crate) fn of(&self, volume: u32) -> &[u32]
        ensures { result.now ≡ named_by self.now volume }
    {
        match self.volumes.get_index_of(&volume) {
            Some(place) => self.lists[place].as_slice(),
            None => &[],
        }
    }

    /// The mapping, which names no volume yet, names both. Refused, it names neither.
    pub(crate) fn add_both(
        &mut self,
        alloc: Global,
        one: u32,
        other: u32,
        map: u32,
    ) -> Result<(), NoMemory>
        ensures one { OnOk result (is_listed map (named_by self.new one) ≡ true) }
        ensures other { OnOk result (is_listed map (named_by self.new other) ≡ true) }
        ensures kept { (v m : ℕ) → m ≢ map → is_listed m (named_by self.old v) ≡ true → is_listed m (named_by self.new v) ≡ true }
    {
        self.add(alloc, one, map)?;
        match self.add(alloc, other, map) {
            Ok(()) => Ok(()),
            Err(NoMemory) => {
                self.remove(one, map);
                Err(NoMemory)
            }
        }
    }

    /// The mapping names the volume. Refused, all is as it was.
    fn add(&mut self, alloc: Global, volume: u32, map: u32) -> Result<(), NoMemory>
        ensures added { OnOk result (is_listed map (named_by self.new volume) ≡ true) }
        ensures kept { (v m : ℕ) → is_listed m (named_by self.old v) ≡ true → is_listed m (named_by self.new v) ≡ true }
        ensures err { OnErr result (self.new ≡ self.old) }
    {
        match self.volumes.get_index_of(&volume) {
            Some(place) => add_number(&mut self.lists[place], map),
            None => self.add_volume(alloc, volume, map),
        }
    }

    /// A volume that no mapping named is named by this one. Refused, all is as it was.
    fn add_volume(&mut self, alloc: Global, volume: u32, map: u32) -> Result<(), NoMemory>
        requires { position (nat_eq volume) self.old.volumes ≡ None }
        ensures added { OnOk result (is_listed map (named_by self.new volume) ≡ true) }
        ensures kept { (v m : ℕ) → is_listed m (named_by self.old v) ≡ true → is_listed m (named_by self.new v) ≡ true }
        ensures err { OnErr result (self.new ≡ self.old) }
    {
        let mut list = Vec::new(alloc);
        match list.push(map) {
            Ok(()) => {}
            Err(_) => return Err(NoMemory),
        }
        match self.lists.reserve(1) {
            Ok(()) => {}
            Err(_) => return Err(NoMemory),
        }
        match self.volumes.insert(volume) {
            Ok(_) => {}
            Err(_) => return Err(NoMemory),
        }
        self.lists.push(list).unwrap();
        Ok(())
    }

    /// The mapping doesn't name the volume any more. Takes no memory.
    pub(crate) fn remove(&mut self, volume: u32, map: u32)
        ensures { (v m : ℕ) → m ≢ map → is_listed m (named_by self.old v) ≡ true → is_listed m (named_by self.new v) ≡ true }
    {
        match self.volumes.get_index_of(&volume) {
            Some(place) => {
                if take_number(&mut self.lists[place], map) {
                    let _ = self.volumes.shift_remove_index(place);
                    let _ = self.lists.remove(place);
                }
            }
            None => {}
        }
    }
}

/// Puts the number into the list, if it isn't there. Refused, the list is as it was.
fn add_number(list: &mut Vec<u32>, number: u32) -> Result<(), NoMemory>
    ensures added { OnOk result (is_listed number list.new.items ≡ true) }
    ensures kept { (m : ℕ) → is_listed m list.old.items ≡ true → is_listed m list.new.items ≡ true }
    ensures err { OnErr result (list.new.items ≡ list.old.items) }
{
    if list.contains(&number) {
        return Ok(());
    }
    match list.push(number) {
        Ok(()) => Ok(()),
        Err(_) => Err(NoMemory),
    }
}

/// Takes the number out of the list, and answers whether none is left.
fn take_number(list: &mut Vec<u32>, number: u32) -> bool
    ensures empty { IsTrue result → list.new.items ≡ [] }
    ensures kept { (m : ℕ) → m ≢ number → is_listed m list.old.items ≡ true → is_listed m list.new.items ≡ true }
{
    list.retain(|other| *other != number);
    list.as_slice().is_empty()
}
