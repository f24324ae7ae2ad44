//! The rows of mappings, and how they are found: by their ids, and by the volumes that they name.

ghost use Rattle.std.specs.Prelude.{◌≡◌, ◌≢◌, ℕ, ◌+◌, ◌<◌, ◌≤◌, [], ◌∷◌, ◌++◌, map, take, drop, filter, not, length, replicate, IsTrue, OnOk, OnErr, None, true, false, All, AllPairs, position, slice_index_or};
ghost use Rattle.fc_changed.specs.Row.{Row, is_of, row_names};
ghost use Rattle.fc_diff.specs.Told.{row_after, volume_of, FitsRow};
ghost use Rattle.fc_diff.specs.Index.{is_listed, named_by, map_numbers, begun_at};

use crate::namers::Namers;
use crate::tracked::{Event, Tracked};
use fc_base::outcome::NoMemory;
use fc_bits::GrainSet;
use indexmap::IndexSet;
use std::alloc::Global;
use std::marker::Model;

/// Rows of mappings, no two of them of one mapping. The first so many may be spoken of alone. Contracts see the list of them.
pub(crate) struct Table {
    ids: IndexSet<u32>,
    rows: Vec<Tracked>,
    namers: Namers,
}

impl Drop for Table {
    // Written out, so that a function that drops it has one call for all of it in its proof.
    fn drop(self) {
        let Table {
            ids: _,
            rows: _,
            namers: _,
        } = self;
    }
}

impl Model for Table {
    ghost use Rattle.std.specs.Prelude.{List};
    ghost use Rattle.fc_changed.specs.Row.{Row};
    ghost use Rattle.fc_diff.specs.Index.{IsFound};

    ghost Value = { List Row };

    ghost view = { λ t. t.rows.items };

    ghost invariant = { λ t. IsFound t.ids.keys t.namers t.rows.items };
}

impl Table {
    /// No rows. Takes no memory.
    pub(crate) fn new(alloc: Global) -> Table
        ensures { result ≡ [] }
    {
        Table {
            ids: IndexSet::new(alloc),
            rows: Vec::new(alloc),
            namers: Namers::new(alloc),
        }
    }

    /// Puts a row at the end, for a mapping that has none. Refused, all is as it was; want of memory is the only cause.
    pub(crate) fn add(
        &mut self,
        alloc: Global,
        map: u32,
        source: u32,
        target: u32,
        grains: u32,
    ) -> Result<(), NoMemory>
        requires { All (λ row. row.map ≢ map) self.old }
        ensures ok { OnOk result (self.new ≡ self.old ++ record { map = map; source = source; target = target; into = target; same = replicate grains false } ∷ []) }
        ensures err { OnErr result (self.new ≡ self.old) }
    {
        let row = Tracked::new(alloc, map, source, target, grains)?;
        match self.rows.reserve(1) {
            Ok(()) => {}
            Err(_) => return Err(NoMemory),
        }
        match self.ids.reserve(1) {
            Ok(()) => {}
            Err(_) => return Err(NoMemory),
        }
        self.namers.add_both(alloc, source, target, map)?;
        let _ = self.ids.insert(map).unwrap();
        self.rows.push(row).unwrap();
        Ok(())
    }

    /// The place of the mapping's row, if it is among the first so many.
    pub(crate) fn place_of(&self, first: usize, map: u32) -> Option<usize>
        requires { first ≤ length self.now }
        ensures { result ≡ position (is_of map) (take first self.now) }
    {
        find_place(&self.ids, &self.rows[..first], map)
    }

    /// Whether each of the first so many mappings has so many grains.
    #[cfg(test)]
    pub(crate) fn all_have(&self, first: usize, grains: u32) -> bool
        requires { first ≤ length self.now }
        ensures { IsTrue result → All (λ row. length row.same ≡ grains) (take first self.now) }
    {
        self.rows[..first]
            .iter()
            .all(|row| row.same().len() == grains)
    }

    /// The first so many rows.
    pub(crate) fn first(&self, first: usize) -> &[Tracked]
        requires { first ≤ length self.now }
        ensures { result.now ≡ take first self.now }
    {
        &self.rows[..first]
    }

    /// At which grains the volumes of the mapping with this row are the same.
    pub(crate) fn same(&self, place: usize) -> &GrainSet
        requires { place < length self.now }
        ensures { (row : Row) → row ≡ slice_index_or self.now place row → result.now ≡ row.same }
    {
        self.rows[place].same()
    }

    /// Takes out the mapping's row, if it is among the first so many, and answers how many of these are left. Takes no memory.
    pub(crate) fn forget(&mut self, first: usize, map: u32) -> usize
        requires { first ≤ length self.old }
        ensures rows { self.new ≡ filter (λ row. not (is_of map row)) (take first self.old) ++ drop first self.old }
        ensures left { result ≡ length (filter (λ row. not (is_of map row)) (take first self.old)) }
    {
        match find_place(&self.ids, &self.rows[..first], map) {
            Some(place) => {
                let row = self.rows.remove(place);
                let _ = self.ids.shift_remove_index(place);
                self.namers.remove(row.source(), map);
                self.namers.remove(row.target(), map);
                first - 1
            }
            None => first,
        }
    }

    /// Takes out all rows behind the first so many. Takes no memory.
    pub(crate) fn truncate(&mut self, first: usize)
        requires { first ≤ length self.old }
        ensures { self.new ≡ take first self.old }
    {
        unlist(&mut self.namers, &self.rows[first..]);
        self.ids.truncate(first);
        self.rows.truncate(first);
    }

    /// The mapping with this row has its first trigger. Answers the place behind it. Takes no memory.
    pub(crate) fn begin(&mut self, place: usize) -> usize
        requires { place < length self.old }
        ensures rows { self.new ≡ begun_at place self.old }
        ensures behind { result ≡ place + 1 }
    {
        self.rows[place].begin();
        place + 1
    }

    /// Tells each of the first so many mappings of an event that names its volume, and the others nothing. Takes no memory.
    pub(crate) fn tell(&mut self, first: usize, event: Event)
        requires within { first ≤ length self.old }
        requires fits { All (FitsRow event) (take first self.old) }
        ensures { self.new ≡ map (row_after event.entry) (take first self.old) ++ drop first self.old }
    {
        let named = self.namers.of(event.volume());
        tell_first(&self.ids, &mut self.rows, first, named, event);
    }
}

/// Tells the event to those of the named mappings that have one of the first so many rows. All that name its volume are among
/// the named ones.
fn tell_first(ids: &IndexSet<u32>, rows: &mut [Tracked], first: usize, named: &[u32], event: Event)
    requires within { first ≤ length rows.old }
    requires beside { ids.now.keys ≡ map_numbers rows.old }
    requires distinct { AllPairs (λ x y. x.map ≢ y.map) rows.old }
    requires complete { All (λ row. row_names row (volume_of event) ≡ true → is_listed row.map named.now ≡ true) rows.old }
    requires fits { All (FitsRow event) (take first rows.old) }
    ensures { rows.new ≡ map (row_after event.entry) (take first rows.old) ++ drop first rows.old }
{
    tell_named(ids, &mut rows[..first], named, event);
}

/// Tells each of the named mappings with one of these rows of the event. All that name its volume are among them.
fn tell_named(ids: &IndexSet<u32>, rows: &mut [Tracked], named: &[u32], event: Event)
    requires beside { take (length rows.old) ids.now.keys ≡ map_numbers rows.old }
    requires distinct { AllPairs (λ x y. x.map ≢ y.map) rows.old }
    requires complete { All (λ row. row_names row (volume_of event) ≡ true → is_listed row.map named.now ≡ true) rows.old }
    requires fits { All (FitsRow event) rows.old }
    ensures { rows.new ≡ map (row_after event.entry) rows.old }
{
    for number in named {
        if let Some(place) = find_place(ids, rows, *number) {
            rows[place].take(event);
        }
    }
}

/// The place of the mapping's row among these, whose ids stand first.
fn find_place(ids: &IndexSet<u32>, rows: &[Tracked], map: u32) -> Option<usize>
    requires { take (length rows.now) ids.now.keys ≡ map_numbers rows.now }
    ensures { result ≡ position (is_of map) rows.now }
{
    match ids.get_index_of(&map) {
        Some(place) if place < rows.len() => Some(place),
        _ => None,
    }
}

/// These mappings don't name their volumes any more.
fn unlist(namers: &mut Namers, rows: &[Tracked])
    ensures { (v m : ℕ) → All (λ row. m ≢ row.map) rows.now → is_listed m (named_by namers.old v) ≡ true → is_listed m (named_by namers.new v) ≡ true }
{
    for row in rows {
        namers.remove(row.source(), row.map());
        namers.remove(row.target(), row.map());
    }
}
