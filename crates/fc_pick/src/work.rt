//! The work flags of the mappings of one lane, and what is to be done next.

ghost use Rattle.std.specs.Prelude.{◌≡◌, [], length, IsTrue, IsOk, OnOk, OnErr, true};
ghost use Rattle.fc_pick.specs.Flags.{with_flags, without_flags, with_number, without_number, is_known, before, AreByMapping, has_mapping, with_row};
ghost use Rattle.fc_pick.specs.Next.{next_work};

use crate::grid::Grid;
use fc_base::ids::{GrainNo, MapId};
use fc_base::outcome::NoMemory;
use std::alloc::Global;
use std::marker::Model;

/// The work flags of a mapping.
#[derive(Clone, Copy)]
pub struct WorkFlags {
    /// The mapping.
    pub map: MapId,
    /// Whether its copy is filled in the background.
    pub copies: bool,
    /// Whether the grains that others need of it are handed on in the background.
    pub cleans: bool,
}

/// The work flags of the mappings of one lane. Contracts see those that have a flag, in order of id, and beside
/// them the numbers of the mappings that are known: their flags are set without memory.
#[derive(Drop)]
pub struct Work {
    rows: Vec<WorkFlags>,
}

impl Model for Work {
    ghost use Rattle.fc_pick.specs.Flags.{WorkState, rows_state, AreByMapping};

    ghost Value = { WorkState };

    ghost view = { λ w. rows_state w.rows.items };

    ghost invariant = { λ w. AreByMapping w.rows.items };
}

impl Work {
    /// No mapping is known. Takes no memory.
    pub fn new(alloc: Global) -> Work
        ensures flags { result.flags ≡ [] }
        ensures known { result.known ≡ [] }
    {
        Work {
            rows: Vec::new(alloc),
        }
    }

    /// Makes the mapping known, without a flag where it wasn't; the flags stay as they are. Refused, all is as it
    /// was. A mapping that is known takes no memory.
    pub fn track(&mut self, map: MapId) -> Result<(), NoMemory>
        ensures flags { self.new.flags ≡ self.old.flags }
        ensures ok { OnOk result (self.new.known ≡ with_number map.0 self.old.known) }
        ensures err { OnErr result (self.new.known ≡ self.old.known) }
        ensures known { IsTrue (is_known map self.old.known) → IsOk result }
    {
        if has_row(self.rows.as_slice(), map) {
            return Ok(());
        }
        put_row(
            &mut self.rows,
            WorkFlags {
                map,
                copies: false,
                cleans: false,
            },
        )
    }

    /// The mapping is known, and its flags are these. Refused, all is as it was. A mapping that is known takes no
    /// memory, and the answer is Ok.
    pub fn set(&mut self, map: MapId, copies: bool, cleans: bool) -> Result<(), NoMemory>
        ensures flags { OnOk result (self.new.flags ≡ with_flags (record { map = map; copies = copies; cleans = cleans }) self.old.flags) }
        ensures numbers { OnOk result (self.new.known ≡ with_number map.0 self.old.known) }
        ensures err { OnErr result (self.new ≡ self.old) }
        ensures known { IsTrue (is_known map self.old.known) → IsOk result }
    {
        put_row(
            &mut self.rows,
            WorkFlags {
                map,
                copies,
                cleans,
            },
        )
    }

    /// The mapping is known no more, and has no flag. Takes no memory.
    pub fn forget(&mut self, map: MapId)
        ensures flags { self.new.flags ≡ without_flags map self.old.flags }
        ensures numbers { self.new.known ≡ without_number map self.old.known }
    {
        self.rows.retain(|row| row.map != map);
    }

    /// The first mapping by id that copies and lacks a grain, and the least grain that it lacks. None exactly where
    /// there is none. Takes no memory.
    pub fn next_copy<G: Grid>(&self, grid: &G) -> Option<(MapId, GrainNo)>
        ensures next { result ≡ next_work (λ row. row.copies) (G.least_lacking grid.now) self.now.flags }
        ensures by_id { AreByMapping self.now.flags }
    {
        for copier in self.rows.as_slice() {
            if copier.copies {
                if let Some(grain) = grid.lacking(copier.map) {
                    return Some((copier.map, grain));
                }
            }
        }
        None
    }

    /// The first mapping by id that cleans and is needed at a grain, and the least such grain. None exactly where
    /// there is none. Takes no memory.
    pub fn next_clean<G: Grid>(&self, grid: &G) -> Option<(MapId, GrainNo)>
        ensures next { result ≡ next_work (λ row. row.cleans) (G.least_needed grid.now) self.now.flags }
        ensures by_id { AreByMapping self.now.flags }
    {
        for cleaner in self.rows.as_slice() {
            if cleaner.cleans {
                if let Some(grain) = grid.needed(cleaner.map) {
                    return Some((cleaner.map, grain));
                }
            }
        }
        None
    }
}

/// Whether the mapping has a row.
fn has_row(rows: &[WorkFlags], map: MapId) -> bool
    requires { AreByMapping rows.now }
    ensures { result ≡ has_mapping map.0 rows.now }
{
    is_at(rows, place_of(rows, map), map)
}

/// Puts the row at its place by id, for the one that its mapping had. Refused, the rows are as they were. Where its
/// mapping has a row it takes no memory.
fn put_row(rows: &mut Vec<WorkFlags>, row: WorkFlags) -> Result<(), NoMemory>
    requires { AreByMapping rows.old.items }
    ensures ok { OnOk result (rows.new.items ≡ with_row row rows.old.items) }
    ensures err { OnErr result (rows.new.items ≡ rows.old.items) }
    ensures there { has_mapping row.map.0 rows.old.items ≡ true → IsOk result }
{
    let place = place_of(rows, row.map);
    if is_at(rows, place, row.map) {
        rows[place] = row;
        return Ok(());
    }
    match rows.insert(place, row) {
        Ok(()) => Ok(()),
        Err(_) => Err(NoMemory),
    }
}

/// The place of the mapping among rows in order of id: how many have a lower one.
pub fn place_of(rows: &[WorkFlags], map: MapId) -> usize
    requires { AreByMapping rows.now }
    ensures { result ≡ length (before map.0 rows.now) }
{
    rows.partition_point(|row| row.map.0 < map.0)
}

/// Whether the mapping's row stands at the place, which has to be its place by id.
pub fn is_at(rows: &[WorkFlags], place: usize, map: MapId) -> bool
    requires rising { AreByMapping rows.now }
    requires place { place ≡ length (before map.0 rows.now) }
    ensures { result ≡ has_mapping map.0 rows.now }
{
    place < rows.len() && rows[place].map == map
}
