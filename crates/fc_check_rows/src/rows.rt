//! All mappings that are followed.

ghost use Rattle.std.specs.Prelude.{◌≡◌, [], ◌∷◌, ◌++◌, IfOk, OnOk, map as map_list};
ghost use Rattle.std.specs.List.{list_any};
ghost use Rattle.fc_changed.specs.Notes.Note.{Began, Left, Cut, Forgotten};
ghost use Rattle.fc_changed.specs.Row.{after_note, is_of, restart_in, row_began, row_cut, row_left, row_wrote, with_new};
ghost use Rattle.fc_check_rows.specs.Marks.{rows_wrote};

use crate::row::Row;
use fc_base::ids::{MapId, VolId};
use fc_base::outcome::NoMemory;
use std::alloc::Global;
use std::marker::Model;

/// The mappings that are followed, each with a mark for each grain at which its volumes show the same.
#[derive(Drop)]
pub struct Rows {
    rows: Vec<Row>,
}

impl Model for Rows {
    ghost use Rattle.std.specs.Prelude.{List};
    ghost use Rattle.fc_changed.specs.Row as changed;

    ghost Value = { List changed.Row };

    ghost view = { λ r. r.rows.items };
}

/// A trigger in each row.
fn begin_each(rows: &mut [Row], source: u32, target: u32)
    ensures { rows.new ≡ map_list (row_began source target) rows.old }
{
    for row in rows.iter_mut() {
        row.began(source, target);
    }
}

/// A grain of a volume was written, in each row.
fn write_each(rows: &mut [Row], volume: u32, grain: u64)
    ensures { rows.new ≡ map_list (row_wrote volume grain) rows.old }
{
    for row in rows.iter_mut() {
        row.wrote(volume, grain);
    }
}

/// A copy to a volume left its chain, in each row.
fn leave_each(rows: &mut [Row], target: u32, held: &[bool])
    ensures { rows.new ≡ map_list (row_left target held.now) rows.old }
{
    for row in rows.iter_mut() {
        row.left(target, held);
    }
}

/// A volume was cut, in each row.
fn cut_each(rows: &mut [Row], target: u32)
    ensures { rows.new ≡ map_list (row_cut target) rows.old }
{
    for row in rows.iter_mut() {
        row.cut(target);
    }
}

impl Rows {
    /// No mapping is followed. Takes no memory.
    pub fn new(alloc: Global) -> Rows
        ensures { result ≡ [] }
    {
        Rows {
            rows: Vec::new(alloc),
        }
    }

    /// Whether a mapping is followed.
    fn has(&self, map: MapId) -> bool
        ensures { result ≡ list_any (is_of map.0) self.now }
    {
        self.rows.as_slice().iter().any(|row| row.is_of(map.0))
    }

    /// Puts a row at the end.
    fn push(&mut self, row: Row) -> Result<(), NoMemory>
        ensures { OnOk result (self.new ≡ self.old ++ row ∷ []) }
    {
        match self.rows.push(row) {
            Ok(()) => Ok(()),
            Err(_) => Err(NoMemory),
        }
    }

    /// Other rows of the same mappings, with the same marks. Refused for want of memory alone.
    pub fn copy(&self, alloc: Global) -> Result<Rows, NoMemory>
        ensures { IfOk result (λ copy. copy ≡ self.now) }
    {
        let mut copy = Rows::new(alloc);
        for row in self.rows.as_slice() {
            copy.push(row.copy(alloc)?)?;
        }
        Ok(copy)
    }

    /// A mapping is followed from a trigger on, where it isn't yet; with no grains told it isn't followed.
    fn add(
        &mut self,
        alloc: Global,
        map: MapId,
        source: VolId,
        target: VolId,
        followed: Option<usize>,
    ) -> Result<(), NoMemory>
        ensures { OnOk result (self.new ≡ with_new map.0 source.0 target.0 followed self.old) }
    {
        match followed {
            Some(grains) => {
                let is_there = self.has(map);
                if is_there {
                    return Ok(());
                }
                let row = Row::new(alloc, map.0, source.0, target.0, grains)?;
                self.push(row)
            }
            None => Ok(()),
        }
    }

    /// A trigger of a mapping made the target a copy of the source; of an incremental mapping the number of
    /// grains is told.
    pub(crate) fn began(
        &mut self,
        alloc: Global,
        map: MapId,
        source: VolId,
        target: VolId,
        followed: Option<usize>,
    ) -> Result<(), NoMemory>
        ensures { OnOk result (self.new ≡ after_note self.old (Began map.0 source.0 target.0 followed)) }
    {
        begin_each(self.rows.as_mut_slice(), source.0, target.0);
        self.add(alloc, map, source, target, followed)
    }

    /// A grain of a volume was written, or a failed write spoiled what it shows.
    pub(crate) fn wrote(&mut self, volume: VolId, grain: u64)
        ensures { self.new ≡ rows_wrote volume.0 grain self.old }
    {
        write_each(self.rows.as_mut_slice(), volume.0, grain);
    }

    /// A copy to a volume left its chain, with these grains.
    pub(crate) fn left(&mut self, target: VolId, held: &[bool])
        ensures { self.new ≡ after_note self.old (Left target.0 held.now) }
    {
        leave_each(self.rows.as_mut_slice(), target.0, held);
    }

    /// A volume was cut.
    pub(crate) fn cut(&mut self, target: VolId)
        ensures { self.new ≡ after_note self.old (Cut target.0) }
    {
        cut_each(self.rows.as_mut_slice(), target.0);
    }

    /// A mapping is followed no more.
    pub(crate) fn forget(&mut self, map: MapId)
        ensures { self.new ≡ after_note self.old (Forgotten map.0) }
    {
        self.rows.retain(|row| !row.is_of(map.0));
    }

    /// What a mapping that starts again needn't copy: a mark for each such grain; no marks where it isn't
    /// followed.
    pub fn restart(&self, map: MapId) -> &[bool]
        ensures { result.now ≡ restart_in map.0 self.now }
    {
        for row in self.rows.as_slice() {
            if row.is_of(map.0) {
                return row.same();
            }
        }
        &[]
    }
}
