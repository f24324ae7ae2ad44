//! One mapping that is followed.

ghost use Rattle.std.specs.Prelude.{◌≡◌, ◌&&◌, length, replicate, true, IfOk};
ghost use Rattle.fc_changed.specs.Notes.{has, joins};
ghost use Rattle.fc_changed.specs.Row.{is_of, row_names, row_began, row_wrote, row_left, row_cut};
ghost use Rattle.fc_check_rows.specs.Marks.{same_and_held};

use fc_base::outcome::NoMemory;
use std::alloc::Global;
use std::marker::Model;

/// A mapping that is followed: its volumes, which of them was the target of the last trigger that joined them,
/// and a mark for each grain at which both have shown the same ever since.
#[derive(Drop)]
pub(crate) struct Row {
    map: u32,
    source: u32,
    target: u32,
    into: u32,
    same: Vec<bool>,
}

impl Model for Row {
    ghost use Rattle.fc_changed.specs.Row as changed;

    ghost Value = { changed.Row };

    ghost view = { λ r. record { map = r.map; source = r.source; target = r.target; into = r.into; same = r.same.items } };
}

/// Whether a grain is marked; past the last one none is.
fn is_marked(marks: &[bool], grain: usize) -> bool
    ensures { result ≡ has marks.now grain }
{
    grain < marks.len() && marks[grain]
}

/// Whether a grain is marked in both lists.
fn are_marked(marks: &[bool], others: &[bool], grain: usize) -> bool
    ensures { result ≡ (has marks.now grain && has others.now grain) }
{
    is_marked(marks, grain) && is_marked(others, grain)
}

/// Only grains that are marked among the others too stay marked.
fn keep_marked(marks: &mut [bool], others: &[bool])
    ensures { marks.new ≡ same_and_held marks.old others.now }
{
    for grain in 0..marks.len() {
        marks[grain] = are_marked(marks, others, grain);
    }
}

impl Row {
    /// A mapping that is followed from a trigger on, whose volumes have so many grains.
    pub(crate) fn new(
        alloc: Global,
        map: u32,
        source: u32,
        target: u32,
        grains: usize,
    ) -> Result<Row, NoMemory>
        ensures { IfOk result (λ row. row ≡ record { map = map; source = source; target = target; into = target; same = replicate grains true }) }
    {
        match vec![in alloc; true; grains] {
            Ok(same) => Ok(Row {
                map,
                source,
                target,
                into: target,
                same,
            }),
            Err(_) => Err(NoMemory),
        }
    }

    /// The same row again.
    pub(crate) fn copy(&self, alloc: Global) -> Result<Row, NoMemory>
        ensures { IfOk result (λ copy. copy ≡ self.now) }
    {
        match Vec::from_slice(alloc, self.same.as_slice()) {
            Ok(same) => Ok(Row {
                map: self.map,
                source: self.source,
                target: self.target,
                into: self.into,
                same,
            }),
            Err(_) => Err(NoMemory),
        }
    }

    /// Whether it is the row of this mapping.
    pub(crate) fn is_of(&self, map: u32) -> bool
        ensures { result ≡ is_of map self.now }
    {
        map == self.map
    }

    /// The marks of the grains at which both volumes show the same.
    pub(crate) fn same(&self) -> &[bool]
        ensures { result.now ≡ self.now.same }
    {
        self.same.as_slice()
    }

    /// Whether a volume is one of its two.
    fn names(&self, volume: u32) -> bool
        ensures { result ≡ row_names self.now volume }
    {
        volume == self.source || volume == self.target
    }

    /// Whether two volumes are its own, in either direction.
    fn joins(&self, source: u32, target: u32) -> bool
        ensures { result ≡ joins self.now.source self.now.target source target }
    {
        (source == self.source && target == self.target)
            || (source == self.target && target == self.source)
    }

    /// All marks are this one.
    fn mark_all(&mut self, mark: bool)
        ensures { self.new ≡ record self.old { same = replicate (length self.old.same) mark } }
    {
        self.same.as_mut_slice().fill(mark);
    }

    /// A trigger made the target a copy of the source: it makes its two volumes the same, and others differ
    /// from either.
    pub(crate) fn began(&mut self, source: u32, target: u32)
        ensures { self.new ≡ row_began source target self.old }
    {
        if self.joins(source, target) {
            self.mark_all(true);
            self.into = target;
        } else if self.names(target) {
            self.mark_all(false);
        }
    }

    /// A grain of a volume was written, or a failed write spoiled what it shows.
    pub(crate) fn wrote(&mut self, volume: u32, grain: u64)
        ensures { self.new ≡ row_wrote volume grain self.old }
    {
        if self.names(volume) && grain < self.same.len() as u64 {
            self.same[grain as usize] = false;
        }
    }

    /// A copy to the target left its chain, with these grains.
    pub(crate) fn left(&mut self, target: u32, held: &[bool])
        ensures { self.new ≡ row_left target held.now self.old }
    {
        if self.names(target) {
            keep_marked(self.same.as_mut_slice(), held);
        }
    }

    /// The target was cut.
    pub(crate) fn cut(&mut self, target: u32)
        ensures { self.new ≡ row_cut target self.old }
    {
        if self.names(target) && self.into != target {
            self.mark_all(false);
        }
    }
}
