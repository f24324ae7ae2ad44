//! Marks of writes that were begun.

ghost use Rattle.std.specs.Prelude.{◌≡◌, ◌∷◌, ◌++◌, [], filter, not, OnOk, OnErr};
ghost use Rattle.std.specs.List.{list_any};
ghost use Rattle.fc_marks.specs.Marks.{is_at, is_open, is_open_any, is_told};

use fc_base::ids::{GrainNo, VolId};
use fc_base::outcome::NoMemory;
use fc_diff::Tracked;

/// A write of a grain that was begun: by metadata the grain counts as changed for each mapping that is followed and names the volume,
/// and in the lane not before the write is done.
#[derive(Clone, Copy)]
pub struct Mark {
    /// The volume that is written.
    pub volume: VolId,
    /// The grain, by its number in the volume.
    pub grain: GrainNo,
}

impl Mark {
    /// Whether it is of this volume and this grain.
    pub fn is_at(&self, volume: VolId, grain: GrainNo) -> bool
        ensures { result ≡ is_at volume grain self.now }
    {
        self.volume.0 == volume.0 && self.grain.0 == grain.0
    }
}

/// Whether a mark tells of the grain for a row: it is of a volume that the row names.
fn is_told(row: &Tracked, marks: &[Mark], grain: GrainNo) -> bool
    ensures { result ≡ is_told row.now marks.now grain }
{
    marks.iter().any(|mark| {
        mark.grain.0 == grain.0 && (row.source() == mark.volume.0 || row.target() == mark.volume.0)
    })
}

/// Whether a row names the volume and by metadata has the grain, which is at this place among the lane's, as the same in both of its
/// volumes.
fn is_open(row: &Tracked, marks: &[Mark], volume: VolId, grain: GrainNo, place: u32) -> bool
    ensures { result ≡ is_open marks.now volume grain place row.now }
{
    (row.source() == volume.0 || row.target() == volume.0)
        && place < row.same().len()
        && row.same().has(place)
        && !is_told(row, marks, grain)
}

/// Whether a write of a grain, which is at this place among the lane's, is to be marked before it is begun.
pub fn wants_mark(
    rows: &[Tracked],
    marks: &[Mark],
    volume: VolId,
    grain: GrainNo,
    place: u32,
) -> bool
    ensures { result ≡ is_open_any rows.now marks.now volume grain place }
{
    rows.iter()
        .any(|row| is_open(row, marks, volume, grain, place))
}

/// Takes off the marks of a volume's grain.
pub fn forget(marks: &mut Vec<Mark>, volume: VolId, grain: GrainNo)
    ensures { marks.new.items ≡ filter (λ mark. not (is_at volume grain mark)) marks.old.items }
{
    marks.retain(|mark| !mark.is_at(volume, grain));
}

/// Notes a mark. Refused, the marks are as they were.
pub fn remember(marks: &mut Vec<Mark>, volume: VolId, grain: GrainNo) -> Result<(), NoMemory>
    ensures ok { OnOk result (marks.new.items ≡ marks.old.items ++ (record { volume = volume; grain = grain }) ∷ []) }
    ensures err { OnErr result (marks.new.items ≡ marks.old.items) }
{
    match marks.push(Mark { volume, grain }) {
        Ok(()) => Ok(()),
        Err(_) => Err(NoMemory),
    }
}
