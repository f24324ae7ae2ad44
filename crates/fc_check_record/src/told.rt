//! What a record says of what was told, as far as it decides what is asked next.

ghost use Rattle.std.specs.Prelude.{◌≡◌, ◌<◌};
ghost use Rattle.fc_check_sheet.specs.View.{IsSmall};
ghost use Rattle.fc_legal.specs.Seconds.{Work, next_grain};
ghost use Rattle.fc_legal.specs.Whole.{lanes};

use crate::record::Record;
use fc_base::ids::{GrainNo, MapId};
use fc_base::size::GrainSize;
use fc_model::PlainSheet;
use fc_pick::WorkFlags;
use fc_registry::Registry;

impl Record {
    /// The grain size.
    pub fn grain_size(&self) -> GrainSize
        ensures { result ≡ self.now.grain }
    {
        self.kept.known.grain
    }

    /// The tables of volumes, mappings and groups.
    pub fn registry(&self) -> &Registry
        ensures { result.now.tables ≡ self.now.whole.books.tables }
    {
        self.kept.control.registry()
    }

    /// The chains of copies, at all grains.
    pub fn sheet(&self) -> &PlainSheet
        ensures { result.now ≡ self.now.whole.books.sheet }
    {
        &self.kept.known.sheet
    }

    /// The mappings with background work, in order of id.
    pub fn flags(&self) -> &[WorkFlags]
        ensures { result.now ≡ self.now.whole.books.flags }
    {
        self.kept.control.flags()
    }

    /// How many lanes there are, one or more.
    pub fn lanes(&self) -> usize
        ensures count { result ≡ lanes self.now.whole }
        ensures some { 0 < result }
    {
        self.kept.known.lanes()
    }

    /// The least grain of all lanes at which the copies of a mapping, or its cleanings, have something to do, and None exactly
    /// where they have nothing to do.
    pub fn next_grain(&self, map: MapId, cleans: bool) -> Option<GrainNo>
        requires { IsSmall self.now.whole.books.sheet.slots self.now.whole.rows }
        ensures { (work : Work) → work.map ≡ map → work.cleans ≡ cleans → result ≡ next_grain self.now.grain self.now.whole work }
    {
        self.kept.known.next_grain(map, cleans)
    }
}
