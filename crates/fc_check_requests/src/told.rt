//! What is asked of what was told.

ghost use Rattle.std.specs.Prelude.{◌≡◌, ◌<◌, IfOk};
ghost use Rattle.fc_base.specs.declared.size.GrainSize.{GrainSize};
ghost use Rattle.fc_legal.specs.Seconds.{next_grain};
ghost use Rattle.fc_legal.specs.Whole.{Whole, lanes};

use crate::work::Work;
use fc_base::ids::GrainNo;
use fc_base::outcome::NoMemory;
use fc_base::size::GrainSize;
use fc_pick::WorkFlags;
use fc_registry::Registry;

/// What was told after some entries, as far as it decides what is asked next. The names of actors in it count
/// for nothing.
pub trait Told {
    /// The grain size.
    ghost grain: { Self → GrainSize };

    /// What was told.
    ghost whole: { Self → Whole };

    /// The grain size.
    fn grain_size(&self) -> GrainSize
        ensures { result ≡ grain self.now };

    /// The tables of volumes, mappings and groups.
    fn registry(&self) -> &Registry
        ensures { result.now.tables ≡ (whole self.now).books.tables };

    /// The mappings with background work.
    fn flags(&self) -> &[WorkFlags]
        ensures { result.now ≡ (whole self.now).books.flags };

    /// How many lanes there are, one or more.
    fn lanes(&self) -> usize
        ensures count { result ≡ lanes (whole self.now) }
        ensures some { 0 < result };

    /// The least grain of all lanes at which background work has something to do. Refused for want of memory,
    /// or where a grain has a number of 2^32 or more.
    fn next_grain(&self, work: &Work) -> Result<Option<GrainNo>, NoMemory>
        ensures { IfOk result (λ next. next ≡ next_grain (grain self.now) (whole self.now) work.now) };
}
