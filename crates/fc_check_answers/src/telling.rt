//! What a session asks of a way.

ghost use Rattle.fc_check_answers.specs.Small.{IsSmallWay};

use fc_base::ids::GrainNo;
use fc_base::outcome::NoMemory;
use fc_base::size::GrainSize;
use fc_check_record::Record;
use fc_check_requests::told::Told;
use fc_check_requests::work::Work;
use fc_pick::WorkFlags;
use fc_registry::Registry;

/// What was told in a way, as it decides what is asked next.
#[derive(Drop)]
pub(crate) struct Telling<'a> {
    pub(crate) way: &'a Record,
    ghost small: { IsSmallWay way.now },
}

impl<'a> Told for Telling<'a> {
    ghost grain = { λ t. t.way.now.grain };

    ghost whole = { λ t. t.way.now.whole };

    fn grain_size(&self) -> GrainSize {
        self.way.grain_size()
    }

    fn registry(&self) -> &Registry {
        self.way.registry()
    }

    fn flags(&self) -> &[WorkFlags] {
        self.way.flags()
    }

    fn lanes(&self) -> usize {
        self.way.lanes()
    }

    fn next_grain(&self, work: &Work) -> Result<Option<GrainNo>, NoMemory> {
        Ok(self.way.next_grain(work.map(), work.cleans()))
    }
}
