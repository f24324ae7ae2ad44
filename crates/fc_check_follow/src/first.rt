//! The way before the first entry.

ghost use Rattle.std.specs.Prelude.{◌≡◌, ◌<◌, length, IfOk};
ghost use Rattle.fc_legal.specs.Whole.{opened};
ghost use Rattle.law_stands.specs.Names.{nameless};
ghost use Rattle.fc_check_sheet.specs.View.{pools_of};
ghost use Rattle.fc_check_follow.specs.Ways.{pools_told};

use fc_base::outcome::NoMemory;
use fc_base::size::GrainSize;
use fc_check_lane::push_item;
use fc_check_record::Record;
use fc_check_sheet::LanePool;
use fc_trace::header::LaneDisks;
use std::alloc::Global;

/// The disks that lanes have for new volumes.
fn lane_pools(alloc: Global, lanes: &[LaneDisks]) -> Result<Vec<LanePool>, NoMemory>
    ensures { IfOk result (λ pools. pools_of pools.items ≡ pools_told lanes.now) }
{
    let mut pools = Vec::new(alloc);
    for lane in lanes {
        let pool = LanePool {
            flat: lane.flat,
            thin: lane.thin,
        };
        push_item(&mut pools, pool)?;
    }
    Ok(pools)
}

/// What is told before the first entry, over these disks for new volumes, lane by lane. Refused for want of memory alone.
pub fn first_way(alloc: Global, grain: GrainSize, lanes: &[LaneDisks]) -> Result<Record, NoMemory>
    requires { 0 < length lanes.now }
    ensures { IfOk result (λ way. way ≡ record { grain = grain; whole = nameless (opened (pools_told lanes.now)) }) }
{
    let pools = lane_pools(alloc, lanes)?;
    Record::open(alloc, grain, pools.as_slice())
}
