//! What the events of a decision do to the disks left for new volumes.

ghost use Rattle.std.specs.Prelude.{◌≡◌, fold, map};
ghost use Rattle.fc_base.specs.Pools.{pool_without};
ghost use Rattle.fc_books.specs.After.{pools_after};
ghost use Rattle.fc_check_sheet.specs.View.{pool_of, pools_of};

use fc_base::decision::LaneEvent;
use fc_base::disk::DiskKind;
use fc_check_sheet::LanePool;

/// One disk of the kind is taken, if there is one.
fn take_disk(pool: &mut LanePool, kind: DiskKind)
    ensures { pool_of pool.new ≡ pool_without kind (pool_of pool.old) }
{
    match kind {
        DiskKind::Flat => pool.flat = pool.flat.saturating_sub(1),
        DiskKind::Thin => pool.thin = pool.thin.saturating_sub(1),
    }
}

/// One disk of the kind is taken in each lane.
fn take_disks(pools: &mut [LanePool], kind: DiskKind)
    ensures { pools_of pools.new ≡ map (pool_without kind) (pools_of pools.old) }
{
    for pool in pools.iter_mut() {
        take_disk(pool, kind);
    }
}

/// What an event does to the disks left: a new volume takes one in each lane.
fn take_for(pools: &mut [LanePool], event: &LaneEvent)
    ensures { pools_of pools.new ≡ pools_after (pools_of pools.old) event.now }
{
    match event {
        LaneEvent::Make { kind, .. } => take_disks(pools, *kind),
        _ => {}
    }
}

/// What events do to the disks left, in order.
pub(crate) fn take_for_all(pools: &mut [LanePool], events: &[LaneEvent])
    ensures { pools_of pools.new ≡ fold pools_after (pools_of pools.old) events.now }
{
    for event in events {
        take_for(pools, event);
    }
}
