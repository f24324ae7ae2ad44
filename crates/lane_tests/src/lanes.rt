//! Lanes of the tests, with ample memory.

ghost use Rattle.std.specs.Prelude.{◌≡◌, ◌<◌, ◌^◌, map, vec_len};
ghost use Rattle.std.specs.List.{All};
ghost use Rattle.fc_follow.specs.Following.{FitsFollowed, Followed, TriggersFirst};
ghost use Rattle.fc_grains.specs.Grains.{IsUnarmed};
ghost use Rattle.fc_lane.specs.Lane.{IsFollowing, of};
ghost use Rattle.fc_rules.specs.LaneFits.{WorksFirst};
ghost use Rattle.lane_tests.specs.First.{the_lane, told_after, told_begun};

use fc_base::decision::LaneEvents;
use fc_base::request::Reply;
use fc_base::size::GrainSize;
use fc_entry::entry::Entry;
use fc_lane::lane::Lane;
use fc_mdisk::mdisk::Mdisk;
use std::alloc::Global;
use std::process::Abort;

/// A lane without volumes.
pub(crate) fn new_lane<D: Mdisk>(rt: &impl Abort, alloc: Global, disks: Vec<D>) -> Lane<D>
    requires few { vec_len disks < 2 ^ 30 }
    requires unarmed { All IsUnarmed (map D.meaning disks.items) }
    ensures of { of result ≡ the_lane }
    ensures stands { IsFollowing result (told_begun (map D.meaning disks.items)) }
{
    Lane::new(alloc, 0, 1, GrainSize::K64, disks).expect(rt, "memory")
}

/// Does to a lane what events that fit say.
pub(crate) fn done<D: Mdisk>(rt: &impl Abort, lane: &mut Lane<D>, events: &LaneEvents)
    requires of { of lane.old ≡ the_lane }
    requires fit { (f : Followed) × IsFollowing lane.old f × FitsFollowed the_lane f events.now }
    requires works { WorksFirst events.now }
    requires triggers { TriggersFirst events.now }
    ensures of { of lane.new ≡ the_lane }
    ensures stands { (f : Followed) → IsFollowing lane.old f → FitsFollowed the_lane f events.now → IsFollowing lane.new (told_after f events.now) }
{
    lane.reserve(events).expect(rt, "memory");
    lane.apply(events);
}

/// Whether a disk failed.
pub(crate) fn is_fault(entry: &Entry) -> bool {
    match &entry.reply {
        Reply::DiskFault => true,
        _ => false,
    }
}
