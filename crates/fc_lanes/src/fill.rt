//! One copy or cleaning of a grain.

ghost use Rattle.std.specs.Prelude.{◌≡◌, ◌%◌, IsSome};
ghost use Rattle.fc_follow.specs.Following.{Followed};
ghost use Rattle.fc_lane.specs.Entering.{HasFollowed};
ghost use Rattle.fc_lane.specs.Lane.{IsFollowing, IsReady, of};
ghost use Rattle.fc_legal.specs.Seconds.{fill_of, filled_by};
ghost use Rattle.fc_rules.specs.LaneTold.{place_of};

use crate::work::Work;
use fc_base::ids::GrainNo;
use fc_entry::entry::Entry;
use fc_lane::lane::Lane;
use fc_mdisk::mdisk::Mdisk;
use std::alloc::Global;

/// Copies or cleans a grain in its lane, where the work has something to do, by `main`; room was made for the entry
/// (`Lane::make_room`). The entry that it answers is right, and the lane stands for what is told with it; nobody keeps it yet.
pub fn fill_lane<D: Mdisk>(
    alloc: Global,
    lane: &mut Lane<D>,
    number: u64,
    work: &Work,
    grain: GrainNo,
) -> Entry
    requires can { (f : Followed) × IsFollowing lane.old f × IsSome (filled_by work.now.cleans f.told.sheet.slots work.now.map.0 (place_of (of lane.old) grain.0)) }
    requires of_lane { grain.0 % lane.old.lanes ≡ lane.old.lane }
    requires ready { IsReady lane.old }
    ensures { HasFollowed lane.old (λ told. IsSome (filled_by work.now.cleans told.sheet.slots work.now.map.0 (place_of (of lane.old) grain.0))) number 0 (fill_of work.now grain) result lane.new }
{
    if work.cleans() {
        lane.clean(alloc, number, 0, work.map(), grain)
    } else {
        lane.copy(alloc, number, 0, work.map(), grain)
    }
}
