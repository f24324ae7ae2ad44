//! A lane that begins.

ghost use Rattle.std.specs.Prelude.{◌≡◌, ◌<◌, ◌^◌, IfOk, [], map, vec_len};
ghost use Rattle.std.specs.List.{All};
ghost use Rattle.fc_grains.specs.Grains.{IsUnarmed, opened, silent_of};
ghost use Rattle.fc_grains.specs.Quiet.{IsQuiet};
ghost use Rattle.fc_lane.specs.Lane.{IsFollowing, begun};

use crate::lane::Lane;
use fc_apply::access::Accesses;
use fc_base::outcome::NoMemory;
use fc_base::size::GrainSize;
use fc_chain::Cascade;
use fc_diff::Changes;
use fc_grains::grains::Grains;
use fc_mdisk::mdisk::Mdisk;
use fc_pick::Work;
use fc_steps::body::Body;
use fc_steps::roomy::RoomyPlan;
use std::alloc::Global;

impl<D: Mdisk> Lane<D> {
    /// A lane without volumes, and these disks for new ones. Wants memory for one grain and a place for each disk.
    /// Refused, the disks are gone.
    pub fn new(
        alloc: Global,
        lane: u8,
        lanes: u8,
        grain: GrainSize,
        disks: Vec<D>,
    ) -> Result<Lane<D>, NoMemory>
        requires lane_in { lane < lanes }
        requires few { vec_len disks < 2 ^ 30 }
        requires unarmed { All IsUnarmed (map D.meaning disks.items) }
        ensures lane { IfOk result (λ made. made.lane ≡ lane) }
        ensures lanes { IfOk result (λ made. made.lanes ≡ lanes) }
        ensures grains { IfOk result (λ made. made.grains ≡ opened grain (map D.meaning disks.items)) }
        ensures stands { IfOk result (λ made. IsFollowing made (record { told = begun (opened grain (map D.meaning disks.items)); rows = []; rooms = [] })) }
        ensures quiet { IfOk result (λ made. silent_of (map D.meaning disks.items) ≡ 0 → IsQuiet made.grains) }
    {
        let plan = match RoomyPlan::new(alloc, 0) {
            Ok(plan) => plan,
            Err(NoMemory) => return Err(NoMemory),
        };
        let grains = match Grains::new(alloc, grain, disks) {
            Ok(grains) => grains,
            Err(NoMemory) => return Err(NoMemory),
        };
        Ok(Lane {
            alloc,
            lane,
            lanes,
            body: Body {
                cascade: Cascade::new(alloc, lane, lanes),
                grains,
            },
            accesses: Accesses::new(alloc),
            work: Work::new(alloc),
            changes: Changes::new(alloc),
            plan,
            spare: None,
        })
    }
}
