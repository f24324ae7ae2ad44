//! The lane.

use fc_apply::access::Accesses;
use fc_diff::Changes;
use fc_mdisk::mdisk::Mdisk;
use fc_pick::Work;
use fc_steps::body::Body;
use fc_steps::roomy::RoomyPlan;
use std::alloc::Global;
use std::marker::Model;

/// One lane of the store: the chains of its grains, their physical grains on disks, how hosts reach each volume, and
/// the background work.
#[derive(Drop)]
pub struct Lane<D: Mdisk> {
    pub(crate) alloc: Global,
    pub(crate) lane: u8,
    pub(crate) lanes: u8,
    pub(crate) body: Body<D>,
    pub(crate) accesses: Accesses,
    pub(crate) work: Work,
    pub(crate) changes: Changes,
    pub(crate) plan: RoomyPlan,
    pub(crate) spare: Option<RoomyPlan>,
}

impl<D: Mdisk> Model for Lane<D> {
    ghost use Rattle.std.specs.Prelude.{◌<◌};
    ghost use Rattle.fc_lane.specs.Lane.{LaneView};
    ghost use Rattle.fc_steps.specs.Plans.{room_of};

    ghost Value = { LaneView };

    ghost view = { λ l. record { lane = l.lane; lanes = l.lanes; chains = l.body.cascade; grains = l.body.grains; accesses = l.accesses; work = l.work; changes = l.changes; plan_room = l.plan.room; entry_room = room_of l.spare } };

    ghost invariant = { λ l. l.lane < l.lanes };
}
