//! Entries of lanes: an access grain by grain, and a worker's turn.

ghost use Rattle.std.specs.Prelude.{◌≡◌, ℕ, ◌%◌};
ghost use Rattle.fc_lane.specs.Lane.{IsAsked, IsReady, LaneView};
ghost use Rattle.fc_lanes.specs.Asking.{part_of};
ghost use Rattle.fc_legal.specs.Whole.{lanes};
ghost use Rattle.fc_shares.specs.Law.{LaneLeads};
ghost use Rattle.fc_shares.specs.Situation.{HasLane, IsSound, Situation};
ghost use Rattle.fc_actors.specs.Spans.{IsSpanOf, turn_of};

use fc_base::ids::VolId;
use fc_base::request::Pick;
use fc_base::size::GrainSize;
use fc_entry::entry::Entry;
use fc_lane::lane::Lane;
use fc_lanes::access::{Access, access_lane};
use fc_lanes::touched::blocks_in;
use fc_mdisk::mdisk::Mdisk;
use std::alloc::Global;

/// An access of blocks of a volume, of which some grains are left.
#[derive(Clone, Copy)]
pub struct Span {
    /// What is done with the blocks.
    pub access: Access,
    /// The volume.
    pub volume: VolId,
    /// The first block, from 0.
    pub block: u32,
    /// How many blocks.
    pub count: u32,
    /// The next grain.
    pub next: u32,
    /// The first grain behind the last.
    pub end: u32,
}

/// Does the next grain of an access in its lane, in which room was made. The entry has number 0
/// until its own is drawn.
pub(crate) fn access_next<D: Mdisk>(
    alloc: Global,
    actor: u32,
    grain: GrainSize,
    span: Span,
    lane: &mut Lane<D>,
) -> Entry
    requires can { (first s : Situation) × (i : ℕ) × (opening : LaneView)
        × IsSound first s × HasLane s i opening lane.old × IsSpanOf first span
        × (first.grain ≡ grain) × (i ≡ span.next % lanes first.whole) }
    requires ready { IsReady lane.old }
    ensures leads { (first s : Situation) (i : ℕ) (opening : LaneView) →
        IsSound first s → HasLane s i opening lane.old → IsSpanOf first span → first.grain ≡ grain →
        i ≡ span.next % lanes first.whole → LaneLeads first s i opening lane.new result }
    ensures asked { IsAsked 0 actor
        (part_of grain span.access span.volume span.block span.count span.next) result }
{
    let (first, count) = blocks_in(grain, span.block, span.count, span.next);
    access_lane(
        alloc,
        lane,
        0,
        actor,
        span.access,
        span.volume,
        first,
        count,
    )
}

/// Takes a worker's turn in the lane, in which room was made. The entry has number 0 until its own
/// is drawn.
pub(crate) fn turn_next<D: Mdisk>(
    alloc: Global,
    actor: u32,
    cleans: bool,
    lane: &mut Lane<D>,
) -> Entry
    requires can { (first s : Situation) × (i : ℕ) × (opening : LaneView)
        × IsSound first s × HasLane s i opening lane.old }
    requires ready { IsReady lane.old }
    ensures leads { (first s : Situation) (i : ℕ) (opening : LaneView) →
        IsSound first s → HasLane s i opening lane.old →
        LaneLeads first s i opening lane.new result }
    ensures asked { IsAsked 0 actor (turn_of cleans lane.old.lane) result }
{
    if cleans {
        lane.clean_turn(alloc, 0, actor, Pick::Any)
    } else {
        lane.copy_turn(alloc, 0, actor, Pick::Any)
    }
}
