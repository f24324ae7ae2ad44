//! The entry of a command, which needs all parts.

ghost use Rattle.std.specs.Prelude.{◌≡◌, ◌+◌, ◌≤◌, ◌<◌, ◌++◌, ◌∷◌, ℕ, [], List, length, false};
ghost use Rattle.std.specs.Prelude.{vec_len, vec_capacity};
ghost use Rattle.fc_lane.specs.Lane.{IsAsked, IsSameLane, KeepsQuiet, LaneView};
ghost use Rattle.fc_lanes.specs.AllLanes.{EachLane};
ghost use Rattle.fc_legal.specs.Whole.{Whole};
ghost use Rattle.fc_stands.specs.Armed.{ArmsAs};
ghost use Rattle.fc_stands.specs.Arming.{arms};
ghost use Rattle.fc_stands.specs.Leading.{LeadsOn};
ghost use Rattle.fc_stands.specs.Phase.{IsDecided};
ghost use Rattle.fc_stands.specs.Store.{StandsFor, StoreView};
ghost use Rattle.fc_store.specs.StoreParts.{lane_parts, parts_view};

use fc_base::command::Command;
use fc_base::request::Request;
use fc_control::Control;
use fc_entry::entry::Entry;
use fc_lane::lane::Lane;
use fc_mdisk::mdisk::Mdisk;
use fc_store::store::Store;
use fc_store::store_part::StorePart;
use std::alloc::Global;

/// Moves the first part, which is a lane, behind some lanes that have room for it.
fn take_lane<D: Mdisk>(parts: &mut Vec<StorePart<D>>, lanes: &mut Vec<Lane<D>>)
    requires lanes { (first : LaneView) × (rest : List LaneView)
        × (parts.old.items ≡ lane_parts (first ∷ rest)) }
    requires room { vec_len lanes.old < vec_capacity lanes.old }
    ensures taken { (first : LaneView) (rest : List LaneView) →
        parts.old.items ≡ lane_parts (first ∷ rest) →
        (parts.new.items ≡ lane_parts rest) × (lanes.new.items ≡ lanes.old.items ++ first ∷ []) }
    ensures parts_room { vec_capacity parts.new ≡ vec_capacity parts.old }
    ensures lanes_room { vec_capacity lanes.new ≡ vec_capacity lanes.old }
{
    let StorePart::Lane(lane) = parts.remove(0) else {
        unreachable!()
    };
    lanes.push_reserved(lane);
}

/// Takes the control part and the lanes out of a list of all parts, which keeps its room. The lanes
/// go, in order, into an empty list with room for them.
fn gather<D: Mdisk>(parts: &mut Vec<StorePart<D>>, lanes: &mut Vec<Lane<D>>) -> Control
    requires parts { (s : StoreView) × (parts.old.items ≡ parts_view s) }
    requires room { (lanes.old.items ≡ []) × (vec_len parts.old ≤ vec_capacity lanes.old + 1) }
    ensures gathered { (s : StoreView) → parts.old.items ≡ parts_view s →
        (result ≡ s.control) × (lanes.new.items ≡ s.lanes) }
    ensures emptied { (parts.new.items ≡ []) × (vec_capacity parts.new ≡ vec_capacity parts.old) }
    ensures capacity { vec_capacity lanes.new ≡ vec_capacity lanes.old }
{
    let StorePart::Control(control) = parts.remove(0) else {
        unreachable!()
    };
    while !parts.is_empty() {
        take_lane(parts, lanes);
    }
    control
}

/// Does a command, which is no access and no preset, by an actor who holds all parts. The entry has
/// number 0 until its own is drawn. The tray is an empty list with room for all lanes, and comes back
/// so. Takes no memory for the parts.
pub(crate) fn command_over<D: Mdisk>(
    alloc: Global,
    actor: u32,
    command: Command,
    parts: &mut Vec<StorePart<D>>,
    mut tray: Vec<Lane<D>>,
) -> (Entry, Vec<Lane<D>>)
    requires can { (s : StoreView) × (w : Whole)
        × (parts.old.items ≡ parts_view s) × StandsFor s w × (w.entries < 262144) }
    requires decided { IsDecided command }
    requires tray { (tray.items ≡ []) × (vec_len parts.old ≤ vec_capacity tray + 1) }
    ensures leads { (s : StoreView) → parts.old.items ≡ parts_view s →
        (new : StoreView) × (parts.new.items ≡ parts_view new)
        × ((w : Whole) → StandsFor s w → w.entries < 262144 →
        LeadsOn s.control.grain w result.0 new)
        × (new.control.grain ≡ s.control.grain) × EachLane IsSameLane s.lanes new.lanes
        × (arms (Request.Command command) result.0.reply ≡ false →
        EachLane KeepsQuiet s.lanes new.lanes)
        × EachLane (ArmsAs new.control.tables command result.0.reply) s.lanes new.lanes }
    ensures asked { IsAsked 0 actor (Request.Command command) result.0 }
    ensures tray { (result.1.items ≡ []) × (vec_len parts.old ≤ vec_capacity result.1 + 1) }
{
    let control = gather(parts, &mut tray);
    let mut store = Store::from_parts_in(alloc, control, tray);
    let entry = store.command_entry(actor, command);
    let tray = store.take_parts(parts);
    (entry, tray)
}
