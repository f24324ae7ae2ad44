//! The store, taken apart into the parts that actors can hold alone, and put together again. Neither takes memory.

ghost use Rattle.std.specs.Prelude.{◌≡◌, ◌+◌, ◌≤◌, ◌++◌, [], List, length, vec_len, vec_capacity};
ghost use Rattle.fc_lane.specs.Lane.{LaneView};
ghost use Rattle.fc_stands.specs.Store.{StoreView};
ghost use Rattle.fc_store.specs.StoreParts.{lane_parts, parts_view};

use crate::store::Store;
use fc_control::Control;
use fc_lane::lane::Lane;
use fc_mdisk::mdisk::Mdisk;
use std::alloc::Global;
use std::collections::VecDeque;
use std::mem;

/// A part of the store that an actor can hold alone: the control part, or a lane.
#[derive(Drop)]
pub enum StorePart<D: Mdisk> {
    /// The control part.
    Control(Control),
    /// A lane.
    Lane(Lane<D>),
}

/// Appends lanes as parts, in order, to a list that has room for them. The lanes' own room stays.
fn append_lanes<D: Mdisk>(lanes: &mut Vec<Lane<D>>, parts: &mut Vec<StorePart<D>>)
    requires { vec_len parts.old + vec_len lanes.old ≤ vec_capacity parts.old }
    ensures parts { parts.new.items ≡ parts.old.items ++ lane_parts lanes.old.items }
    ensures emptied { lanes.new.items ≡ [] }
    ensures room { vec_capacity lanes.new ≡ vec_capacity lanes.old }
{
    for lane in lanes.drain(..) {
        parts.push_reserved(StorePart::Lane(lane));
    }
}

/// Appends the lanes of parts that are all lanes, in order, to a list that has room for them.
fn take_lanes<D: Mdisk>(mut parts: VecDeque<StorePart<D>>, lanes: &mut Vec<Lane<D>>)
    requires are_lanes { (ls : List LaneView) × (parts.items ≡ lane_parts ls) }
    requires room { vec_len lanes.old + length parts.items ≤ vec_capacity lanes.old }
    ensures { lane_parts lanes.new.items ≡ lane_parts lanes.old.items ++ parts.items }
{
    while let Some(part) = parts.pop_front() {
        let StorePart::Lane(lane) = part else {
            unreachable!()
        };
        lanes.push_reserved(lane);
    }
}

impl<D: Mdisk> Store<D> {
    /// The store of a control part and of lanes in order. Takes no memory.
    pub fn from_parts_in(alloc: Global, control: Control, lanes: Vec<Lane<D>>) -> Store<D>
        ensures { result ≡ record { control = control; lanes = lanes.items } }
    {
        Store {
            alloc,
            control,
            lanes,
        }
    }

    /// The control part, and the lanes in order.
    pub fn into_control_and_lanes(self) -> (Control, Vec<Lane<D>>)
        ensures control { result.0 ≡ self.control }
        ensures lanes { result.1.items ≡ self.lanes }
    {
        let Store { control, lanes, .. } = self;
        (control, lanes)
    }

    /// Appends all parts, the control part and then the lanes in order, to a list that has room for them. The store is left
    /// without lanes, and with a control part that has no objects, until `give_parts`. Answers the tray that the lanes lay in,
    /// which `give_parts` asks for. Takes no memory.
    pub fn take_parts(&mut self, into: &mut Vec<StorePart<D>>) -> Vec<Lane<D>>
        requires { vec_len into.old + length self.old.lanes + 1 ≤ vec_capacity into.old }
        ensures parts { into.new.items ≡ into.old.items ++ parts_view self.old }
        ensures tray { result.items ≡ [] }
        ensures room { length self.old.lanes ≤ vec_capacity result }
    {
        let none = Control::new(self.alloc, self.control.grain());
        let empty = Store::from_parts_in(self.alloc, none, Vec::new(self.alloc));
        let (control, mut lanes) = mem::replace(self, empty).into_control_and_lanes();
        into.push_reserved(StorePart::Control(control));
        append_lanes(&mut lanes, into);
        lanes
    }

    /// Becomes the store of these parts: the control part, and then the lanes in order, which are put into an empty tray that has
    /// room for them. Takes no memory.
    pub fn give_parts(&mut self, parts: Vec<StorePart<D>>, tray: Vec<Lane<D>>)
        requires parts { (s : StoreView) × (parts.items ≡ parts_view s) }
        requires empty { tray.items ≡ [] }
        requires room { vec_len parts ≤ vec_capacity tray + 1 }
        ensures { (s : StoreView) → parts.items ≡ parts_view s → self.new ≡ s }
    {
        let mut lanes = tray;
        let mut left = VecDeque::from(parts);
        let Some(StorePart::Control(control)) = left.pop_front() else {
            unreachable!()
        };
        take_lanes(left, &mut lanes);
        let store = Store::from_parts_in(self.alloc, control, lanes);
        drop(mem::replace(self, store));
    }
}
