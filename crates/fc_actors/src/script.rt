//! The script of an actor: what it has still to ask, and how each request is done.

ghost use Rattle.std.specs.Prelude.{◌≡◌, ℕ, suc, ◌+◌, ◌<◌, ◌≤◌};
ghost use Rattle.std.specs.Prelude.{[], ◌∷◌, List, All, length, flat_map};
ghost use Rattle.std.specs.VecDeque.{deque_len, deque_capacity};
ghost use Rattle.fc_actors.specs.Spans.{turn_of};
ghost use Rattle.fc_actors.specs.declared.span.Span.{Span};
ghost use Rattle.fc_actors.specs.declared.script.Item.{Item};
ghost use Rattle.fc_lane.specs.Lane.{IsAsked, IsReady, LaneView};
ghost use Rattle.fc_legal.specs.Whole.{lanes};
ghost use Rattle.fc_base.specs.declared.fault.Refusal.{Refusal};
ghost use Rattle.fc_base.specs.declared.request.Request.{Request};
ghost use Rattle.fc_shares.specs.Law.{LaneLeads, refused_entry};
ghost use Rattle.fc_stands.specs.Apart.{IsRefusalOf};
ghost use Rattle.fc_shares.specs.Situation.{HasLane, IsSound, Situation};
ghost use Rattle.fc_actors.specs.Scripts.{CanActIn, FitsFirst, Goes, IsOfBlock, IsSameScript};
ghost use Rattle.fc_actors.specs.Scripts.{ItemSuits, WorkSuits, item_left, item_needs};
ghost use Rattle.fc_actors.specs.Scripts.{left_of, needs_of};

use crate::span::{Span, access_next, turn_next};
use fc_apart::apart::refused_entry;
use fc_base::command::Command;
use fc_base::fault::Refusal;
use fc_base::request::Request;
use fc_base::size::GrainSize;
use fc_entry::entry::Entry;
use fc_lane::lane::Lane;
use fc_mdisk::mdisk::Mdisk;
use fc_tasks::script::Needs;
use std::alloc::Global;
use std::collections::VecDeque;

/// What a line of an actor asks.
#[derive(Drop)]
pub enum Item {
    /// An access, grain by grain.
    Access(Span),
    /// A refused access or an unread line, and why it is refused.
    Refused { request: Request, refusal: Refusal },
    /// A command.
    Command(Command),
}

/// What is left of a script.
#[derive(Drop)]
pub enum Left {
    /// What these lines ask.
    Lines(VecDeque<Item>),
    /// The turns of a worker from the next one on, who copies or cleans, in the lanes 0, 1, .. in
    /// turn.
    Turns { cleans: bool, next: u32, turns: u32 },
}

/// The script of an actor over a store.
#[derive(Drop)]
pub struct ActorScript<D: Mdisk> {
    pub(crate) alloc: Global,
    pub(crate) actor: u32,
    pub(crate) grain: GrainSize,
    pub(crate) lanes: u32,
    pub(crate) work: Left,
    /// An empty list with room for all lanes: a command puts them there, since it takes no memory.
    pub(crate) tray: Vec<Lane<D>>,
}

/// What the first of some lines needs, in a store of so many lanes.
fn first_needs(lanes: u32, items: &VecDeque<Item>) -> Needs
    requires { 0 < lanes }
    ensures { result ≡ item_needs lanes items.now.items }
{
    match items.front() {
        Some(Item::Access(span)) => Needs::Part((span.next % lanes) as usize + 1),
        Some(Item::Refused { .. }) => Needs::Part(0),
        Some(Item::Command(_)) => Needs::All,
        None => Needs::Nothing,
    }
}

/// Takes the access that is first among some lines.
fn take_span(items: &mut VecDeque<Item>) -> Span
    requires { (span : Span) × (rest : List Item) × (items.old.items ≡ Item.Access span ∷ rest) }
    ensures taken { items.old.items ≡ Item.Access result ∷ items.new.items }
    ensures room { deque_len items.new < deque_capacity items.new }
{
    let Some(Item::Access(span)) = items.pop_front() else {
        unreachable!()
    };
    span
}

/// Does the next grain of the access that is first among some lines, in its lane.
fn next_grain<D: Mdisk>(
    alloc: Global,
    actor: u32,
    grain: GrainSize,
    items: &mut VecDeque<Item>,
    lane: &mut Lane<D>,
) -> Entry
    requires can { (first s : Situation) × (i : ℕ) × (opening : LaneView)
        × IsSound first s × HasLane s i opening lane.old × All (ItemSuits first) items.old.items
        × (first.grain ≡ grain)
        × (item_needs (lanes first.whole) items.old.items ≡ Needs.Part (suc i)) }
    requires ready { IsReady lane.old }
    ensures leads { (first s : Situation) (i : ℕ) (opening : LaneView) →
        IsSound first s → HasLane s i opening lane.old → All (ItemSuits first) items.old.items →
        first.grain ≡ grain → item_needs (lanes first.whole) items.old.items ≡ Needs.Part (suc i) →
        LaneLeads first s i opening lane.new result }
    ensures asked { flat_map (item_left grain) items.old.items
        ≡ result.request ∷ flat_map (item_left grain) items.new.items }
    ensures actor { (result.actor ≡ actor) × (result.number ≡ 0) }
    ensures suits { (s : Situation) →
        All (ItemSuits s) items.old.items → All (ItemSuits s) items.new.items }
{
    let span = take_span(items);
    let entry = access_next(alloc, actor, grain, span, lane);
    if span.next + 1 < span.end {
        items.push_front_reserved(Item::Access(Span {
            next: span.next + 1,
            ..span
        }));
    }
    entry
}

/// Takes the next of some turns, in its lane.
fn take_turn<D: Mdisk>(
    alloc: Global,
    actor: u32,
    cleans: bool,
    next: &mut u32,
    turns: u32,
    lane: &mut Lane<D>,
) -> Entry
    requires left { next.old < turns }
    requires can { (first s : Situation) × (i : ℕ) × (opening : LaneView)
        × IsSound first s × HasLane s i opening lane.old }
    requires ready { IsReady lane.old }
    ensures leads { (first s : Situation) (i : ℕ) (opening : LaneView) →
        IsSound first s → HasLane s i opening lane.old →
        LaneLeads first s i opening lane.new result }
    ensures asked { IsAsked 0 actor (turn_of cleans lane.old.lane) result }
    ensures next { next.new ≡ next.old + 1 }
{
    *next += 1;
    turn_next(alloc, actor, cleans, lane)
}

impl<D: Mdisk> ActorScript<D> {
    /// What the next request needs.
    pub(crate) fn next_needs(&self) -> Needs
        requires { 0 < self.now.lanes }
        ensures { result ≡ needs_of self.now }
    {
        match &self.work {
            Left::Lines(items) => first_needs(self.lanes, items),
            Left::Turns { next, turns, .. } => {
                if next < turns {
                    Needs::Part((next % self.lanes) as usize + 1)
                } else {
                    Needs::Nothing
                }
            }
        }
    }

    /// Does the next access of a grain, or the next turn, in its lane.
    pub(crate) fn act_in(&mut self, lane: &mut Lane<D>) -> Entry
        requires can { CanActIn self.old lane.old }
        requires ready { IsReady lane.old }
        ensures leads { (first s : Situation) (i : ℕ) (opening : LaneView) →
            IsSound first s → HasLane s i opening lane.old → FitsFirst first self.old →
            needs_of self.old ≡ Needs.Part (suc i) → LaneLeads first s i opening lane.new result }
        ensures goes { Goes self.old result self.new }
        ensures same { IsSameScript self.old self.new }
    {
        match &mut self.work {
            Left::Lines(items) => next_grain(self.alloc, self.actor, self.grain, items, lane),
            Left::Turns {
                cleans,
                next,
                turns,
            } => take_turn(self.alloc, self.actor, *cleans, next, *turns, lane),
        }
    }

    /// Answers the next request, which is a refused access or an unread line.
    pub(crate) fn refuse(&mut self) -> Entry
        requires { needs_of self.old ≡ Needs.Part 0 }
        ensures goes { Goes self.old result self.new }
        ensures same { IsSameScript self.old self.new }
        ensures refused { (s : Situation) → WorkSuits s self.old.work →
            (request : Request) × (refusal : Refusal) × IsRefusalOf s.grain s.whole request refusal
            × (result ≡ refused_entry self.old.actor request refusal) }
    {
        let Left::Lines(items) = &mut self.work else {
            unreachable!()
        };
        let Some(Item::Refused { request, refusal }) = items.pop_front() else {
            unreachable!()
        };
        refused_entry(self.alloc, self.actor, request, refusal)
    }

    /// Takes the next request, which is a command.
    pub(crate) fn take_command(&mut self) -> Command
        requires { needs_of self.old ≡ Needs.All }
        ensures taken { left_of self.old ≡ Request.Command result ∷ left_of self.new }
        ensures same { IsSameScript self.old self.new }
        ensures suits { (s : Situation) → WorkSuits s self.old.work → IsOfBlock result }
    {
        let Left::Lines(items) = &mut self.work else {
            unreachable!()
        };
        let Some(Item::Command(command)) = items.pop_front() else {
            unreachable!()
        };
        command
    }

    /// The number of the actor.
    pub fn number(&self) -> u32
        ensures { result ≡ self.now.actor }
    {
        self.actor
    }
}
