//! Requests that are left to be asked, one after the other.

ghost use Rattle.std.specs.Prelude.{◌≡◌, ◌↔◌, [], ◌∷◌, ◌++◌, IsTrue, OnErr, OnOk, IfOk, Some, All, flat_map};
ghost use Rattle.fc_base.specs.declared.request.Request.TheVariants.{Command as CommandAsked, Unread as UnreadAsked};
ghost use Rattle.fc_check_requests.specs.Requests.{AsksSome, IsRest, item_left, span_left, turns_left};
ghost use Rattle.fc_check_requests.specs.declared.requests.Item.{Item};
ghost use Rattle.fc_legal.specs.Scripts.{behind_first, next_request};

use crate::span::Span;
use crate::turns::Turns;
use fc_base::command::Command;
use fc_base::fault::WordFault;
use fc_base::outcome::NoMemory;
use fc_base::request::Request;
use fc_check_same::same::Same;
use fc_copies::copy::copy_command;
use std::alloc::Global;
use std::collections::VecDeque;
use std::marker::Model;

/// One request or more.
#[derive(Drop)]
pub enum Item {
    /// A command alone.
    Command(Command),
    /// A faulty line alone.
    Unread(WordFault),
    /// An access, grain by grain.
    Access(Span),
    /// Turns of a worker.
    Turns(Turns),
}

/// Whether this is the command.
fn is_command(request: &Request, own: &Command) -> bool
    ensures { IsTrue result ↔ (CommandAsked own.now ≡ request.now) }
{
    match request {
        Request::Command(command) => own.is_same(command),
        _ => false,
    }
}

/// Whether this is a line with the fault.
fn is_unread(request: &Request, own: WordFault) -> bool
    ensures { IsTrue result ↔ (UnreadAsked own ≡ request.now) }
{
    match request {
        Request::Unread(fault) => *fault == own,
        _ => false,
    }
}

/// What is left of an access behind the next grain, if anything.
fn rest_of_access(span: Span) -> Option<Item>
    requires { AsksSome (Item.Access span) }
    ensures { IsRest result (behind_first (span_left span)) }
{
    if span.left > 1 {
        Some(Item::Access(span.behind_next()))
    } else {
        None
    }
}

/// What is left of some turns behind the next, if anything.
fn rest_of_turns(turns: Turns) -> Option<Item>
    requires { AsksSome (Item.Turns turns) }
    ensures { IsRest result (behind_first (turns_left turns)) }
{
    if turns.left > 1 {
        Some(Item::Turns(turns.behind_next()))
    } else {
        None
    }
}

impl Item {
    /// Whether this is its first request.
    fn asks(&self, request: &Request) -> bool
        requires { AsksSome self.now }
        ensures { IsTrue result ↔ (next_request (item_left self.now) ≡ Some request.now) }
    {
        match self {
            Item::Command(own) => is_command(request, own),
            Item::Unread(own) => is_unread(request, *own),
            Item::Access(span) => span.asks(request),
            Item::Turns(turns) => turns.asks(request),
        }
    }

    /// What is left of it behind its first request, if anything.
    fn behind_first(self) -> Option<Item>
        requires { AsksSome self }
        ensures { IsRest result (behind_first (item_left self)) }
    {
        match self {
            Item::Access(span) => rest_of_access(span),
            Item::Turns(turns) => rest_of_turns(turns),
            Item::Command(_) => None,
            Item::Unread(_) => None,
        }
    }

    /// The same again.
    fn copy(&self, alloc: Global) -> Result<Item, NoMemory>
        ensures { IfOk result (λ copy. copy ≡ self.now) }
    {
        match self {
            Item::Command(command) => Ok(Item::Command(copy_command(alloc, command)?)),
            Item::Unread(fault) => Ok(Item::Unread(*fault)),
            Item::Access(span) => Ok(Item::Access(*span)),
            Item::Turns(turns) => Ok(Item::Turns(*turns)),
        }
    }
}

/// Requests that are left, one after the other.
#[derive(Drop)]
pub struct Requests {
    items: VecDeque<Item>,
}

impl Model for Requests {
    ghost use Rattle.std.specs.Prelude.{List, All, flat_map};
    ghost use Rattle.fc_base.specs.declared.request.Request.{Request};
    ghost use Rattle.fc_check_requests.specs.Requests.{AsksSome, item_left};

    ghost Value = { List Request };

    ghost view = { λ r. flat_map item_left r.items.items };

    ghost invariant = { λ r. All AsksSome r.items.items };
}

impl Requests {
    /// None. Takes no memory.
    pub fn new(alloc: Global) -> Requests
        ensures { result ≡ [] }
    {
        Requests {
            items: VecDeque::new(alloc),
        }
    }

    /// Whether none are left.
    #[tactic(auto, using(crate::proofs::RequestLemmas::empty_left))]
    pub fn is_empty(&self) -> bool
        ensures { IsTrue result ↔ (self.now ≡ []) }
    {
        self.items.is_empty()
    }

    /// Whether this is the next.
    pub fn asks(&self, request: &Request) -> bool
        ensures { IsTrue result ↔ (next_request self.now ≡ Some request.now) }
    {
        match self.items.front() {
            Some(item) => item.asks(request),
            None => false,
        }
    }

    /// The next was asked: the rest is left.
    pub fn take_first(&mut self)
        ensures { self.new ≡ behind_first self.old }
    {
        take_first(&mut self.items);
    }

    /// Puts an item behind the others. Refused, for want of memory alone, they are as they were.
    #[tactic(auto, using(crate::proofs::RequestLemmas::pushed_all, crate::proofs::RequestLemmas::pushed_left))]
    fn push(&mut self, item: Item) -> Result<(), NoMemory>
        requires { AsksSome item }
        ensures { OnOk result (self.new ≡ self.old ++ item_left item) }
    {
        match push_item(&mut self.items, item) {
            Ok(()) => Ok(()),
            Err(NoMemory) => Err(NoMemory),
        }
    }

    /// Puts a command behind the others.
    pub fn push_command(&mut self, command: Command) -> Result<(), NoMemory>
        ensures { OnOk result (self.new ≡ self.old ++ CommandAsked command ∷ []) }
    {
        self.push(Item::Command(command))
    }

    /// Puts a faulty line behind the others.
    pub fn push_unread(&mut self, fault: WordFault) -> Result<(), NoMemory>
        ensures { OnOk result (self.new ≡ self.old ++ UnreadAsked fault ∷ []) }
    {
        self.push(Item::Unread(fault))
    }

    /// Puts an access behind the others, grain by grain.
    pub fn push_access(&mut self, span: Span) -> Result<(), NoMemory>
        requires { AsksSome (Item.Access span) }
        ensures { OnOk result (self.new ≡ self.old ++ span_left span) }
    {
        self.push(Item::Access(span))
    }

    /// Puts the turns of a worker behind the others.
    pub fn push_turns(&mut self, turns: Turns) -> Result<(), NoMemory>
        requires { AsksSome (Item.Turns turns) }
        ensures { OnOk result (self.new ≡ self.old ++ turns_left turns) }
    {
        self.push(Item::Turns(turns))
    }

    /// The same again. Refused for want of memory alone.
    pub fn copy(&self, alloc: Global) -> Result<Requests, NoMemory>
        ensures { IfOk result (λ copy. copy ≡ self.now) }
    {
        Ok(Requests {
            items: copy_items(alloc, &self.items)?,
        })
    }
}

/// Takes the first request, if there is one.
fn take_first(items: &mut VecDeque<Item>)
    requires { All AsksSome items.old.items }
    ensures left { flat_map item_left items.new.items ≡ behind_first (flat_map item_left items.old.items) }
    ensures some { All AsksSome items.new.items }
{
    let Some(item) = items.pop_front() else {
        return;
    };
    match item.behind_first() {
        Some(rest) => items.push_front_reserved(rest),
        None => {}
    }
}

/// Puts an item behind the others.
fn push_item<T: Drop>(items: &mut VecDeque<T>, item: T) -> Result<(), NoMemory>
    ensures ok { OnOk result (items.new.items ≡ items.old.items ++ item ∷ []) }
    ensures err { OnErr result (items.new.items ≡ items.old.items) }
{
    match items.push_back(item) {
        Ok(()) => Ok(()),
        Err(_) => Err(NoMemory),
    }
}

/// The same items again.
fn copy_items(alloc: Global, items: &VecDeque<Item>) -> Result<VecDeque<Item>, NoMemory>
    ensures { IfOk result (λ copy. copy.items ≡ items.now.items) }
{
    let mut copy = VecDeque::new(alloc);
    for place in 0..items.len() {
        push_item(&mut copy, items[place].copy(alloc)?)?;
    }
    Ok(copy)
}
