//! Seconds that pass, as far as they pass without an entry.

ghost use Rattle.std.specs.Prelude.{◌≡◌, ◌↔◌, ◌+◌, ◌<◌, ℕ, List, [], ◌∷◌, ◌++◌, IsTrue, IfOk, OnOk, None, Some, MatchBool};
ghost use Rattle.law_stands.specs.Names.{named};
ghost use Rattle.fc_check_lines.specs.Passing.{HasWork, PassTo, PassesUpTo, ReachesFill, fill_asked, fill_grain, turns_in};
ghost use Rattle.fc_legal.specs.Agenda.{behind_fill};
ghost use Rattle.fc_legal.specs.Seconds.{all_work, fill_of, goes_on, has_moved, next_fill, saved, seconds_begun};
ghost use Rattle.fc_base.specs.declared.request.Request.{Request};
ghost use Rattle.fc_base.specs.declared.size.GrainSize.{GrainSize};
ghost use Rattle.fc_entry.specs.declared.entry.Entry.{Entry};
ghost use Rattle.fc_legal.specs.Whole.{Whole};

use fc_base::ids::{GrainNo, MapId};
use fc_base::outcome::NoMemory;
use fc_base::request::{Reply, Request};
use fc_check_requests::told::Told;
use fc_check_requests::work::{Work, all_work};
use std::alloc::Global;
use std::collections::VecDeque;
use std::marker::Model;
use std::mem;

/// Seconds that pass: how many are left behind this one; of this one the work that is over, the work at hand,
/// and the work that is left.
#[derive(Drop)]
pub struct Passing {
    seconds: u32,
    over: VecDeque<Work>,
    at_hand: Option<Work>,
    left: VecDeque<Work>,
}

impl Model for Passing {
    ghost use Rattle.fc_legal.specs.Seconds.{Passing as PassingState};

    ghost Value = { PassingState };

    ghost view = { λ p. record { seconds = p.seconds; over = p.over.items; at_hand = p.at_hand; left = p.left.items } };
}

/// The work keeps its credit where it has something left to do, and loses it else.
fn save<T: Told>(told: &T, work: &mut Work) -> Result<(), NoMemory>
    ensures { OnOk result (work.new ≡ saved (T.grain told.now) (T.whole told.now) work.old) }
{
    if told.next_grain(work)?.is_none() {
        work.lose();
    }
    Ok(())
}

/// Puts a work behind others.
fn push_work(works: &mut VecDeque<Work>, work: Work) -> Result<(), NoMemory>
    ensures { OnOk result (works.new.items ≡ works.old.items ++ work ∷ []) }
{
    match works.push_back(work) {
        Ok(()) => Ok(()),
        Err(_) => Err(NoMemory),
    }
}

/// Whether this is the copy of the mapping at the grain.
fn is_copy(request: &Request, map: MapId, grain: GrainNo) -> bool
    ensures { IsTrue result ↔ (Request.Copy map grain ≡ request.now) }
{
    match request {
        Request::Copy { map: of, grain: at } => *of == map && *at == grain,
        _ => false,
    }
}

/// Whether this is the cleaning of the mapping at the grain.
fn is_clean(request: &Request, map: MapId, grain: GrainNo) -> bool
    ensures { IsTrue result ↔ (Request.Clean map grain ≡ request.now) }
{
    match request {
        Request::Clean { map: of, grain: at } => *of == map && *at == grain,
        _ => false,
    }
}

/// Whether this is the fill of the work at the grain.
fn is_fill(work: &Work, grain: GrainNo, request: &Request) -> bool
    ensures { IsTrue result ↔ (fill_of work.now grain ≡ request.now) }
{
    if work.cleans() {
        is_clean(request, work.map(), grain)
    } else {
        is_copy(request, work.map(), grain)
    }
}

/// Whether a grain was moved.
fn has_moved(reply: &Reply) -> bool
    ensures { result ≡ has_moved reply.now }
{
    match reply {
        Reply::Moved { .. } => true,
        _ => false,
    }
}

impl Passing {
    /// Before the first of so many seconds, with the background work as it is told.
    pub(crate) fn begin<T: Told>(alloc: Global, told: &T, seconds: u32) -> Result<Passing, NoMemory>
        ensures { IfOk result (λ passing. passing ≡ seconds_begun seconds (all_work (T.whole told.now).books)) }
    {
        let over = all_work(alloc, told.flags(), told.registry().all_mappings())?;
        Ok(Passing {
            seconds,
            over,
            at_hand: None,
            left: VecDeque::new(alloc),
        })
    }

    /// The grain that the work at hand fills next: none where its credit isn't worth a grain, or it has nothing
    /// to do.
    fn next_fill<T: Told>(&self, told: &T) -> Result<Option<GrainNo>, NoMemory>
        ensures { IfOk result (λ grain. fill_grain (next_fill (T.grain told.now) (T.whole told.now) self.now) ≡ grain) }
    {
        match &self.at_hand {
            Some(work) => {
                if !work.is_worth(told.grain_size()) {
                    return Ok(None);
                }
                told.next_grain(work)
            }
            None => Ok(None),
        }
    }

    /// Whether this request is the next fill.
    pub(crate) fn asks<T: Told>(&self, told: &T, request: &Request) -> Result<bool, NoMemory>
        ensures { IfOk result (λ yes. IsTrue yes ↔ (fill_asked (next_fill (T.grain told.now) (T.whole told.now) self.now) ≡ Some request.now)) }
    {
        match &self.at_hand {
            Some(work) => match self.next_fill(told)? {
                Some(grain) => Ok(is_fill(work, grain, request)),
                None => Ok(false),
            },
            None => Ok(false),
        }
    }

    /// The work at hand has nothing more to fill: its second is over. Or none is at hand: the next gains its
    /// second.
    fn turn<T: Told>(&mut self, told: &T) -> Result<(), NoMemory>
        requires { HasWork self.old }
        ensures passed { OnOk result (goes_on (T.grain told.now) (T.whole told.now) self.old ≡ Some self.new) }
        ensures less { OnOk result (turns_in self.new < turns_in self.old) }
        ensures seconds { OnOk result (self.new.seconds ≡ self.old.seconds) }
    {
        match self.at_hand.take() {
            Some(mut work) => {
                save(told, &mut work)?;
                push_work(&mut self.over, work)
            }
            None => {
                let Some(mut work) = self.left.pop_front() else {
                    return Ok(());
                };
                work.gain();
                self.at_hand = Some(work);
                Ok(())
            }
        }
    }

    /// Whether work of this second is at hand or left.
    fn has_work(&self) -> bool
        ensures { MatchBool result (HasWork self.now) ((self.now.at_hand ≡ None) × (self.now.left ≡ [])) }
    {
        self.at_hand.is_some() || !self.left.is_empty()
    }

    /// The next second begins, behind one of which no work is at hand or left.
    fn next_second(&mut self)
        requires over { (self.old.at_hand ≡ None) × (self.old.left ≡ []) }
        requires left { 0 < self.old.seconds }
        ensures passed { (grain : GrainSize) (w : Whole) → goes_on grain w self.old ≡ Some self.new }
        ensures less { self.new.seconds + 1 ≡ self.old.seconds }
    {
        self.seconds -= 1;
        mem::swap(&mut self.over, &mut self.left);
    }

    /// Goes on to the next fill of this second: whether there is one. Where there is none, no work of this
    /// second is left.
    fn to_fill<T: Told>(&mut self, told: &T) -> Result<bool, NoMemory>
        ensures passed { OnOk result ((names : List (List ℕ)) → PassTo (T.grain told.now) (named names (T.whole told.now)) self.old self.new) }
        ensures fill { IfOk result (λ fills. ReachesFill fills (T.grain told.now) (T.whole told.now) self.new) }
        ensures seconds { OnOk result (self.new.seconds ≡ self.old.seconds) }
    {
        'turns: while self.has_work() {
            let fill = self.next_fill(told)?;
            match fill {
                Some(_) => return Ok(true),
                None => self.turn(told)?,
            }
        }
        Ok(false)
    }

    /// The seconds pass as far as they pass without an entry: to the next fill, which is answered by true, or
    /// to their end.
    pub(crate) fn pass<T: Told>(&mut self, told: &T) -> Result<bool, NoMemory>
        ensures passed { OnOk result ((names : List (List ℕ)) → PassTo (T.grain told.now) (named names (T.whole told.now)) self.old self.new) }
        ensures upto { IfOk result (λ fills. (names : List (List ℕ)) → PassesUpTo fills (T.grain told.now) (named names (T.whole told.now)) self.new) }
    {
        'seconds: loop {
            let fills = self.to_fill(told)?;
            if fills {
                return Ok(true);
            }
            if self.seconds == 0 {
                return Ok(false);
            }
            self.next_second();
        }
    }

    /// Goes on behind an entry that answered the next fill so: a grain that was moved is paid, and any other
    /// answer ends the second of the work.
    pub(crate) fn follow<T: Told>(&mut self, told: &T, reply: &Reply) -> Result<(), NoMemory>
        ensures { OnOk result ((entry : Entry) → entry.reply ≡ reply.now
            → self.new ≡ behind_fill (T.grain told.now) (T.whole told.now) self.old self.old.at_hand entry) }
    {
        match self.at_hand.take() {
            Some(mut work) => {
                work.spend(told.grain_size());
                if has_moved(reply) {
                    self.at_hand = Some(work);
                    return Ok(());
                }
                save(told, &mut work)?;
                push_work(&mut self.over, work)
            }
            None => Ok(()),
        }
    }

    /// The same again. Refused for want of memory alone.
    pub(crate) fn copy(&self, alloc: Global) -> Result<Passing, NoMemory>
        ensures { IfOk result (λ copy. copy ≡ self.now) }
    {
        let at_hand = match &self.at_hand {
            Some(work) => Some(work.copy()),
            None => None,
        };
        Ok(Passing {
            seconds: self.seconds,
            over: copy_works(alloc, &self.over)?,
            at_hand,
            left: copy_works(alloc, &self.left)?,
        })
    }
}

/// The same works again.
fn copy_works(alloc: Global, works: &VecDeque<Work>) -> Result<VecDeque<Work>, NoMemory>
    ensures { IfOk result (λ copy. copy.items ≡ works.now.items) }
{
    let mut copy = VecDeque::new(alloc);
    for place in 0..works.len() {
        push_work(&mut copy, works[place].copy())?;
    }
    Ok(copy)
}
