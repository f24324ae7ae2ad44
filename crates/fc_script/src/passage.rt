//! The seconds behind an `advance`, fill by fill.

ghost use Rattle.std.specs.Prelude.{◌≡◌, ◌≤◌, ◌<◌, ◌+◌, ◌++◌, ◌∷◌, [], None, Some, option_copied, IfOk, OnOk, IfSome, MatchBool};
ghost use Rattle.fc_base.specs.Grain.{grain_kib};
ghost use Rattle.fc_base.specs.declared.size.GrainSize.{GrainSize};
ghost use Rattle.fc_entry.specs.declared.entry.Entry.{Entry};
ghost use Rattle.fc_legal.specs.Agenda.{behind_fill};
ghost use Rattle.fc_legal.specs.Seconds.{fill_at_hand, goes_on, has_moved, next_fill, next_grain, seconds_begun, spent};
ghost use Rattle.fc_legal.specs.Whole.{Whole};
ghost use Rattle.fc_script.specs.Passage.{HasWork, PassTo, PassesUpTo, ReachesFill, before_pay, fill_grain, passing_of, turns_in};
ghost use Rattle.fc_stands.specs.Store.{StandsFor};

use fc_base::ids::GrainNo;
use fc_base::outcome::NoMemory;
use fc_base::size::GrainSize;
use fc_lanes::work::Work;
use fc_mdisk::mdisk::Mdisk;
use fc_store::store::Store;
use std::alloc::Global;
use std::collections::VecDeque;
use std::mem;

/// Seconds that pass: how many are left behind this one; of this one the work that is over, the work at hand and whether it
/// has paid for its next fill, and the work that is left.
#[derive(Drop)]
pub struct Passage {
    seconds: u32,
    over: VecDeque<Work>,
    at_hand: Option<Work>,
    paid: bool,
    left: VecDeque<Work>,
}

/// The grain that a work at hand fills next, for which it pays unless it has: none where its credit isn't worth a grain, or it
/// has nothing to do.
fn fill_of<D: Mdisk>(store: &Store<D>, work: &mut Work, paid: &mut bool) -> Option<GrainNo>
    requires stands { (w : Whole) × StandsFor store.now w }
    ensures kept { before_pay store.now.control.grain paid.new work.new ≡ before_pay store.now.control.grain paid.old work.old }
    ensures fill { (w : Whole) → StandsFor store.now w →
        fill_grain (fill_at_hand store.now.control.grain w (Some (before_pay store.now.control.grain paid.old work.old))) ≡ result }
    ensures next { IfSome result (λ g. (w : Whole) → StandsFor store.now w → next_grain store.now.control.grain w work.new ≡ Some g) }
{
    match store.next_grain(work) {
        None => None,
        Some(grain) => {
            if *paid {
                return Some(grain);
            }
            if work.pay(store.grain()) {
                *paid = true;
                return Some(grain);
            }
            None
        }
    }
}

/// Pays for a fill of this size, unless the work has paid.
fn pay_once(work: &mut Work, paid: bool, grain: GrainSize)
    ensures { grain_kib grain ≤ (before_pay grain paid work.old).credit → work.new ≡ spent grain (before_pay grain paid work.old) }
{
    if paid {
        return;
    }
    let _paid = work.pay(grain);
}

/// Puts a work behind others.
fn push_work(works: &mut VecDeque<Work>, work: Work) -> Result<(), NoMemory>
    ensures { OnOk result (works.new.items ≡ works.old.items ++ work ∷ []) }
{
    match works.push_back(work) {
        Ok(()) => Ok(()),
        Err(_) => Err(NoMemory),
    }
}

impl Passage {
    /// Before the first of so many seconds, with this background work. Takes no memory.
    pub(crate) fn begin(alloc: Global, works: Vec<Work>, seconds: u32) -> Passage
        ensures { (grain : GrainSize) → passing_of grain result ≡ seconds_begun seconds works.items }
    {
        Passage {
            seconds,
            over: VecDeque::from(works),
            at_hand: None,
            paid: false,
            left: VecDeque::new(alloc),
        }
    }

    /// The work at hand: that whose fill is asked, where one is.
    pub fn work(&self) -> Option<&Work>
        ensures { option_copied result ≡ self.now.at_hand }
    {
        self.at_hand.as_ref()
    }

    /// The grain that the work at hand fills next, for which it pays unless it has.
    fn next_fill<D: Mdisk>(&mut self, store: &Store<D>) -> Option<GrainNo>
        requires stands { (w : Whole) × StandsFor store.now w }
        ensures kept { passing_of store.now.control.grain self.new ≡ passing_of store.now.control.grain self.old }
        ensures turns { turns_in self.new ≡ turns_in self.old }
        ensures work { HasWork self.old → HasWork self.new }
        ensures fill { (w : Whole) → StandsFor store.now w →
            fill_grain (next_fill store.now.control.grain w (passing_of store.now.control.grain self.new)) ≡ result }
        ensures next { IfSome result (λ g. (w : Whole) → StandsFor store.now w → ReachesFill store.now.control.grain w (Some g) self.new) }
    {
        let Some(mut work) = self.at_hand.take() else {
            return None;
        };
        let fill = fill_of(store, &mut work, &mut self.paid);
        self.at_hand = Some(work);
        fill
    }

    /// The work at hand has nothing more to fill: its second is over. Or none is at hand: the next gains its second.
    fn turn<D: Mdisk>(&mut self, store: &Store<D>) -> Result<(), NoMemory>
        requires stands { (w : Whole) × StandsFor store.now w }
        requires work { HasWork self.old }
        requires idle { (w : Whole) → StandsFor store.now w → next_fill store.now.control.grain w (passing_of store.now.control.grain self.old) ≡ None }
        ensures passed { OnOk result ((w : Whole) → StandsFor store.now w →
            goes_on store.now.control.grain w (passing_of store.now.control.grain self.old) ≡ Some (passing_of store.now.control.grain self.new)) }
        ensures less { OnOk result (turns_in self.new < turns_in self.old) }
        ensures seconds { OnOk result (self.new.seconds ≡ self.old.seconds) }
    {
        match self.at_hand.take() {
            Some(mut work) => {
                store.save(&mut work);
                push_work(&mut self.over, work)
            }
            None => {
                let Some(mut work) = self.left.pop_front() else {
                    return Ok(());
                };
                work.gain();
                self.paid = false;
                self.at_hand = Some(work);
                Ok(())
            }
        }
    }

    /// Whether work of this second is at hand or left.
    fn has_work(&self) -> bool
        ensures { MatchBool result (HasWork self.now) ((self.now.at_hand ≡ None) × (self.now.left.items ≡ [])) }
    {
        self.at_hand.is_some() || !self.left.is_empty()
    }

    /// The next second begins, behind one of which no work is at hand or left.
    fn next_second(&mut self)
        requires over { (self.old.at_hand ≡ None) × (self.old.left.items ≡ []) }
        requires left { 0 < self.old.seconds }
        ensures passed { (grain : GrainSize) (w : Whole) → goes_on grain w (passing_of grain self.old) ≡ Some (passing_of grain self.new) }
        ensures less { self.new.seconds + 1 ≡ self.old.seconds }
    {
        self.seconds -= 1;
        mem::swap(&mut self.over, &mut self.left);
    }

    /// Goes on to the next fill of this second, and answers its grain. Where there is none, no work of this second is left.
    fn to_fill<D: Mdisk>(&mut self, store: &Store<D>) -> Result<Option<GrainNo>, NoMemory>
        requires stands { (w : Whole) × StandsFor store.now w }
        ensures passed { OnOk result ((w : Whole) → StandsFor store.now w →
            PassTo store.now.control.grain w (passing_of store.now.control.grain self.old) (passing_of store.now.control.grain self.new)) }
        ensures fill { IfOk result (λ fill. (w : Whole) → StandsFor store.now w → ReachesFill store.now.control.grain w fill self.new) }
        ensures seconds { OnOk result (self.new.seconds ≡ self.old.seconds) }
    {
        'turns: while self.has_work() {
            let fill = self.next_fill(store);
            match fill {
                Some(grain) => return Ok(Some(grain)),
                None => self.turn(store)?,
            }
        }
        Ok(None)
    }

    /// The seconds pass as far as they pass without an entry: to the next fill, whose grain is answered, or to their end.
    /// `NoMemory` where memory was wanted; then nothing is said of them.
    pub(crate) fn pass<D: Mdisk>(&mut self, store: &Store<D>) -> Result<Option<GrainNo>, NoMemory>
        requires stands { (w : Whole) × StandsFor store.now w }
        ensures passed { OnOk result ((w : Whole) → StandsFor store.now w →
            PassTo store.now.control.grain w (passing_of store.now.control.grain self.old) (passing_of store.now.control.grain self.new)) }
        ensures upto { IfOk result (λ fill. (w : Whole) → StandsFor store.now w → PassesUpTo store.now.control.grain w fill self.new) }
    {
        'seconds: loop {
            let fill = self.to_fill(store)?;
            match fill {
                Some(grain) => return Ok(Some(grain)),
                None => {}
            }
            if self.seconds == 0 {
                return Ok(None);
            }
            self.next_second();
        }
    }

    /// Goes on behind the next fill: a grain that was moved is paid, and any other answer ends the second of the work.
    /// `NoMemory` where memory was wanted; then nothing is said of them.
    pub(crate) fn follow<D: Mdisk>(&mut self, store: &Store<D>, moved: bool) -> Result<(), NoMemory>
        requires stands { (w : Whole) × StandsFor store.now w }
        ensures { OnOk result ((w : Whole) (g : GrainNo) (next : Whole) (entry : Entry) →
            fill_grain (next_fill store.now.control.grain w (passing_of store.now.control.grain self.old)) ≡ Some g → StandsFor store.now next → moved ≡ has_moved entry.reply →
            passing_of store.now.control.grain self.new
            ≡ behind_fill store.now.control.grain next (passing_of store.now.control.grain self.old) (passing_of store.now.control.grain self.old).at_hand entry) }
    {
        match self.at_hand.take() {
            Some(mut work) => {
                pay_once(&mut work, self.paid, store.grain());
                self.paid = false;
                if moved {
                    self.at_hand = Some(work);
                    return Ok(());
                }
                store.save(&mut work);
                push_work(&mut self.over, work)
            }
            None => Ok(()),
        }
    }
}
