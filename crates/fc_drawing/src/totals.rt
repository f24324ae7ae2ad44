//! How many moves were made, by pair of volumes.

ghost use Rattle.std.specs.Prelude.{◌≡◌, ◌++◌, [], ◌∷◌, OnErr, OnOk, Option};
ghost use Rattle.fc_drawing.specs.Totals.{counted, is_of, is_same, moved_once, none_of, place_of};

use fc_base::ids::VolId;
use fc_base::outcome::NoMemory;
use std::alloc::Global;
use std::marker::Model;

/// Moves from one volume to another.
#[derive(Clone, Copy, PartialEq, Eq)]
pub struct PairTotal {
    /// From whom; None where nobody held the grain.
    pub from: Option<VolId>,
    /// To whom.
    pub to: VolId,
    /// How many grains were copied; it stands still at 2^64 - 1.
    pub copied: u64,
    /// How many were in place already; it stands still at 2^64 - 1.
    pub in_place: u64,
}

/// Whether two are the same volume, or none both.
fn is_same(one: Option<VolId>, other: Option<VolId>) -> bool
    ensures { result ≡ is_same one other }
{
    match (one, other) {
        (Some(one), Some(other)) => one.0 == other.0,
        (None, None) => true,
        _ => false,
    }
}

impl PairTotal {
    /// No moves of a pair.
    fn none(from: Option<VolId>, to: VolId) -> PairTotal
        ensures { result ≡ none_of from to }
    {
        PairTotal {
            from,
            to,
            copied: 0,
            in_place: 0,
        }
    }

    /// Whether it is of this pair.
    fn is_of(&self, from: Option<VolId>, to: VolId) -> bool
        ensures { result ≡ is_of from to self.now }
    {
        is_same(self.from, from) && self.to.0 == to.0
    }

    /// The same with one move more.
    fn moved_once(self, in_place: bool) -> PairTotal
        ensures { result ≡ moved_once in_place self }
    {
        if in_place {
            PairTotal {
                in_place: self.in_place.saturating_add(1),
                ..self
            }
        } else {
            PairTotal {
                copied: self.copied.saturating_add(1),
                ..self
            }
        }
    }
}

/// The place of a pair, or how many pairs there are where it isn't among them.
fn place_of(pairs: &[PairTotal], from: Option<VolId>, to: VolId) -> usize
    ensures { result ≡ place_of from to pairs.now }
{
    for place in 0..pairs.len() {
        if pairs[place].is_of(from, to) {
            return place;
        }
    }
    pairs.len()
}

/// Puts a total at the end.
fn push_total(pairs: &mut Vec<PairTotal>, total: PairTotal) -> Result<(), NoMemory>
    ensures pushed { OnOk result (pairs.new.items ≡ pairs.old.items ++ total ∷ []) }
    ensures refused { OnErr result (pairs.new.items ≡ pairs.old.items) }
{
    match pairs.push(total) {
        Ok(()) => Ok(()),
        Err(_) => Err(NoMemory),
    }
}

/// All moves, by pair of volumes, in the order in which pairs came first.
#[derive(Drop)]
pub struct Totals {
    pairs: Vec<PairTotal>,
}

impl Model for Totals {
    ghost use Rattle.std.specs.Prelude.{List};
    ghost use Rattle.fc_drawing.specs.declared.totals.PairTotal.{PairTotal};

    ghost Value = { List PairTotal };

    ghost view = { λ t. t.pairs.items };
}

impl Totals {
    /// No moves. Takes no memory.
    pub fn new(alloc: Global) -> Totals
        ensures { result ≡ [] }
    {
        Totals {
            pairs: Vec::new(alloc),
        }
    }

    /// The pairs, in order.
    pub fn pairs(&self) -> &[PairTotal]
        ensures { result.now ≡ self.now }
    {
        self.pairs.as_slice()
    }

    /// Counts one move. Refused for want of memory, it isn't counted.
    pub fn count(&mut self, from: Option<VolId>, to: VolId, in_place: bool) -> Result<(), NoMemory>
        ensures counted { OnOk result (self.new ≡ counted from to in_place self.old) }
        ensures refused { OnErr result (self.new ≡ self.old) }
    {
        let place = place_of(self.pairs.as_slice(), from, to);
        if place < self.pairs.len() {
            self.pairs[place] = self.pairs[place].moved_once(in_place);
            return Ok(());
        }
        push_total(
            &mut self.pairs,
            PairTotal::none(from, to).moved_once(in_place),
        )
    }
}
