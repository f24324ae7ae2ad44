//! Which slots stand in which chain.

ghost use Rattle.std.specs.Prelude.{◌≡◌, ◌++◌, [], ◌∷◌, IfOk, OnOk, map};
ghost use Rattle.fc_drawing.specs.Chains.{are_together, chain_at, chains_of, is_first};

use crate::places::{last_place, places_below};
use fc_base::outcome::NoMemory;
use fc_model::PlainSheet;
use std::alloc::Global;
use std::marker::Model;

/// The slots of one chain, by their places on the sheet.
#[derive(Drop)]
pub struct Chain {
    places: Vec<usize>,
}

impl Model for Chain {
    ghost use Rattle.std.specs.Prelude.{ℕ, List};

    ghost Value = { List ℕ };

    ghost view = { λ c. c.places.items };
}

impl Chain {
    /// The places, in the chain's order.
    pub fn places(&self) -> &[usize]
        ensures { result.now ≡ self.now }
    {
        self.places.as_slice()
    }
}

/// Whether two places are of one chain.
fn are_together(sheet: &PlainSheet, place: usize, other: usize) -> bool
    ensures { result ≡ are_together sheet.now.slots place other }
{
    sheet.chain(place).0 == sheet.chain(other).0
}

/// Whether no slot of its chain stands before a place.
fn is_first(sheet: &PlainSheet, place: usize) -> bool
    ensures { result ≡ is_first sheet.now.slots place }
{
    last_place(place, |other| are_together(sheet, other, place)).is_none()
}

/// The places of the chain of a place.
fn chain_at(alloc: Global, sheet: &PlainSheet, place: usize) -> Result<Chain, NoMemory>
    ensures { IfOk result (λ chain. chain ≡ chain_at sheet.now.slots place) }
{
    let places = places_below(
        alloc,
        sheet.len(),
        |other| are_together(sheet, other, place),
    )?;
    Ok(Chain { places })
}

/// The first place of each chain.
fn first_places(alloc: Global, sheet: &PlainSheet) -> Result<Vec<usize>, NoMemory>
    ensures { IfOk result (λ firsts. map (chain_at sheet.now.slots) firsts.items ≡ chains_of sheet.now.slots) }
{
    places_below(alloc, sheet.len(), |place| is_first(sheet, place))
}

/// Puts a chain at the end.
fn push_chain(chains: &mut Vec<Chain>, chain: Chain) -> Result<(), NoMemory>
    ensures { OnOk result (chains.new.items ≡ chains.old.items ++ chain ∷ []) }
{
    match chains.push(chain) {
        Ok(()) => Ok(()),
        Err(_) => Err(NoMemory),
    }
}

/// All chains, in the order in which their first slots stand on the sheet. Refused for want of memory alone.
pub fn chains_of(alloc: Global, sheet: &PlainSheet) -> Result<Vec<Chain>, NoMemory>
    ensures { IfOk result (λ chains. chains.items ≡ chains_of sheet.now.slots) }
{
    let firsts = first_places(alloc, sheet)?;
    let mut chains = Vec::new(alloc);
    for place in firsts.as_slice() {
        push_chain(&mut chains, chain_at(alloc, sheet, *place)?)?;
    }
    Ok(chains)
}
