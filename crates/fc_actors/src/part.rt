//! The parts of a store, as the parts of a yard.

use fc_entry::entry::Entry;
use fc_mdisk::mdisk::Mdisk;
use fc_store::store_part::StorePart;
use fc_yard::part::Part;
use std::marker::Model;

/// What the parts of a store stand for together: the grain size, and what the history tells. No
/// value of it is made.
pub struct Told;

impl Model for Told {
    ghost use Rattle.fc_shares.specs.Situation.{Situation};
    ghost use Rattle.fc_actors.specs.Shares.{untold};

    ghost Value = { Situation };

    ghost view = { λ _. untold };
}

impl<D: Mdisk + Send> Part<Told, Entry> for StorePart<D> {
    ghost use Rattle.fc_shares.specs.Situation.{IsSound, LeadsTo, entries_told};
    ghost use Rattle.fc_actors.specs.Shares.{HasShare};

    ghost fits = { λ opening s p part. HasShare opening s p part };

    ghost sound = { λ first s. IsSound first s };

    ghost count = { entries_told };

    ghost steps = { λ s n entry next. LeadsTo s n entry next };
}
