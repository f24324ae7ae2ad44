//! What one actor was answered.

ghost use Rattle.std.specs.Prelude.{◌≡◌, [], ◌∷◌, IfSome};
ghost use Rattle.fc_merge.specs.Taking.{is_next};

use fc_entry::entry::Entry;
use std::collections::VecDeque;
use std::marker::Model;

/// The entries of one actor, in order of their numbers.
#[derive(Drop)]
pub struct OwnEntries {
    /// The actor's number.
    pub actor: u32,
    /// What it was answered.
    pub entries: VecDeque<Entry>,
}

impl Model for OwnEntries {
    ghost use Rattle.fc_merge.specs.Merging.{Own};

    ghost Value = { Own };

    ghost view = { λ own. record { actor = own.actor; entries = own.entries.items } };
}

impl OwnEntries {
    /// Whether the first entry has this number.
    pub(crate) fn is_next(&self, number: u64) -> bool
        ensures { result ≡ is_next number self.now.entries }
    {
        match self.entries.front() {
            Some(entry) => entry.number == number,
            None => false,
        }
    }

    /// Takes the first entry, if there is one.
    pub(crate) fn take_first(&mut self) -> Option<Entry>
        ensures taken { IfSome result (λ entry. self.old ≡ record self.new { entries = entry ∷ self.new.entries }) }
        ensures none { result ≡ None → self.old.entries ≡ [] }
    {
        self.entries.pop_front()
    }
}
