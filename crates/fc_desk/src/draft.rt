//! A decision as it is put together.

ghost use Rattle.std.specs.Prelude.{◌≡◌, [], ◌∷◌, ◌++◌, OnOk};
ghost use Rattle.fc_books.specs.Books.{nothing};

use fc_base::decision::{Decision, LaneEvent, LaneEvents};
use fc_base::list::List;
use fc_base::outcome::NoMemory;
use fc_base::request::{Effect, Reply};
use fc_base::volume::Change;
use std::alloc::Global;
use std::marker::Model;

/// What a command does, so far. Contracts see the deed.
#[derive(Drop)]
pub struct Draft {
    effects: List<Effect>,
    events: LaneEvents,
    changes: List<Change>,
}

impl Model for Draft {
    ghost use Rattle.fc_books.specs.Books.{Deed};

    ghost Value = { Deed };

    ghost view = { λ d. record { effects = d.effects; events = d.events; changes = d.changes } };
}

impl Draft {
    /// Nothing yet. Takes no memory.
    pub fn new(alloc: Global) -> Self
        ensures { result ≡ nothing }
    {
        Draft {
            effects: List::new(alloc),
            events: List::new(alloc),
            changes: List::new(alloc),
        }
    }

    /// The history tells one more effect.
    pub fn affect(&mut self, effect: Effect) -> Result<(), NoMemory>
        ensures { OnOk result (self.new ≡ record self.old { effects = self.old.effects ++ effect ∷ [] }) }
    {
        self.effects.push(effect)
    }

    /// Lanes are told one more event.
    pub fn tell(&mut self, event: LaneEvent) -> Result<(), NoMemory>
        ensures { OnOk result (self.new ≡ record self.old { events = self.old.events ++ event ∷ [] }) }
    {
        self.events.push(event)
    }

    /// The tables get one more change.
    pub fn change(&mut self, change: Change) -> Result<(), NoMemory>
        ensures { OnOk result (self.new ≡ record self.old { changes = self.old.changes ++ change ∷ [] }) }
    {
        self.changes.push(change)
    }

    /// The changes of the tables so far.
    pub fn changes(&self) -> &[Change]
        ensures { result.now ≡ self.now.changes }
    {
        self.changes.as_slice()
    }

    /// The decision, with its reply.
    pub fn into_decision(self, reply: Reply) -> Decision
        ensures { result ≡ record { reply = reply; effects = self.effects; events = self.events; changes = self.changes } }
    {
        Decision {
            reply,
            effects: self.effects,
            events: self.events,
            changes: self.changes,
        }
    }
}
