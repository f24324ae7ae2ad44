//! A block of actors: `main` is told of its faults, and then its actors are answered, in any order among them.

use crate::asked::{Asked, AskedList};
use crate::verdict::{Halt, Why};
use crate::walk::Walk;
use fc_base::outcome::NoMemory;
use fc_blocks::block::{ActorRead, BlockRead};
use std::alloc::Global;

/// What an actor asks, and how many of it were answered.
#[derive(Drop)]
struct Script<'b> {
    actor: u32,
    asked: AskedList<'b>,
    answered: usize,
}

impl<'b> Script<'b> {
    /// How much it asks in all.
    fn len(&self) -> usize {
        self.asked.as_slice().len()
    }

    /// What is next, if anything is left; it counts as answered from now on.
    fn take_next(&mut self) -> Option<Asked<'b>> {
        let next = *self.asked.as_slice().get(self.answered)?;
        self.answered = self.answered.saturating_add(1);
        Some(next)
    }
}

/// The scripts of a block.
#[derive(Drop)]
struct Scripts<'b> {
    scripts: Vec<Script<'b>>,
}

impl<'b> Scripts<'b> {
    /// No actors.
    fn none(alloc: Global) -> Scripts<'b> {
        Scripts {
            scripts: Vec::new(alloc),
        }
    }

    /// The script of an actor, by the volumes as they are.
    fn add(&mut self, walk: &mut Walk, actor: &'b ActorRead) -> Result<(), Halt> {
        let number = walk.number_of(&actor.name)?;
        let mut asked = AskedList::nothing(walk.alloc);
        asked.add_actor(&walk.made, actor)?;
        let script = Script {
            actor: number,
            asked,
            answered: 0,
        };
        match self.scripts.push(script) {
            Ok(()) => Ok(()),
            Err(_) => Err(Halt::NoMemory),
        }
    }

    /// How much all of them ask.
    fn len(&self) -> usize {
        let mut all = 0usize;
        for script in &self.scripts {
            all = all.saturating_add(script.len());
        }
        all
    }

    /// What the actor asks next, if it is one of the block and has something left.
    fn next_of(&mut self, actor: u32) -> Option<Asked<'b>> {
        for script in self.scripts.iter_mut() {
            if script.actor == actor {
                return script.take_next();
            }
        }
        None
    }
}

/// A block is answered: all that its scripts ask, each in its order.
pub(crate) fn walk_block(walk: &mut Walk, block: &BlockRead) -> Result<(), Halt> {
    for fault in block.faults.as_slice() {
        walk.answers(0, Asked::Unread(*fault))?;
    }
    let mut scripts = Scripts::none(walk.alloc);
    for actor in block.actors.as_slice() {
        scripts.add(walk, actor)?;
    }
    for _ in 0..scripts.len() {
        let actor = walk.entry()?.actor;
        match scripts.next_of(actor) {
            Some(asked) => walk.answers(actor, asked)?,
            None => return Err(Halt::Wrong(Why::Actor)),
        }
    }
    Ok(())
}
