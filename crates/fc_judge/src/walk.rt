//! The entries of a history, one after the other.

use crate::asked::{Asked, AskedList};
use crate::effects::effects_fit;
use crate::made::Made;
use crate::place::place_of;
use crate::preset::{LineText, PresetOf, line_on};
use crate::replies::reply_fits;
use crate::verdict::{Halt, Why};
use fc_base::command::{Command, Line, ScriptLine};
use fc_base::name::Name;
use fc_base::outcome::NoMemory;
use fc_base::request::{Effect, Reply, Request};
use fc_base::size::GrainSize;
use fc_entry::entry::Entry;
use fc_entry::history::History;
use fc_plain::Plain;
use std::alloc::Global;

/// A walk along a history.
#[derive(Drop)]
pub(crate) struct Walk<'a> {
    pub(crate) alloc: Global,
    history: &'a History,
    next: usize,
    plain: Plain,
    pub(crate) made: Made,
    names: Vec<Name>,
}

/// Whether an entry may change what volumes hold.
fn changes_volumes(entry: &Entry) -> bool {
    let is_write = match &entry.request {
        Request::Write(_) => true,
        _ => false,
    };
    is_write
        || entry.torn.is_some()
        || entry
            .effects
            .as_slice()
            .iter()
            .any(|effect| is_on_volumes(effect))
}

/// Whether an effect changes what volumes hold.
fn is_on_volumes(effect: &Effect) -> bool {
    match effect {
        Effect::Make { .. } | Effect::Remove { .. } | Effect::Trigger { .. } | Effect::Cut { .. } =>
            true,
        Effect::State { .. } | Effect::Gone { .. } => false,
    }
}

/// A grain is torn only where a disk failed.
fn torn_fits(entry: &Entry) -> Result<(), Halt> {
    match (&entry.torn, &entry.reply) {
        (None, _) | (Some(_), Reply::DiskFault) => Ok(()),
        (Some(_), _) => Err(Halt::Wrong(Why::Torn)),
    }
}

impl<'a> Walk<'a> {
    /// A walk before the first entry.
    pub(crate) fn new(
        alloc: Global,
        grain: GrainSize,
        history: &'a History,
    ) -> Result<Walk<'a>, NoMemory> {
        let mut names = Vec::new(alloc);
        if let Some(main) = Name::new(alloc, b"main")?
            && names.push(main).is_err()
        {
            return Err(NoMemory);
        }
        Ok(Walk {
            alloc,
            history,
            next: 0,
            plain: Plain::new(alloc, grain),
            made: Made::nothing(alloc, grain),
            names,
        })
    }

    /// The number of the entry at hand.
    pub(crate) fn place(&self) -> usize {
        self.next
    }

    /// How many entries there are from the one at hand on.
    pub(crate) fn left(&self) -> usize {
        self.history.len().saturating_sub(self.next)
    }

    /// The entry at hand.
    pub(crate) fn entry(&self) -> Result<&'a Entry, Halt> {
        if self.next < self.history.len() {
            Ok(self.history.entry(self.next))
        } else {
            Err(Halt::Short)
        }
    }

    /// The number of the actor with this name, among the names so far; it is one of them from now on.
    pub(crate) fn number_of(&mut self, name: &Name) -> Result<u32, Halt> {
        let known = self
            .names
            .iter()
            .position(|known| known.as_bytes() == name.as_bytes());
        let place = match known {
            Some(place) => place,
            None => {
                let copy = name.copy(self.alloc)?;
                if self.names.push(copy).is_err() {
                    return Err(Halt::NoMemory);
                }
                self.names.len().saturating_sub(1)
            }
        };
        Ok(u32::try_from(place).unwrap_or(u32::MAX))
    }

    /// Whether the history has an actor of this number, with the name that it should have.
    fn is_named(&self, actor: u32) -> bool {
        let place = actor as usize;
        place < self.history.actors()
            && place < self.names.len()
            && self.history.actor_name(actor).as_bytes() == self.names[place].as_bytes()
    }

    /// Whether the history's actors are those that were met, and no others.
    pub(crate) fn are_named(&self) -> bool {
        self.history.actors() == self.names.len()
            && (0..self.names.len()).all(|place| self.is_named(u32::try_from(place).unwrap_or(
                u32::MAX,
            )))
    }

    /// The entry at hand is right in itself: it has its number, a name, and what its request may be answered and may change. The next
    /// one is at hand then.
    fn pass(&mut self, entry: &Entry) -> Result<(), Halt> {
        if entry.number != self.next as u64 {
            return Err(Halt::Wrong(Why::Number));
        }
        if !self.is_named(entry.actor) {
            return Err(Halt::Wrong(Why::Names));
        }
        if entry.place != place_of(self.made.grain(), &entry.request) {
            return Err(Halt::Wrong(Why::Place));
        }
        reply_fits(&self.plain, &self.made, entry)?;
        torn_fits(entry)?;
        effects_fit(&mut self.made, entry)?;
        if let Request::Command(command) = &entry.request {
            self.made.answer(command, &entry.reply)?;
        }
        if changes_volumes(entry) {
            self.plain.apply(entry)?;
        }
        self.next = self.next.saturating_add(1);
        Ok(())
    }

    /// The entry at hand answers what this actor asks.
    pub(crate) fn answers(&mut self, actor: u32, asked: Asked) -> Result<(), Halt> {
        let entry = self.entry()?;
        if entry.actor != actor {
            return Err(Halt::Wrong(Why::Actor));
        }
        if !asked.is(self.alloc, &entry.request)? {
            return Err(Halt::Wrong(Why::Request));
        }
        self.pass(entry)
    }

    /// Whether the entry at hand is one of `main` that copies or cleans a grain as time passes.
    fn is_background(&self) -> bool {
        match self.entry() {
            Ok(entry) => match &entry.request {
                Request::Copy { .. } | Request::Clean { .. } => entry.actor == 0,
                _ => false,
            },
            Err(_) => false,
        }
    }

    /// The seconds of an `advance` pass: any number of copies and cleanings.
    fn seconds(&mut self) -> Result<(), Halt> {
        for _ in 0..self.left() {
            if !self.is_background() {
                break;
            }
            let entry = self.entry()?;
            self.pass(entry)?;
        }
        Ok(())
    }

    /// Whether the entry before the one at hand was done, or made something.
    fn was_done(&self) -> bool {
        let last = self.next.saturating_sub(1);
        if last >= self.history.len() {
            return false;
        }
        match &self.history.entry(last).reply {
            Reply::Done | Reply::Made { .. } => true,
            _ => false,
        }
    }

    /// The entry at hand answers a line of `main`: whether it was done, or made something.
    fn does(&mut self, line: &LineText) -> Result<bool, Halt> {
        self.answers(0, Asked::Line(line.as_bytes()))?;
        Ok(self.was_done())
    }

    /// A preset is answered: a new volume, a mapping to it and its start, each asked once the one before it was made. Where one wasn't,
    /// what was made goes, the last of it first.
    fn preset(&mut self, preset: PresetOf) -> Result<(), Halt> {
        let alloc = self.alloc;
        let volume = self.made.volumes.next();
        if !self.does(&preset.volume_line(alloc)?)? {
            return Ok(());
        }
        let mapping = self.made.mappings.next();
        if self.does(&preset.mapping_line(alloc, volume)?)? {
            if self.does(&line_on(alloc, "startfcmap -prep", mapping)?)? {
                return Ok(());
            }
            self.does(&line_on(alloc, "rmfcmap", mapping)?)?;
        }
        self.does(&line_on(alloc, "rmvdisk", volume)?)?;
        Ok(())
    }

    /// A line outside of blocks is answered.
    pub(crate) fn line(&mut self, line: &ScriptLine) -> Result<(), Halt> {
        if let ScriptLine::Read(Line::Command(command)) = line
            && let Some(preset) = PresetOf::by(&self.made, command)
        {
            return self.preset(preset);
        }
        let mut asked = AskedList::nothing(self.alloc);
        asked.add_line(&self.made, line)?;
        for next in asked.as_slice() {
            self.answers(0, *next)?;
        }
        match line {
            ScriptLine::Read(Line::Command(Command::Advance { .. })) if self.was_done() => {
                self.seconds()
            }
            _ => Ok(()),
        }
    }
}
