//! A block that is open: whose each line is, until the block ends.

ghost use Rattle.std.specs.Prelude.{◌≡◌, length, nat_le, ◌∷◌, ◌++◌, ◌<◌, [], None, Some, OnOk, OnErr, IfOk, MatchOption, option_map, option_copied, option_to_list, vec_len, vec_capacity};
ghost use Rattle.std.specs.List.{list_any};
ghost use Rattle.std.specs.Str.{bytes_eq};
ghost use Rattle.fc_blocks.specs.ActorLines.{actor_words};
ghost use Rattle.fc_blocks.specs.Blocks.{all_actors, belongs, block_step, faulty_line, has_lines, name_is_used, just_opened, name_fault, next_actor, scope_in, scope_under, to_main, whole, with_next_actor, without_actor, Opened};
ghost use Rattle.fc_blocks.specs.Reading.{LeavesBlock};

use crate::actor_line::{actor_name, actor_part};
use crate::block::{ActorRead, BlockRead};
use fc_base::command::{Line, Role, Scope, ScriptLine};
use fc_base::fault::WordFault;
use fc_base::limits::MAX_ACTORS;
use fc_base::list::List;
use fc_base::name::Name;
use fc_base::outcome::NoMemory;
use fc_words::line::read_line;
use fc_words::refused::WordRefused;
use std::alloc::Global;
use std::marker::Model;
use std::mem;

/// A block that is open. Contracts see the faults that `main` is told of, the actors before the one at hand, and the actor
/// at hand.
#[derive(Drop)]
pub struct OpenBlock {
    faults: List<WordFault>,
    before: Vec<ActorRead>,
    actor: Option<ActorRead>,
}

impl Model for OpenBlock {
    ghost use Rattle.fc_blocks.specs.Blocks.{Opened};

    ghost Value = { Opened };

    ghost view = { λ b. record { faults = b.faults; before = b.before.items; actor = b.actor } };
}

/// Where the lines under an actor of this role stand.
fn scope_of(role: Role) -> Scope
    ensures { result ≡ scope_under role }
{
    match role {
        Role::Host => Scope::Host,
        Role::Admin => Scope::Admin,
        Role::Copier(_) | Role::Cleaner(_) => Scope::Worker,
    }
}

/// Whether actors of this role have lines.
fn takes_lines(role: Role) -> bool
    ensures { result ≡ has_lines role }
{
    match role {
        Role::Host | Role::Admin => true,
        Role::Copier(_) | Role::Cleaner(_) => false,
    }
}

/// Whether the actor has this name.
fn has_name(actor: &ActorRead, name: &[u8]) -> bool
    ensures { result ≡ bytes_eq name.now actor.now.name }
{
    name == actor.name.as_bytes()
}

/// Whether one of the actors has this name.
fn have_name(actors: &[ActorRead], name: &[u8]) -> bool
    ensures { result ≡ list_any (λ (actor : ActorRead). bytes_eq name.now actor.name) actors.now }
{
    actors.iter().any(|actor| has_name(actor, name))
}

/// The fault of a line, where it is faulty.
fn fault_in(line: &ScriptLine) -> Option<WordFault>
    ensures { MatchOption result ((b : Opened) → to_main b line.now ≡ b) (λ fault. line.now ≡ ScriptLine.Unread fault) }
{
    match line {
        ScriptLine::Unread(fault) => Some(*fault),
        ScriptLine::Read(_) => None,
    }
}

/// The actor that was at hand joins those before it. There is room for it.
fn put_aside(before: &mut Vec<ActorRead>, actor: Option<ActorRead>)
    requires { vec_len before.old < vec_capacity before.old }
    ensures { before.new.items ≡ before.old.items ++ option_to_list actor }
{
    if let Some(actor) = actor {
        before.push_reserved(actor);
    }
}

impl OpenBlock {
    /// A block that has just been opened. Takes no memory.
    pub fn new(alloc: Global) -> OpenBlock
        ensures { result ≡ just_opened }
    {
        OpenBlock {
            faults: List::new(alloc),
            before: Vec::new(alloc),
            actor: None,
        }
    }

    /// Where the next line stands.
    fn scope(&self) -> Scope
        ensures { result ≡ scope_in self.now.actor }
    {
        match &self.actor {
            Some(actor) => scope_of(actor.role),
            None => Scope::NoActor,
        }
    }

    /// Whether the name is `main`'s, or was used in the block.
    fn is_name_used(&self, name: &[u8]) -> bool
        ensures { result ≡ name_is_used self.now name.now }
    {
        let before = have_name(self.before.as_slice(), name);
        let at_hand = match &self.actor {
            Some(actor) => has_name(actor, name),
            None => false,
        };
        name == b"main".as_slice() || before || at_hand
    }

    /// Whether there are as many actors as a block may have.
    fn is_full(&self) -> bool
        ensures { result ≡ nat_le MAX_ACTORS (length (all_actors self.now)) }
    {
        let others = self.before.len();
        let all = if self.actor.is_some() {
            others + 1
        } else {
            others
        };
        all >= MAX_ACTORS as usize
    }

    /// The fault of an `actor` line with this name, before any other of it.
    fn fault_of_name(&self, name: &[u8]) -> Option<WordFault>
        ensures { result ≡ name_fault self.now (Some name.now) }
    {
        if self.is_name_used(name) {
            Some(WordFault::BadName(2))
        } else if self.is_full() {
            Some(WordFault::Limit(MAX_ACTORS))
        } else {
            None
        }
    }

    /// Tells `main` of the fault of a line. Refused, the block is as it was.
    fn tell_main(&mut self, line: ScriptLine) -> Result<(), NoMemory>
        ensures ok { OnOk result (self.new ≡ to_main self.old line) }
        ensures err { OnErr result (self.new ≡ self.old) }
    {
        let fault = fault_in(&line);
        drop(line);
        match fault {
            Some(fault) => self.faults.push(fault),
            None => Ok(()),
        }
    }

    /// Gives a line to whose it is: the host or administrator at hand, or `main`. Refused, the block is as it was.
    fn give(&mut self, line: ScriptLine) -> Result<(), NoMemory>
        ensures ok { OnOk result (self.new ≡ belongs self.old.actor self.old line) }
        ensures err { OnErr result (self.new ≡ self.old) }
    {
        match &mut self.actor {
            Some(actor) if takes_lines(actor.role) => actor.lines.push(line),
            _ => self.tell_main(line),
        }
    }

    /// Tells `main` of the fault of an `actor` line: no actor is at hand after it. Refused, the block is as it was.
    fn refuse_actor(&mut self, fault: WordFault) -> Result<(), NoMemory>
        ensures ok { OnOk result (self.new ≡ without_actor self.old fault) }
        ensures err { OnErr result (self.new ≡ self.old) }
    {
        if self.before.reserve(1).is_err() {
            return Err(NoMemory);
        }
        match self.faults.push(fault) {
            Ok(()) => {
                put_aside(&mut self.before, self.actor.take());
                Ok(())
            }
            Err(refused) => Err(refused),
        }
    }

    /// Begins an actor, which is at hand then. Refused, the block is as it was.
    fn begin_actor(&mut self, alloc: Global, name: Name, role: Role) -> Result<(), NoMemory>
        ensures ok { OnOk result (self.new ≡ with_next_actor self.old name role) }
        ensures err { OnErr result (self.new ≡ self.old) }
    {
        if self.before.reserve(1).is_err() {
            return Err(NoMemory);
        }
        let next = ActorRead {
            name,
            role,
            lines: List::new(alloc),
        };
        put_aside(&mut self.before, self.actor.replace(next));
        Ok(())
    }

    /// Takes a good `actor` line: the actor begins, unless its name is used or there are too many. Refused, the block is
    /// as it was.
    fn take_actor(&mut self, alloc: Global, name: Name, role: Role) -> Result<(), NoMemory>
        ensures ok { OnOk result (self.new ≡ next_actor (name_fault self.old (Some name)) self.old name role) }
        ensures err { OnErr result (self.new ≡ self.old) }
    {
        match self.fault_of_name(name.as_bytes()) {
            Some(fault) => self.refuse_actor(fault),
            None => self.begin_actor(alloc, name, role),
        }
    }

    /// Takes a faulty line: of an `actor` line the fault of its name comes first. Refused, the block is as it was.
    fn take_faulty(&mut self, line: &[u8], fault: WordFault) -> Result<(), NoMemory>
        ensures ok { OnOk result (self.new ≡ faulty_line (actor_words line.now) self.old fault) }
        ensures err { OnErr result (self.new ≡ self.old) }
    {
        let Some(behind) = actor_part(line) else {
            return self.give(ScriptLine::Unread(fault));
        };
        let first = match actor_name(behind) {
            Some(name) => self.fault_of_name(name),
            None => None,
        };
        self.refuse_actor(first.unwrap_or(fault))
    }

    /// Reads a line of the block, without its end. Answers whether it ends the block, which then is as it was. Refused, the
    /// block is as it was, too. (docs/RULES.md, "Together-blocks".)
    #[tactic(auto, unfolding(crate::specs::Blocks::block_step))]
    pub fn read(&mut self, alloc: Global, line: &[u8]) -> Result<bool, NoMemory>
        ensures ok { IfOk result (λ ended. LeavesBlock ended self.old self.new (block_step self.old line.now)) }
        ensures err { OnErr result (self.new ≡ self.old) }
    {
        let taken = match read_line(alloc, line, self.scope()) {
            Ok(Line::End) => return Ok(true),
            Ok(Line::Blank) => Ok(()),
            Ok(Line::Actor { name, role }) => self.take_actor(alloc, name, role),
            Ok(other) => self.give(ScriptLine::Read(other)),
            Err(WordRefused::Fault(fault)) => self.take_faulty(line, fault),
            Err(WordRefused::NoMemory) => Err(NoMemory),
        };
        match taken {
            Ok(()) => Ok(false),
            Err(refused) => Err(refused),
        }
    }

    /// The block, at its end. Refused, it is as it was.
    pub fn close(&mut self, alloc: Global) -> Result<BlockRead, NoMemory>
        ensures ok { IfOk result (λ block. block ≡ whole self.old) }
        ensures err { OnErr result (self.new ≡ self.old) }
    {
        if self.before.reserve(1).is_err() {
            return Err(NoMemory);
        }
        put_aside(&mut self.before, self.actor.take());
        let faults = mem::replace(&mut self.faults, List::new(alloc));
        let actors = mem::replace(&mut self.before, Vec::new(alloc));
        Ok(BlockRead {
            faults,
            actors: List::of(actors),
        })
    }
}
