//! The actors of a block: their names, and what each of them has still to ask.

ghost use Rattle.std.specs.Prelude.{◌≡◌, ◌↔◌, ◌++◌, ◌==◌, [], ◌∷◌, IsTrue, IfOk, OnOk, Some, position, flat_map};
ghost use Rattle.std.specs.List.{list_all};
ghost use Rattle.fc_entry.specs.HistoryState.{number_of_actor, place_of_name, with_actor};
ghost use Rattle.fc_legal.specs.Scripts.{Script as ScriptState, are_done, asked_as, asks_nothing, behind_next, line_asked, names_with, next_by, scripts_of, turns_asked};
ghost use Rattle.fc_legal.specs.Whole.{lanes};
ghost use Rattle.fc_check_requests.specs.Requests.{turn_in};

use crate::asking::push_line;
use crate::requests::Requests;
use crate::told::Told;
use crate::turns::Turns;
use fc_base::command::{Role, ScriptLine};
use fc_base::name::Name;
use fc_base::outcome::NoMemory;
use fc_base::request::Request;
use fc_blocks::block::ActorRead;
use fc_entry::history::place_of_name;
use std::alloc::Global;
use std::marker::Model;

/// What an actor has still to ask.
#[derive(Drop)]
pub struct Script {
    actor: usize,
    requests: Requests,
}

impl Model for Script {
    ghost use Rattle.fc_legal.specs.Scripts.{Script as ScriptState};

    ghost Value = { ScriptState };

    ghost view = { λ s. record { actor = s.actor; requests = s.requests } };
}

/// The number of the actor with this name: the one that it has, or the next.
pub fn number_of_actor(names: &[Name], name: &[u8]) -> usize
    ensures { result ≡ number_of_actor names.now name.now }
{
    place_of_name(names, name).unwrap_or(names.len())
}

/// Puts something behind others.
fn push<T: Drop>(items: &mut Vec<T>, item: T) -> Result<(), NoMemory>
    ensures { OnOk result (items.new.items ≡ items.old.items ++ item ∷ []) }
{
    match items.push(item) {
        Ok(()) => Ok(()),
        Err(_) => Err(NoMemory),
    }
}

/// Puts a name behind the others, unless it is among them.
fn add_name(alloc: Global, names: &mut Vec<Name>, name: &Name) -> Result<(), NoMemory>
    ensures { OnOk result (names.new.items ≡ with_actor names.old.items name.now) }
{
    match place_of_name(names.as_slice(), name.as_bytes()) {
        Some(_) => Ok(()),
        None => push(names, name.copy(alloc)?),
    }
}

/// The names of a block's actors come among the others.
pub fn add_names(alloc: Global, names: &mut Vec<Name>, actors: &[ActorRead]) -> Result<(), NoMemory>
    ensures { OnOk result (names.new.items ≡ names_with names.old.items actors.now) }
{
    for actor in actors {
        add_name(alloc, names, &actor.name)?;
    }
    Ok(())
}

/// What these lines ask.
fn lines_asked<T: Told>(alloc: Global, told: &T, lines: &[ScriptLine]) -> Result<Requests, NoMemory>
    ensures { IfOk result (λ requests. requests ≡ flat_map (line_asked (T.grain told.now) (T.whole told.now).books) lines.now) }
{
    let mut requests = Requests::new(alloc);
    for line in lines {
        push_line(alloc, told, line, &mut requests)?;
    }
    Ok(requests)
}

/// What a worker asks: so many turns, if any.
fn turns_asked<T: Told>(
    alloc: Global,
    told: &T,
    cleans: bool,
    turns: u32,
) -> Result<Requests, NoMemory>
    ensures { IfOk result (λ requests. requests ≡ turns_asked (turn_in cleans) (lanes (T.whole told.now)) turns) }
{
    let mut requests = Requests::new(alloc);
    if turns == 0 {
        return Ok(requests);
    }
    requests.push_turns(Turns {
        cleans,
        lanes: told.lanes(),
        next: 0,
        left: turns,
    })?;
    Ok(requests)
}

/// What an actor asks, by its role and its lines.
fn asked_of<T: Told>(alloc: Global, told: &T, actor: &ActorRead) -> Result<Requests, NoMemory>
    ensures { IfOk result (λ requests. requests ≡ asked_as actor.now.role (T.grain told.now) (lanes (T.whole told.now)) (T.whole told.now).books actor.now.lines) }
{
    match actor.role {
        Role::Host | Role::Admin => lines_asked(alloc, told, actor.lines.as_slice()),
        Role::Copier(turns) => turns_asked(alloc, told, false, turns),
        Role::Cleaner(turns) => turns_asked(alloc, told, true, turns),
    }
}

/// The scripts of these actors, in order, by the tables as they are told. Each actor has the number of its
/// name.
pub fn scripts_of<T: Told>(
    alloc: Global,
    told: &T,
    names: &[Name],
    actors: &[ActorRead],
) -> Result<Vec<Script>, NoMemory>
    ensures { IfOk result (λ scripts. scripts.items ≡ scripts_of (T.grain told.now) (lanes (T.whole told.now)) (T.whole told.now).books names.now actors.now) }
{
    let mut scripts = Vec::new(alloc);
    for actor in actors {
        let script = Script {
            actor: number_of_actor(names, actor.name.as_bytes()),
            requests: asked_of(alloc, told, actor)?,
        };
        push(&mut scripts, script)?;
    }
    Ok(scripts)
}

impl Script {
    /// Whether it is the script of the actor with this number.
    fn is_of(&self, actor: usize) -> bool
        ensures { result ≡ (self.now.actor == actor) }
    {
        self.actor == actor
    }

    /// Whether nothing is left of it.
    fn is_done(&self) -> bool
        ensures { result ≡ asks_nothing self.now.requests }
    {
        self.requests.is_empty()
    }

    /// The same again. Refused for want of memory alone.
    fn copy(&self, alloc: Global) -> Result<Script, NoMemory>
        ensures { IfOk result (λ copy. copy ≡ self.now) }
    {
        Ok(Script {
            actor: self.actor,
            requests: self.requests.copy(alloc)?,
        })
    }
}

/// The place of the script of the actor with this number, if it has one.
fn place_of(scripts: &[Script], actor: usize) -> Option<usize>
    ensures { result ≡ position (λ (s : ScriptState). s.actor == actor) scripts.now }
{
    scripts.iter().position(|script| script.is_of(actor))
}

/// Whether the actor with this number asks this next.
pub fn do_ask(scripts: &[Script], actor: usize, request: &Request) -> bool
    ensures { IsTrue result ↔ (next_by scripts.now actor ≡ Some request.now) }
{
    match place_of(scripts, actor) {
        Some(place) => {
            let script = &scripts[place];
            script.requests.asks(request)
        }
        None => false,
    }
}

/// The actor with this number was answered: the rest of its script is left.
pub fn take_next(scripts: &mut [Script], actor: usize)
    ensures { scripts.new ≡ behind_next scripts.old actor }
{
    match place_of(scripts, actor) {
        Some(place) => {
            let script = &mut scripts[place];
            script.requests.take_first();
        }
        None => {}
    }
}

/// Whether nothing is left of all scripts.
#[tactic(auto, using(crate::proofs::ScriptLemmas::all_done))]
pub fn are_done(scripts: &[Script]) -> bool
    ensures { result ≡ are_done scripts.now }
{
    is_each_done(scripts)
}

/// Whether nothing is left of each script.
fn is_each_done(scripts: &[Script]) -> bool
    ensures { result ≡ list_all (λ (s : ScriptState). asks_nothing s.requests) scripts.now }
{
    scripts.iter().all(|script| script.is_done())
}

/// The same scripts again. Refused for want of memory alone.
pub fn copy_scripts(alloc: Global, scripts: &[Script]) -> Result<Vec<Script>, NoMemory>
    ensures { IfOk result (λ copy. copy.items ≡ scripts.now) }
{
    let mut copy = Vec::new(alloc);
    for script in scripts {
        push(&mut copy, script.copy(alloc)?)?;
    }
    Ok(copy)
}
