//! What a session may still bring.

ghost use Rattle.std.specs.Prelude.{◌≡◌, ◌↔◌, [], ◌∷◌, ℕ, List, None, Some, cond, codes, map, IsTrue, IfOk, OnOk};
ghost use Rattle.fc_base.specs.declared.command.Command.{Command};
ghost use Rattle.fc_base.specs.declared.request.Request.TheVariants.{Command as CommandAsked};
ghost use Rattle.fc_blocks.specs.Segments.{Segment};
ghost use Rattle.fc_check_lines.specs.Asked.{IsAskedBy, entry_by};
ghost use Rattle.fc_check_lines.specs.Bytes.{by_grammar, segments_in};
ghost use Rattle.fc_check_lines.specs.Leading.{LeadTo};
ghost use Rattle.law_stands.specs.Names.{named};
ghost use Rattle.fc_check_lines.specs.Standing.{BeginsAs, GoesOnTo, IsLeftBehind, IsLeftOfLine, IsOverWith, MainAsks, TellsNext, agenda_of};
ghost use Rattle.fc_check_requests.specs.Lines.{script_behind};
ghost use Rattle.fc_legal.specs.Agenda.{Session, behind_entry, is_done};
ghost use Rattle.fc_legal.specs.Presets.{asked_behind};
ghost use Rattle.fc_legal.specs.Scripts.{are_done, faults_asked, line_asked, names_with, next_request, scripts_of};
ghost use Rattle.fc_legal.specs.Whole.{lanes};
ghost use Rattle.fc_check_lines.specs.declared.lines.Asking.{Asking};

use crate::passing::Passing;
use crate::segment::{SegmentRead, next_segment};
use fc_base::behind::Behind;
use fc_base::command::{Command, ScriptLine};
use fc_base::fault::WordFault;
use fc_base::list::List;
use fc_base::name::Name;
use fc_base::outcome::NoMemory;
use fc_base::request::{Reply, Request};
use fc_blocks::block::ActorRead;
use fc_check_requests::asking::{behind_line, push_line};
use fc_check_requests::copies::{copy_actors, copy_behind, copy_names};
use fc_check_requests::requests::Requests;
use fc_check_requests::scripts::{
    Script, add_names, are_done, copy_scripts, do_ask, number_of_actor, scripts_of, take_next,
};
use fc_check_requests::told::Told;
use fc_entry::entry::Entry;
use fc_entry::history::place_of_name;
use fc_preset_lines::asked_behind;
use std::alloc::Global;
use std::marker::Model;

/// What was begun of a session.
#[derive(Drop)]
pub enum Asking {
    /// Nothing: the next line or block comes.
    Nothing,
    /// These requests of a line, and what it asks behind the last of them.
    Own {
        requests: Requests,
        behind: Behind,
    },
    /// Seconds that pass.
    Seconds(Passing),
    /// The faults of a block that `main` is still told of, and then its actors.
    Faults {
        requests: Requests,
        actors: List<ActorRead>,
    },
    /// What the actors of a block have still to ask.
    Actors(Vec<Script>),
}

/// What a session may still bring behind the entries so far. It waits for an entry, or is over.
#[derive(Drop)]
pub struct Lines<'a> {
    /// The bytes that are still unread.
    rest: &'a [u8],
    /// The names of the session's actors so far, by number.
    names: Vec<Name>,
    /// What was begun.
    asking: Asking,
}

impl<'a> Model for Lines<'a> {
    ghost use Rattle.fc_check_lines.specs.Bytes.{segments_in};
    ghost use Rattle.fc_check_lines.specs.Standing.{IsOverWith, Standing, agenda_of};

    ghost Value = { Standing };

    ghost view = { λ l. record { names = l.names.items; agenda = agenda_of l.asking (segments_in l.rest.now) } };

    ghost invariant = { λ l. IsOverWith l.asking (segments_in l.rest.now) };
}

/// What a line outside of blocks asks.
fn begin_line<T: Told>(alloc: Global, told: &T, line: &ScriptLine) -> Result<Asking, NoMemory>
    ensures { IfOk result (λ asking. asking ≡ Asking.Own
        (line_asked (T.grain told.now) (T.whole told.now).books line.now)
        (script_behind (T.whole told.now).books line.now)) }
{
    let mut requests = Requests::new(alloc);
    push_line(alloc, told, line, &mut requests)?;
    let behind = behind_line(alloc, told, line)?;
    Ok(Asking::Own { requests, behind })
}

/// What `main` is told of a block.
fn tell_faults(alloc: Global, faults: &[WordFault]) -> Result<Requests, NoMemory>
    ensures { IfOk result (λ requests. requests ≡ faults_asked faults.now) }
{
    let mut requests = Requests::new(alloc);
    for fault in faults {
        requests.push_unread(*fault)?;
    }
    Ok(requests)
}

/// What a line or a block begins with.
fn begin<T: Told>(alloc: Global, told: &T, segment: SegmentRead) -> Result<Asking, NoMemory>
    ensures { IfOk result (λ asking. BeginsAs (T.grain told.now) (T.whole told.now) segment asking) }
{
    match segment {
        SegmentRead::Single(line) => begin_line(alloc, told, &line),
        SegmentRead::Block(block) => {
            let requests = tell_faults(alloc, block.faults.as_slice())?;
            let actors = block.actors;
            Ok(Asking::Faults { requests, actors })
        }
    }
}

/// The actors of a block begin: their names come, and they have their scripts.
fn begin_actors<T: Told>(
    alloc: Global,
    told: &T,
    names: &mut Vec<Name>,
    actors: &[ActorRead],
) -> Result<Vec<Script>, NoMemory>
    ensures names { OnOk result (names.new.items ≡ names_with names.old.items actors.now) }
    ensures scripts { IfOk result (λ scripts. scripts.items ≡ scripts_of (T.grain told.now) (lanes (T.whole told.now)) (T.whole told.now).books names.new.items actors.now) }
{
    add_names(alloc, names, actors)?;
    scripts_of(alloc, told, names.as_slice(), actors)
}

/// The actors of a block, if they have anything to ask.
fn if_asking(scripts: Vec<Script>) -> Option<Asking>
    ensures { result ≡ cond (are_done scripts.items) None (Some (Asking.Actors scripts)) }
{
    if are_done(scripts.as_slice()) {
        None
    } else {
        Some(Asking::Actors(scripts))
    }
}

/// Goes on without an entry, as far as it goes with what was begun: what is left of it and waits, or nothing.
fn go_on<T: Told>(
    alloc: Global,
    told: &T,
    asking: Asking,
    names: &mut Vec<Name>,
) -> Result<Option<Asking>, NoMemory>
    ensures { IfOk result (λ left. GoesOnTo (T.grain told.now) by_grammar asking (named names.old.items (T.whole told.now)) left (named names.new.items (T.whole told.now))) }
{
    match asking {
        Asking::Nothing => Ok(None),
        Asking::Own { requests, behind } => {
            if requests.is_empty() {
                return Ok(None);
            }
            Ok(Some(Asking::Own { requests, behind }))
        }
        Asking::Seconds(mut passing) => {
            let fills = passing.pass(told)?;
            if fills {
                return Ok(Some(Asking::Seconds(passing)));
            }
            Ok(None)
        }
        Asking::Faults { requests, actors } => {
            if !requests.is_empty() {
                return Ok(Some(Asking::Faults { requests, actors }));
            }
            let scripts = begin_actors(alloc, told, names, actors.as_slice())?;
            Ok(if_asking(scripts))
        }
        Asking::Actors(scripts) => Ok(if_asking(scripts)),
    }
}

/// Goes on without an entry, as far as it goes.
fn wait<'a, T: Told>(
    alloc: Global,
    told: &T,
    mut asking: Asking,
    mut names: Vec<Name>,
    mut rest: &'a [u8],
) -> Result<Lines<'a>, NoMemory>
    ensures { IfOk result (λ lines. LeadTo (T.grain told.now) by_grammar (agenda_of asking (segments_in rest.now)) (named names.items (T.whole told.now)) []
        lines.agenda (named lines.names (T.whole told.now))) }
{
    'segments: loop {
        let left = go_on(alloc, told, asking, &mut names)?;
        if let Some(asking) = left {
            return Ok(Lines {
                rest,
                names,
                asking,
            });
        }
        let found = next_segment(alloc, rest)?;
        match found {
            Some((segment, behind)) => {
                asking = begin(alloc, told, segment)?;
                rest = behind;
            }
            None => {
                return Ok(Lines {
                    rest,
                    names,
                    asking: Asking::Nothing,
                });
            }
        }
    }
}

/// Whether a reply says that it was done.
fn is_done(reply: &Reply) -> bool
    ensures { result ≡ is_done reply.now }
{
    match reply {
        Reply::Done => true,
        _ => false,
    }
}

/// The seconds of a line begin behind its last request, if that is done.
fn begin_seconds<T: Told>(
    alloc: Global,
    told: &T,
    seconds: u32,
    reply: &Reply,
) -> Result<Asking, NoMemory>
    ensures { IfOk result (λ left.
        IsLeftOfLine (T.whole told.now) reply.now (Behind.Passing seconds) left) }
{
    if !is_done(reply) {
        return Ok(Asking::Nothing);
    }
    let passing = Passing::begin(alloc, told, seconds)?;
    Ok(Asking::Seconds(passing))
}

/// These commands as requests.
fn requests_of(alloc: Global, commands: Vec<Command>) -> Result<Requests, NoMemory>
    ensures { IfOk result (λ requests.
        requests ≡ map (λ (command : Command). CommandAsked command) commands.items) }
{
    let mut requests = Requests::new(alloc);
    for command in commands {
        requests.push_command(command)?;
    }
    Ok(requests)
}

/// A line asks more behind its last request, by what that was answered.
fn ask_more(alloc: Global, behind: Behind, reply: &Reply) -> Result<Asking, NoMemory>
    ensures { IfOk result (λ left. left
        ≡ Asking.Own (asked_behind behind reply.now).0 (asked_behind behind reply.now).1) }
{
    let coming = asked_behind(alloc, behind, reply)?;
    let requests = requests_of(alloc, coming.commands)?;
    Ok(Asking::Own {
        requests,
        behind: coming.behind,
    })
}

/// What is left of a line behind its last request, which was answered so.
fn behind_last<T: Told>(
    alloc: Global,
    told: &T,
    behind: Behind,
    reply: &Reply,
) -> Result<Asking, NoMemory>
    ensures { IfOk result (λ left. IsLeftOfLine (T.whole told.now) reply.now behind left) }
{
    match behind {
        Behind::Passing(seconds) => begin_seconds(alloc, told, seconds, reply),
        _ => ask_more(alloc, behind, reply),
    }
}

/// The name of `main`, alone.
fn main_alone(alloc: Global) -> Result<Vec<Name>, NoMemory>
    ensures { IfOk result (λ names. names.items ≡ codes "main" ∷ []) }
{
    let mut names = Vec::new(alloc);
    if let Some(name) = Name::new(alloc, b"main".as_slice())? {
        match names.push(name) {
            Ok(()) => {}
            Err(_) => return Err(NoMemory),
        }
    }
    Ok(names)
}

/// Whether the actor with this number is `main`, and this the next of these requests.
fn main_asks(requests: &Requests, actor: usize, request: &Request) -> bool
    ensures { IsTrue result ↔ MainAsks actor request.now (next_request requests.now) }
{
    if actor != 0 {
        return false;
    }
    requests.asks(request)
}

impl Asking {
    /// Whether the actor with this number asks this next.
    fn asks<T: Told>(&self, told: &T, actor: usize, request: &Request) -> Result<bool, NoMemory>
        ensures { IfOk result (λ yes. TellsNext yes (T.grain told.now) (T.whole told.now) self.now actor request.now) }
    {
        match self {
            Asking::Nothing => Ok(false),
            Asking::Own { requests, .. } => Ok(main_asks(requests, actor, request)),
            Asking::Seconds(passing) => {
                if actor != 0 {
                    return Ok(false);
                }
                passing.asks(told, request)
            }
            Asking::Faults { requests, .. } => Ok(main_asks(requests, actor, request)),
            Asking::Actors(scripts) => Ok(do_ask(scripts.as_slice(), actor, request)),
        }
    }

    /// The requests of a line, without the first, which was answered so; or what is left behind the last.
    fn behind_own<T: Told>(
        alloc: Global,
        told: &T,
        mut requests: Requests,
        behind: Behind,
        reply: &Reply,
    ) -> Result<Asking, NoMemory>
        ensures { IfOk result (λ left. (actor : ℕ) → IsLeftBehind (T.grain told.now) (T.whole told.now) (Asking.Own requests behind) actor reply.now left) }
    {
        if requests.is_empty() {
            return Ok(Asking::Nothing);
        }
        requests.take_first();
        if !requests.is_empty() {
            return Ok(Asking::Own { requests, behind });
        }
        behind_last(alloc, told, behind, reply)
    }

    /// What is left behind an entry of the actor with this number that answered the next request so.
    fn behind<T: Told>(
        self,
        alloc: Global,
        told: &T,
        actor: usize,
        reply: &Reply,
    ) -> Result<Asking, NoMemory>
        ensures { IfOk result (λ left. IsLeftBehind (T.grain told.now) (T.whole told.now) self actor reply.now left) }
    {
        match self {
            Asking::Nothing => Ok(Asking::Nothing),
            Asking::Own { requests, behind } => {
                Asking::behind_own(alloc, told, requests, behind, reply)
            }
            Asking::Seconds(mut passing) => {
                passing.follow(told, reply)?;
                Ok(Asking::Seconds(passing))
            }
            Asking::Faults {
                mut requests,
                actors,
            } => {
                requests.take_first();
                Ok(Asking::Faults { requests, actors })
            }
            Asking::Actors(mut scripts) => {
                take_next(scripts.as_mut_slice(), actor);
                Ok(Asking::Actors(scripts))
            }
        }
    }

    /// The same again.
    fn copy(&self, alloc: Global) -> Result<Asking, NoMemory>
        ensures agenda { IfOk result (λ copy. (segs : List Segment) → agenda_of copy segs ≡ agenda_of self.now segs) }
        ensures over { IfOk result (λ copy. (segs : List Segment) → IsOverWith self.now segs → IsOverWith copy segs) }
    {
        match self {
            Asking::Nothing => Ok(Asking::Nothing),
            Asking::Own { requests, behind } => Ok(Asking::Own {
                requests: requests.copy(alloc)?,
                behind: copy_behind(alloc, behind)?,
            }),
            Asking::Seconds(passing) => Ok(Asking::Seconds(passing.copy(alloc)?)),
            Asking::Faults { requests, actors } => Ok(Asking::Faults {
                requests: requests.copy(alloc)?,
                actors: copy_actors(alloc, actors.as_slice())?,
            }),
            Asking::Actors(scripts) => {
                Ok(Asking::Actors(copy_scripts(alloc, scripts.as_slice())?))
            }
        }
    }
}

impl<'a> Lines<'a> {
    /// What the bytes of a session may bring before the first entry, by what is told then. Refused for want of
    /// memory alone, or where background work meets a grain with a number of 2^32 or more.
    pub fn open<T: Told>(alloc: Global, session: &'a [u8], told: &T) -> Result<Lines<'a>, NoMemory>
        ensures { IfOk result (λ lines. LeadTo (T.grain told.now) by_grammar (Session (segments_in session.now)) (named (codes "main" ∷ []) (T.whole told.now)) []
            lines.agenda (named lines.names (T.whole told.now))) }
    {
        let names = main_alone(alloc)?;
        wait(alloc, told, Asking::Nothing, names, session)
    }

    /// Whether the actor with this name may ask this next, by what is told. Refused as `open` is.
    pub fn asks<T: Told>(&self, told: &T, name: &[u8], request: &Request) -> Result<bool, NoMemory>
        ensures { IfOk result (λ yes. IsTrue yes ↔ IsAskedBy (T.grain told.now) self.now.agenda (named self.now.names (T.whole told.now)) name.now request.now) }
    {
        match place_of_name(self.names.as_slice(), name) {
            Some(actor) => self.asking.asks(told, actor, request),
            None => Ok(false),
        }
    }

    /// What a session may bring behind an entry of the actor with this name, by what is told after it. Refused
    /// as `open` is.
    pub fn follow<T: Told>(
        self,
        alloc: Global,
        told: &T,
        name: &[u8],
        entry: &Entry,
    ) -> Result<Lines<'a>, NoMemory>
        ensures { IfOk result (λ lines. LeadTo (T.grain told.now) by_grammar
            (behind_entry (T.grain told.now) self.entry.agenda (named self.entry.names (T.whole told.now)) (entry_by self.entry.names name.now entry.now))
            (named self.entry.names (T.whole told.now)) [] lines.agenda (named lines.names (T.whole told.now))) }
    {
        let Lines {
            rest,
            names,
            asking,
        } = self;
        let actor = number_of_actor(names.as_slice(), name);
        let left = asking.behind(alloc, told, actor, &entry.reply)?;
        wait(alloc, told, left, names, rest)
    }

    /// Whether nothing is left to be asked.
    pub fn is_over(&self) -> bool
        ensures { IsTrue result ↔ (self.now.agenda ≡ Session []) }
    {
        match &self.asking {
            Asking::Nothing => true,
            _ => false,
        }
    }

    /// The same again. Refused for want of memory alone.
    pub fn copy(&self, alloc: Global) -> Result<Lines<'a>, NoMemory>
        ensures { IfOk result (λ copy. copy ≡ self.now) }
    {
        let names = copy_names(alloc, self.names.as_slice())?;
        let asking = self.asking.copy(alloc)?;
        Ok(Lines {
            rest: self.rest,
            names,
            asking,
        })
    }
}
