//! Histories told step by step.

ghost use Rattle.std.specs.Prelude.{◌≡◌, IfOk};

use fc_base::command::{Command, Line, Scope};
use fc_base::fault::{Kind, Refusal, WordFault};
use fc_base::ids::{GrainNo, MapId, VolId};
use fc_base::list::List;
use fc_base::name::Name;
use fc_base::outcome::NoMemory;
use fc_base::request::{Effect, Pair, Place, ReadPart, Reply, Request, Side, Torn, WritePart};
use fc_base::runs::Runs;
use fc_entry::entry::Entry;
use fc_entry::history::History;
use fc_words::line::read_line;
use std::alloc::Global;

/// What a line of `main` was answered, beside objects that go by their ids.
#[derive(Clone, Copy)]
pub enum Answer {
    /// A volume of two grains is made.
    Volume(u32),
    /// A mapping is made.
    Mapping(u32),
    /// The mapping from A to the target is started.
    Starts {
        map: u32,
        target: u32,
        incremental: bool,
    },
    /// The volume is removed.
    VolumeGone(u32),
    /// The mapping is removed.
    MappingGone(u32),
    /// It is refused: a pool has no disk.
    NoDisk,
    /// It is refused: no volume is meant.
    NoVolume,
    /// There is no memory for it.
    NoMemory,
}

/// A step of a history. Actors and volumes go by their numbers; each access is of the first block.
#[derive(Clone, Copy)]
pub enum Step {
    /// A volume of two grains is made: A or B.
    Make {
        volume: u32,
    },
    /// The mapping from A to B is made.
    Map,
    /// A group is made.
    Group,
    /// A mapping between A and B is made in the group, from this volume to the other; the next mapping.
    InGroup {
        source: u32,
    },
    /// `main` is told of a line that nobody knows.
    Fault,
    /// A write of A is done.
    Write {
        actor: u32,
        byte: u8,
    },
    /// A write of A meets a disk fault, which tears what A holds.
    Tear {
        actor: u32,
        byte: u8,
    },
    /// A read of a volume gives this byte.
    Read {
        actor: u32,
        volume: u32,
        byte: u8,
    },
    /// A read of a volume answers a medium error.
    MediumError {
        actor: u32,
        volume: u32,
    },
    /// A read of A is refused, which isn't there.
    Refused {
        actor: u32,
    },
    /// Mapping 0 is started, and so often a trigger of this pair is told.
    Start {
        actor: u32,
        source: u32,
        target: u32,
        times: u32,
    },
    /// The administrator starts the group, and a trigger of its first so many mappings is told.
    StartGroup {
        pairs: u32,
    },
    /// `main` asks a line, which is answered so.
    Line {
        line: &'static str,
        answer: Answer,
    },
    /// A second passes.
    Advance,
    /// A grain of mapping 0 is copied as time passes.
    Copy {
        grain: u32,
    },
    /// The copier has its turn in a lane, and moves the grain there.
    Turn {
        lane: u8,
    },
}

/// A pair of a trigger.
fn pair(map: u32, source: u32, target: u32) -> Pair {
    Pair {
        map: MapId(map),
        source: VolId(source),
        target: VolId(target),
        incremental: false,
    }
}

/// The line of a step that is a command's; another step has none.
fn line_of(step: Step) -> Option<&'static str> {
    Some(match step {
        Step::Make { volume: 0 } => "mkvdisk -name A -size 128 -unit kb",
        Step::Make { .. } => "mkvdisk -name B -size 128 -unit kb",
        Step::Map => "mkfcmap -source A -target B",
        Step::Group => "mkfcconsistgrp",
        Step::InGroup { source: 0 } => "mkfcmap -source A -target B -consistgrp 1",
        Step::InGroup { .. } => "mkfcmap -source B -target A -consistgrp 1",
        Step::Refused { .. } => "read A 0 1",
        Step::Start { .. } => "startfcmap -prep 0",
        Step::StartGroup { .. } => "startfcconsistgrp 1",
        Step::Line { line, .. } => line,
        Step::Advance => "advance -seconds 1",
        _ => return None,
    })
}

/// Who does a step.
fn actor_of(step: Step) -> u32 {
    match step {
        Step::Write { actor, .. }
        | Step::Tear { actor, .. }
        | Step::Read { actor, .. }
        | Step::MediumError { actor, .. }
        | Step::Refused { actor }
        | Step::Start { actor, .. } => actor,
        Step::StartGroup { .. } => 1,
        Step::Turn { .. } => 3,
        _ => 0,
    }
}

/// The first block of a volume is read.
fn read_part(volume: u32) -> Request {
    Request::Read(ReadPart {
        volume: VolId(volume),
        block: 0,
        count: 1,
    })
}

/// The first block of A is written.
fn write_part(byte: u8) -> Request {
    Request::Write(WritePart {
        volume: VolId(0),
        block: 0,
        count: 1,
        byte,
    })
}

/// A command, by its line.
fn command(alloc: Global, line: &[u8]) -> Result<Request, NoMemory> {
    match read_line(alloc, line, Scope::Free) {
        Ok(Line::Command(command)) => Ok(Request::Command(command)),
        _ => Err(NoMemory),
    }
}

/// What a step asks.
fn request_of(alloc: Global, step: Step) -> Result<Request, NoMemory> {
    if let Some(line) = line_of(step) {
        return command(alloc, line.as_bytes());
    }
    Ok(match step {
        Step::Write { byte, .. } | Step::Tear { byte, .. } => write_part(byte),
        Step::Read { volume, .. } | Step::MediumError { volume, .. } => read_part(volume),
        Step::Copy { grain } => Request::Copy {
            map: MapId(0),
            grain: GrainNo(grain),
        },
        Step::Turn { lane } => Request::CopyTurn { lane },
        _ => Request::Unread(WordFault::UnknownCommand),
    })
}

/// An object is made.
fn made(kind: Kind, id: u32) -> Reply {
    Reply::Made { kind, id }
}

/// A grain of mapping 0 is copied.
fn copied(grain: u32) -> Reply {
    Reply::Moved {
        map: MapId(0),
        grain: GrainNo(grain),
    }
}

/// The bytes of a block of one byte.
fn block_of(alloc: Global, byte: u8) -> Result<Reply, NoMemory> {
    let bytes = [byte; 512];
    let runs = Runs::of(alloc, &bytes)?;
    Ok(Reply::Bytes(runs))
}

/// How a line of `main` is answered.
fn answer_of(answer: Answer) -> Reply {
    match answer {
        Answer::Volume(volume) => made(Kind::Vdisk, volume),
        Answer::Mapping(map) => made(Kind::Fcmap, map),
        Answer::Starts { .. } | Answer::VolumeGone(_) | Answer::MappingGone(_) => Reply::Done,
        Answer::NoDisk => Reply::Refused(Refusal::NoDisk),
        Answer::NoVolume => Reply::Refused(Refusal::NoSuch(Kind::Vdisk)),
        Answer::NoMemory => Reply::NoMemory,
    }
}

/// How a step is answered that reads nothing, where so many mappings were made before it.
fn plain_reply(step: Step, mappings: u32) -> Reply {
    match step {
        Step::Make { volume } => made(Kind::Vdisk, volume),
        Step::Map | Step::InGroup { .. } => made(Kind::Fcmap, mappings),
        Step::Group => made(Kind::Group, 1),
        Step::Tear { .. } => Reply::DiskFault,
        Step::MediumError { .. } => Reply::MediumError,
        Step::Refused { .. } => Reply::Refused(Refusal::NoSuch(Kind::Vdisk)),
        Step::Line { answer, .. } => answer_of(answer),
        Step::Copy { grain } => copied(grain),
        Step::Turn { lane } => copied(u32::from(lane)),
        Step::Fault => Reply::Refused(Refusal::Words(WordFault::UnknownCommand)),
        _ => Reply::Done,
    }
}

/// How a step is answered, where so many mappings were made before it.
fn reply_of(alloc: Global, step: Step, mappings: u32) -> Result<Reply, NoMemory> {
    match step {
        Step::Read { byte, .. } => block_of(alloc, byte),
        _ => Ok(plain_reply(step, mappings)),
    }
}

/// One effect.
fn one(alloc: Global, effect: Effect) -> Result<List<Effect>, NoMemory> {
    let mut effects = List::new(alloc);
    effects.push(effect)?;
    Ok(effects)
}

/// A volume of two grains came.
fn came(alloc: Global, volume: u32) -> Result<List<Effect>, NoMemory> {
    let volume = VolId(volume);
    one(alloc, Effect::Make { volume, grains: 2 })
}

/// A trigger of a pair.
fn trigger(alloc: Global, pair: Pair) -> Result<Effect, NoMemory> {
    let mut pairs = List::new(alloc);
    pairs.push(pair)?;
    Ok(Effect::Trigger { pairs })
}

/// So many triggers of a pair.
fn triggers(alloc: Global, pair: Pair, times: u32) -> Result<List<Effect>, NoMemory> {
    let mut effects = List::new(alloc);
    for _ in 0..times {
        effects.push(trigger(alloc, pair)?)?;
    }
    Ok(effects)
}

/// A trigger of the first so many mappings of the group.
fn group_trigger(alloc: Global, count: u32) -> Result<Effect, NoMemory> {
    let mut pairs = List::new(alloc);
    for map in 0..count {
        let source = map % 2;
        pairs.push(pair(map, source, 1 - source))?;
    }
    Ok(Effect::Trigger { pairs })
}

/// What a line of `main` changes.
fn changed_by(alloc: Global, answer: Answer) -> Result<List<Effect>, NoMemory> {
    match answer {
        Answer::Volume(volume) => came(alloc, volume),
        Answer::Starts {
            map,
            target,
            incremental,
        } => {
            let pair = Pair {
                incremental,
                ..pair(map, 0, target)
            };
            triggers(alloc, pair, 1)
        }
        Answer::VolumeGone(volume) => {
            let volume = VolId(volume);
            one(alloc, Effect::Remove { volume })
        }
        Answer::MappingGone(map) => {
            let map = MapId(map);
            one(alloc, Effect::Gone { map })
        }
        _ => Ok(List::new(alloc)),
    }
}

/// What a step changes.
fn effects_of(alloc: Global, step: Step) -> Result<List<Effect>, NoMemory> {
    match step {
        Step::Make { volume } => came(alloc, volume),
        Step::Start {
            source,
            target,
            times,
            ..
        } => triggers(alloc, pair(0, source, target), times),
        Step::StartGroup { pairs } => one(alloc, group_trigger(alloc, pairs)?),
        Step::Line { answer, .. } => changed_by(alloc, answer),
        _ => Ok(List::new(alloc)),
    }
}

/// What a step tears: a torn write the first grain of A.
fn torn_by(step: Step) -> Option<Torn> {
    match step {
        Step::Tear { .. } => Some(Torn {
            volume: VolId(0),
            grain: GrainNo(0),
            side: Side::Now,
        }),
        _ => None,
    }
}

/// Under whose turns a step is told.
fn place_of(request: &Request) -> Place {
    match request {
        Request::Command(Command::Read { .. } | Command::Mkpreset { .. }) | Request::Unread(_) => {
            Place::Control
        }
        Request::Command(_) => Place::Every,
        Request::CopyTurn { lane } => Place::Lane(*lane),
        Request::Copy { grain, .. } if grain.0 == 1 => Place::Lane(1),
        _ => Place::Lane(0),
    }
}

/// The entry of a step with this number, where so many mappings were made before it.
fn entry_of(alloc: Global, step: Step, number: u64, mappings: u32) -> Result<Entry, NoMemory>
    ensures { IfOk result (λ entry. entry.number ≡ number) }
{
    let effects = effects_of(alloc, step)?;
    let reply = reply_of(alloc, step, mappings)?;
    let request = request_of(alloc, step)?;
    Ok(Entry {
        number,
        actor: actor_of(step),
        place: place_of(&request),
        request,
        reply,
        moves: List::new(alloc),
        effects,
        torn: torn_by(step),
        faults_before: 0,
        faults_after: 0,
        calls: 0,
    })
}

/// Adds the actors of these names.
fn add_names(alloc: Global, history: &mut History, names: &[&str]) -> Result<(), NoMemory> {
    for name in names {
        if let Some(name) = Name::new(alloc, name.as_bytes())?
            && history.actors() < 16
        {
            history.actor(alloc, &name)?;
        }
    }
    Ok(())
}

/// Adds the entry of a step, where so many mappings were made before it.
fn add_step(
    alloc: Global,
    history: &mut History,
    step: Step,
    mappings: u32,
) -> Result<(), NoMemory> {
    let entry = entry_of(alloc, step, history.len() as u64, mappings)?;
    match history.push(entry) {
        Ok(()) => Ok(()),
        Err(_) => Err(NoMemory),
    }
}

/// Adds an entry for each of these steps.
fn add_steps(alloc: Global, history: &mut History, steps: &[Step]) -> Result<(), NoMemory> {
    let mut mappings = 0u32;
    for step in steps {
        add_step(alloc, history, *step, mappings)?;
        if let Step::Map | Step::InGroup { .. } = step {
            mappings = mappings.saturating_add(1);
        }
    }
    Ok(())
}

/// The history of these steps, with actors of these names.
pub fn tell(alloc: Global, steps: &[Step], names: &[&str]) -> Result<History, NoMemory> {
    let mut history = History::new(alloc);
    add_names(alloc, &mut history, names)?;
    add_steps(alloc, &mut history, steps)?;
    Ok(history)
}
