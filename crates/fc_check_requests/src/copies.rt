//! Copies of the actors of a block, as they were read, and of what a line asks behind its last request.

ghost use Rattle.std.specs.Prelude.{◌≡◌, IfOk};

use fc_base::behind::Behind;
use fc_base::command::{Line, ScriptLine};
use fc_base::list::List;
use fc_base::name::Name;
use fc_base::outcome::NoMemory;
use fc_blocks::block::ActorRead;
use fc_copies::copy::{copy_command, copy_ref, copy_some_name};
use std::alloc::Global;

/// A copy of a line.
fn copy_line(alloc: Global, line: &Line) -> Result<Line, NoMemory>
    ensures { IfOk result (λ copy. copy ≡ line.now) }
{
    match line {
        Line::Blank => Ok(Line::Blank),
        Line::Command(command) => Ok(Line::Command(copy_command(alloc, command)?)),
        Line::Together => Ok(Line::Together),
        Line::Actor { name, role } => Ok(Line::Actor {
            name: name.copy(alloc)?,
            role: *role,
        }),
        Line::End => Ok(Line::End),
    }
}

/// A copy of an actor's line.
fn copy_script_line(alloc: Global, line: &ScriptLine) -> Result<ScriptLine, NoMemory>
    ensures { IfOk result (λ copy. copy ≡ line.now) }
{
    match line {
        ScriptLine::Read(line) => Ok(ScriptLine::Read(copy_line(alloc, line)?)),
        ScriptLine::Unread(fault) => Ok(ScriptLine::Unread(*fault)),
    }
}

/// A copy of an actor.
fn copy_actor(alloc: Global, actor: &ActorRead) -> Result<ActorRead, NoMemory>
    ensures { IfOk result (λ copy. copy ≡ actor.now) }
{
    let mut lines = List::new(alloc);
    for line in actor.lines.as_slice() {
        lines.push(copy_script_line(alloc, line)?)?;
    }
    Ok(ActorRead {
        name: actor.name.copy(alloc)?,
        role: actor.role,
        lines,
    })
}

/// A copy of the actors of a block. Refused for want of memory alone.
pub fn copy_actors(alloc: Global, actors: &[ActorRead]) -> Result<List<ActorRead>, NoMemory>
    ensures { IfOk result (λ copy. copy ≡ actors.now) }
{
    let mut copy = List::new(alloc);
    for actor in actors {
        copy.push(copy_actor(alloc, actor)?)?;
    }
    Ok(copy)
}

/// A copy of names. Refused for want of memory alone.
pub fn copy_names(alloc: Global, names: &[Name]) -> Result<Vec<Name>, NoMemory>
    ensures { IfOk result (λ copy. copy.items ≡ names.now) }
{
    let mut copy = Vec::new(alloc);
    for name in names {
        match copy.push(name.copy(alloc)?) {
            Ok(()) => {}
            Err(_) => return Err(NoMemory),
        }
    }
    Ok(copy)
}

/// A copy of what a line asks behind its last request. Refused for want of memory alone.
pub fn copy_behind(alloc: Global, behind: &Behind) -> Result<Behind, NoMemory>
    ensures { IfOk result (λ copy. copy ≡ behind.now) }
{
    match behind {
        Behind::Passing(seconds) => Ok(Behind::Passing(*seconds)),
        Behind::Mapping {
            source,
            preset,
            name,
        } => Ok(Behind::Mapping {
            source: copy_ref(alloc, source)?,
            preset: *preset,
            name: copy_some_name(alloc, name)?,
        }),
        Behind::Start { volume } => Ok(Behind::Start { volume: *volume }),
        Behind::Undo { map, volume } => Ok(Behind::Undo {
            map: *map,
            volume: *volume,
        }),
    }
}
