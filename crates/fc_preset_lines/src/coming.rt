//! What is asked in place of a preset behind a reply.

ghost use Rattle.std.specs.Prelude.{◌≡◌, ◌∷◌, ◌++◌, [], IfOk, OnOk};
ghost use Rattle.fc_legal.specs.Presets.{asked_behind};
ghost use Rattle.fc_preset_lines.specs.Coming.{coming_of};

use crate::lines::{mapping_line, start_line, unmake_line, unmap_line};
use fc_base::behind::Behind;
use fc_base::command::{Command, Preset};
use fc_base::name::{Name, Ref};
use fc_base::outcome::NoMemory;
use fc_base::request::{Reply, Request};
use std::alloc::Global;

/// What is asked behind a reply.
#[derive(Drop)]
pub struct Coming {
    /// The commands that are asked, in order.
    pub commands: Vec<Command>,
    /// What is asked behind the last of them.
    pub behind: Behind,
}

/// Puts a command behind others.
fn push_command(commands: &mut Vec<Command>, command: Command) -> Result<(), NoMemory>
    ensures { OnOk result (commands.new.items ≡ commands.old.items ++ command ∷ []) }
{
    match commands.push(command) {
        Ok(()) => Ok(()),
        Err(_) => Err(NoMemory),
    }
}

/// Nothing more. Takes no memory.
fn nothing_more(alloc: Global) -> Coming
    ensures { coming_of result ≡ ([], Behind.Passing 0) }
{
    Coming {
        commands: Vec::new(alloc),
        behind: Behind::Passing(0),
    }
}

/// One command, and what is asked behind it.
fn one_more(alloc: Global, command: Command, behind: Behind) -> Result<Coming, NoMemory>
    ensures { IfOk result (λ coming. coming_of coming ≡ (Request.Command command ∷ [], behind)) }
{
    let mut commands = Vec::new(alloc);
    push_command(&mut commands, command)?;
    Ok(Coming { commands, behind })
}

/// Two commands, and nothing behind them.
fn two_more(alloc: Global, first: Command, second: Command) -> Result<Coming, NoMemory>
    ensures { IfOk result (λ coming. coming_of coming
        ≡ (Request.Command first ∷ Request.Command second ∷ [], Behind.Passing 0)) }
{
    let mut commands = Vec::new(alloc);
    push_command(&mut commands, first)?;
    push_command(&mut commands, second)?;
    Ok(Coming {
        commands,
        behind: Behind::Passing(0),
    })
}

/// Behind the line that asked for a volume: a mapping to it, if it was made.
fn behind_volume(
    alloc: Global,
    source: Ref,
    preset: Preset,
    name: Option<Name>,
    reply: &Reply,
) -> Result<Coming, NoMemory>
    ensures { IfOk result (λ coming. coming_of coming
        ≡ asked_behind (Behind.Mapping source preset name) reply.now) }
{
    match reply {
        Reply::Made { id: volume, .. } => {
            let line = mapping_line(source, preset, name, *volume);
            one_more(alloc, line, Behind::Start { volume: *volume })
        }
        _ => Ok(nothing_more(alloc)),
    }
}

/// Behind the line that asked for a mapping to this volume: its start, if it was made; else the
/// volume goes.
fn behind_mapping(alloc: Global, volume: u32, reply: &Reply) -> Result<Coming, NoMemory>
    ensures { IfOk result (λ coming. coming_of coming ≡ asked_behind (Behind.Start volume) reply.now) }
{
    match reply {
        Reply::Made { id: map, .. } => {
            one_more(alloc, start_line(*map), Behind::Undo { map: *map, volume })
        }
        _ => one_more(alloc, unmake_line(volume), Behind::Passing(0)),
    }
}

/// Behind the line that asked for the start of this mapping: nothing, if it was done; else the
/// mapping goes, and then the volume.
fn behind_start(alloc: Global, map: u32, volume: u32, reply: &Reply) -> Result<Coming, NoMemory>
    ensures { IfOk result (λ coming. coming_of coming ≡ asked_behind (Behind.Undo map volume) reply.now) }
{
    match reply {
        Reply::Done => Ok(nothing_more(alloc)),
        _ => two_more(alloc, unmap_line(map), unmake_line(volume)),
    }
}

/// What is asked behind a line that was answered so, where this stands behind it; and what behind
/// that. Behind a line whose seconds pass nothing is asked. Refused for want of memory alone.
pub fn asked_behind(alloc: Global, behind: Behind, reply: &Reply) -> Result<Coming, NoMemory>
    ensures { IfOk result (λ coming. coming_of coming ≡ asked_behind behind reply.now) }
{
    match behind {
        Behind::Passing(_) => Ok(nothing_more(alloc)),
        Behind::Mapping {
            source,
            preset,
            name,
        } => behind_volume(alloc, source, preset, name, reply),
        Behind::Start { volume } => behind_mapping(alloc, volume, reply),
        Behind::Undo { map, volume } => behind_start(alloc, map, volume, reply),
    }
}
