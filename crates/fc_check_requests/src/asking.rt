//! What a line asks, and what it asks behind its last request.

ghost use Rattle.std.specs.Prelude.{◌≡◌, ◌↔◌, ◌<◌, ◌≤◌, ◌++◌, IfOk, IsTrue, OnOk};
ghost use Rattle.fc_base.specs.Tables.{volume_named};
ghost use Rattle.fc_books.specs.Books.{Books};
ghost use Rattle.fc_check_requests.specs.Accesses.{AreInside, IsAccessed, IsSpanOf, command_of};
ghost use Rattle.fc_check_requests.specs.Lines.{script_behind};
ghost use Rattle.fc_legal.specs.Agenda.{behind_command};
ghost use Rattle.fc_legal.specs.Asked.{command_asked};
ghost use Rattle.fc_legal.specs.Presets.{behind_preset};
ghost use Rattle.fc_legal.specs.Scripts.{line_asked};

use crate::requests::Requests;
use crate::span::Span;
use crate::told::Told;
use fc_base::behind::Behind;
use fc_base::command::{Command, Line, Preset, ScriptLine};
use fc_base::fault::WordFault;
use fc_base::ids::VolId;
use fc_base::limits::MAX_BLOCKS;
use fc_base::name::{Name, Ref};
use fc_base::outcome::NoMemory;
use fc_base::size::GrainSize;
use fc_copies::copy::{copy_command, copy_ref, copy_some_name};
use fc_preset_lines::volume_line;
use fc_registry::Registry;
use std::alloc::Global;

/// Whether so many blocks from this one on lie inside a volume of so many grains, and aren't more than an
/// access may have.
fn are_inside(size: GrainSize, grains: u32, block: u32, count: u32) -> bool
    ensures { IsTrue result ↔ AreInside size grains block count }
{
    let blocks = u64::from(grains) * u64::from(size.blocks());
    0 < count && count <= MAX_BLOCKS && u64::from(block) + u64::from(count) <= blocks
}

/// The volume that an access is to; none where the access is refused.
fn accessed(
    size: GrainSize,
    tables: &Registry,
    volume: &Ref,
    block: u32,
    count: u32,
) -> Option<VolId>
    ensures { (b : Books) → b.tables ≡ tables.now.tables → IsAccessed result size b volume.now block count }
{
    match tables.volume(volume) {
        Some(found) => {
            if are_inside(size, found.grains, block, count) {
                Some(found.id)
            } else {
                None
            }
        }
        None => None,
    }
}

/// An access of blocks of a volume, of which all grains are left.
fn whole_span(size: GrainSize, volume: VolId, block: u32, count: u32, byte: Option<u8>) -> Span
    requires some { 0 < count }
    requires few { count ≤ MAX_BLOCKS }
    ensures { IsSpanOf size volume block count byte result }
{
    let blocks = size.blocks();
    let first = block / blocks;
    let last = ((u64::from(block) + u64::from(count) - 1) / u64::from(blocks)) as u32;
    Span {
        grain: size,
        volume,
        block,
        count,
        byte,
        next: first,
        left: last - first + 1,
    }
}

/// Puts what an access asks, which is this command, behind other requests: a request for each grain, or itself
/// where it is refused.
fn push_access<T: Told>(
    alloc: Global,
    told: &T,
    command: &Command,
    volume: &Ref,
    block: u32,
    count: u32,
    byte: Option<u8>,
    requests: &mut Requests,
) -> Result<(), NoMemory>
    requires { command.now ≡ command_of volume.now block count byte }
    ensures { OnOk result (requests.new ≡ requests.old ++ command_asked (T.grain told.now) (T.whole told.now).books command.now) }
{
    let size = told.grain_size();
    match accessed(size, told.registry(), volume, block, count) {
        Some(id) => requests.push_access(whole_span(size, id, block, count, byte)),
        None => requests.push_command(copy_command(alloc, command)?),
    }
}

/// Puts what a preset asks first, which is this command, behind other requests: a volume as large as its source, or itself
/// where its source names no volume.
fn push_preset<T: Told>(
    alloc: Global,
    told: &T,
    command: &Command,
    source: &Ref,
    preset: Preset,
    name: &Option<Name>,
    requests: &mut Requests,
) -> Result<(), NoMemory>
    requires { command.now ≡ Command.Mkpreset source.now preset name.now }
    ensures { OnOk result (requests.new
        ≡ requests.old ++ command_asked (T.grain told.now) (T.whole told.now).books command.now) }
{
    match told.registry().volume(source) {
        Some(found) => {
            let line = volume_line(alloc, told.grain_size(), preset, name, found)?;
            requests.push_command(line)
        }
        None => {
            let line = copy_command(alloc, command)?;
            requests.push_command(line)
        }
    }
}

/// Puts what a command asks behind other requests.
fn push_command<T: Told>(
    alloc: Global,
    told: &T,
    command: &Command,
    requests: &mut Requests,
) -> Result<(), NoMemory>
    ensures { OnOk result (requests.new ≡ requests.old ++ command_asked (T.grain told.now) (T.whole told.now).books command.now) }
{
    match command {
        Command::Read {
            volume,
            block,
            count,
        } => push_access(alloc, told, command, volume, *block, *count, None, requests),
        Command::Write {
            volume,
            block,
            count,
            byte,
        } => push_access(
            alloc,
            told,
            command,
            volume,
            *block,
            *count,
            Some(*byte),
            requests,
        ),
        Command::Mkpreset {
            source,
            preset,
            name,
        } => push_preset(alloc, told, command, source, *preset, name, requests),
        _ => requests.push_command(copy_command(alloc, command)?),
    }
}

/// Puts what a line asks behind other requests, by the tables as they are told. Refused, for want of memory
/// alone, a part of it may be there.
pub fn push_line<T: Told>(
    alloc: Global,
    told: &T,
    line: &ScriptLine,
    requests: &mut Requests,
) -> Result<(), NoMemory>
    ensures { OnOk result (requests.new ≡ requests.old ++ line_asked (T.grain told.now) (T.whole told.now).books line.now) }
{
    match line {
        ScriptLine::Read(Line::Blank) => Ok(()),
        ScriptLine::Read(Line::Command(command)) => push_command(alloc, told, command, requests),
        ScriptLine::Read(_) => requests.push_unread(WordFault::UnknownCommand),
        ScriptLine::Unread(fault) => requests.push_unread(*fault),
    }
}

/// What a preset asks behind its first request: a mapping from its source, or nothing where that names no volume.
fn behind_preset<T: Told>(
    alloc: Global,
    told: &T,
    source: &Ref,
    preset: Preset,
    name: &Option<Name>,
) -> Result<Behind, NoMemory>
    ensures { IfOk result (λ behind. behind
        ≡ behind_preset source.now preset name.now
        (volume_named (T.whole told.now).books.tables source.now)) }
{
    match told.registry().volume(source) {
        Some(_) => {
            let source = copy_ref(alloc, source)?;
            let name = copy_some_name(alloc, name)?;
            Ok(Behind::Mapping {
                source,
                preset,
                name,
            })
        }
        None => Ok(Behind::Passing(0)),
    }
}

/// What a command asks behind its last request: the seconds of `advance`, or the other lines of a preset.
fn behind_command<T: Told>(alloc: Global, told: &T, command: &Command) -> Result<Behind, NoMemory>
    ensures { IfOk result (λ behind. behind ≡ behind_command (T.whole told.now).books command.now) }
{
    match command {
        Command::Advance { seconds } => Ok(Behind::Passing(*seconds)),
        Command::Mkpreset {
            source,
            preset,
            name,
        } => behind_preset(alloc, told, source, *preset, name),
        _ => Ok(Behind::Passing(0)),
    }
}

/// What a line asks behind its last request, by the tables as they are told. Refused for want of memory alone.
pub fn behind_line<T: Told>(alloc: Global, told: &T, line: &ScriptLine) -> Result<Behind, NoMemory>
    ensures { IfOk result (λ behind. behind ≡ script_behind (T.whole told.now).books line.now) }
{
    match line {
        ScriptLine::Read(Line::Command(command)) => behind_command(alloc, told, command),
        ScriptLine::Read(_) => Ok(Behind::Passing(0)),
        ScriptLine::Unread(_) => Ok(Behind::Passing(0)),
    }
}
