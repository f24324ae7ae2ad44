//! The line that its words make, once all are read.

ghost use Rattle.std.specs.Prelude.{◌≡◌, IfErr, Ok};
ghost use Rattle.std.specs.Option.{ok_or};
ghost use Rattle.fc_words.specs.Given.{no_settings, no_flags, no_operands};
ghost use Rattle.fc_words.specs.Lines.{complete, good, need, then_read, stop_way};

use crate::given::{Flags, Given, Operands, RoleWord, Settings};
use crate::grammar::Verb;
use fc_base::command::{Command, Line, Role, StopWay};
use fc_base::fault::{RequiredOption, WordFault};
use fc_base::name::Ref;

/// The line of all words. `end` is the number of words plus 1.
pub fn complete(verb: Verb, end: u32, given: Given) -> Result<Line, WordFault>
    ensures { result ≡ complete verb end given.settings given.flags given.operands }
{
    let mut given = given;
    line_of_parts(
        verb,
        end,
        given.flags,
        &mut given.settings,
        &mut given.operands,
    )
}

/// The line of all words, made of the parts of what they gave.
fn line_of_parts(
    verb: Verb,
    end: u32,
    flags: Flags,
    settings: &mut Settings,
    operands: &mut Operands,
) -> Result<Line, WordFault>
    ensures { result ≡ complete verb end settings.old flags operands.old }
{
    let way = stop_way_of(flags);
    let delim = settings.delim;
    match verb {
        Verb::MakeVolume => make_volume(settings, flags),
        Verb::RemoveVolume => Ok(Line::Command(Command::Rmvdisk {
            volume: object_in(operands, end)?,
        })),
        Verb::WriteBlocks => write_blocks(operands, end),
        Verb::ReadBlocks => read_blocks(operands, end),
        Verb::ArmFault => arm_fault(operands, end),
        Verb::PassTime => pass_time(settings.seconds),
        Verb::MakeMapping => make_mapping(settings, flags),
        Verb::PrepareMapping => Ok(Line::Command(Command::Prestartfcmap {
            map: object_in(operands, end)?,
            restore: flags.restore,
        })),
        Verb::StartMapping => Ok(Line::Command(Command::Startfcmap {
            map: object_in(operands, end)?,
            prep: flags.prep,
            restore: flags.restore,
        })),
        Verb::StopMapping => Ok(Line::Command(Command::Stopfcmap {
            map: object_in(operands, end)?,
            way,
        })),
        Verb::RemoveMapping => Ok(Line::Command(Command::Rmfcmap {
            map: object_in(operands, end)?,
            force: flags.force,
        })),
        Verb::MakeGroup => Ok(Line::Command(Command::Mkfcconsistgrp {
            name: settings.name.take(),
        })),
        Verb::PrepareGroup => Ok(Line::Command(Command::Prestartfcconsistgrp {
            group: object_in(operands, end)?,
            restore: flags.restore,
        })),
        Verb::StartGroup => Ok(Line::Command(Command::Startfcconsistgrp {
            group: object_in(operands, end)?,
            prep: flags.prep,
            restore: flags.restore,
        })),
        Verb::StopGroup => Ok(Line::Command(Command::Stopfcconsistgrp {
            group: object_in(operands, end)?,
            way,
        })),
        Verb::RemoveGroup => Ok(Line::Command(Command::Rmfcconsistgrp {
            group: object_in(operands, end)?,
            force: flags.force,
        })),
        Verb::ListMappings => Ok(Line::Command(Command::Lsfcmap {
            map: operands.object.take(),
            delim,
        })),
        Verb::ListGroups => Ok(Line::Command(Command::Lsfcconsistgrp {
            group: operands.object.take(),
            delim,
        })),
        Verb::ListVolumes => Ok(Line::Command(Command::Lsvdisk { delim })),
        Verb::ShowProgress => Ok(Line::Command(Command::Lsfcmapprogress {
            map: object_in(operands, end)?,
            delim,
        })),
        Verb::ListDependents => Ok(Line::Command(Command::Lsfcmapdependentmaps {
            map: object_in(operands, end)?,
            delim,
        })),
        Verb::MakeCopy => make_copy(settings),
        Verb::ListRoom => Ok(Line::Command(Command::Lsvdiskroom { delim })),
        Verb::BeginBlock => Ok(Line::Together),
        Verb::BeginActor => begin_actor(operands, end),
        Verb::EndBlock => Ok(Line::End),
    }
}

/// The volume, mapping or group that is given.
fn object_in(operands: &mut Operands, end: u32) -> Result<Ref, WordFault>
    ensures { result ≡ ok_or operands.old.object (WordFault.MissingWord end) }
{
    operands.object.take().ok_or(WordFault::MissingWord(end))
}

/// `mkvdisk`
fn make_volume(settings: &mut Settings, flags: Flags) -> Result<Line, WordFault>
    ensures { result ≡ complete Verb.MakeVolume 0 settings.old flags no_operands }
{
    let Some(size) = settings.size else {
        return Err(WordFault::MissingOption(RequiredOption::Size));
    };
    Ok(Line::Command(Command::Mkvdisk {
        name: settings.name.take(),
        size,
        unit: settings.unit,
        thin: flags.thin,
    }))
}

/// `write`
fn write_blocks(operands: &mut Operands, end: u32) -> Result<Line, WordFault>
    ensures { result ≡ complete Verb.WriteBlocks end no_settings no_flags operands.old }
{
    match (operands.block, operands.count, operands.byte) {
        (Some(block), Some(count), Some(byte)) => Ok(Line::Command(Command::Write {
            volume: object_in(operands, end)?,
            block,
            count,
            byte,
        })),
        _ => Err(WordFault::MissingWord(end)),
    }
}

/// `read`
fn read_blocks(operands: &mut Operands, end: u32) -> Result<Line, WordFault>
    ensures { result ≡ complete Verb.ReadBlocks end no_settings no_flags operands.old }
{
    match (operands.block, operands.count) {
        (Some(block), Some(count)) => Ok(Line::Command(Command::Read {
            volume: object_in(operands, end)?,
            block,
            count,
        })),
        _ => Err(WordFault::MissingWord(end)),
    }
}

/// `armfault`
fn arm_fault(operands: &mut Operands, end: u32) -> Result<Line, WordFault>
    ensures { result ≡ complete Verb.ArmFault end no_settings no_flags operands.old }
{
    match (operands.grain, operands.calls) {
        (Some(grain), Some(calls)) => Ok(Line::Command(Command::Armfault {
            volume: object_in(operands, end)?,
            grain,
            calls,
        })),
        _ => Err(WordFault::MissingWord(end)),
    }
}

/// `advance`
fn pass_time(seconds: Option<u32>) -> Result<Line, WordFault>
    ensures { result ≡ need seconds (WordFault.MissingOption RequiredOption.Seconds) (λ seconds. good (Command.Advance seconds)) }
{
    match seconds {
        Some(seconds) => Ok(Line::Command(Command::Advance { seconds })),
        None => Err(WordFault::MissingOption(RequiredOption::Seconds)),
    }
}

/// `mkfcmap`
fn make_mapping(settings: &mut Settings, flags: Flags) -> Result<Line, WordFault>
    ensures { result ≡ complete Verb.MakeMapping 0 settings.old flags no_operands }
{
    let Some(source) = settings.source.take() else {
        return Err(WordFault::MissingOption(RequiredOption::Source));
    };
    let Some(target) = settings.target.take() else {
        return Err(WordFault::MissingOption(RequiredOption::Target));
    };
    Ok(Line::Command(Command::Mkfcmap {
        source,
        target,
        name: settings.name.take(),
        group: settings.group.take(),
        copy_rate: settings.copy_rate,
        clean_rate: settings.clean_rate,
        grain_size: settings.grain_size,
        incremental: flags.incremental,
        autodelete: flags.autodelete,
    }))
}

/// `mkpreset`
fn make_copy(settings: &mut Settings) -> Result<Line, WordFault>
    ensures { result ≡ complete Verb.MakeCopy 0 settings.old no_flags no_operands }
{
    let Some(source) = settings.source.take() else {
        return Err(WordFault::MissingOption(RequiredOption::Source));
    };
    let Some(preset) = settings.preset else {
        return Err(WordFault::MissingOption(RequiredOption::Preset));
    };
    Ok(Line::Command(Command::Mkpreset {
        source,
        preset,
        name: settings.name.take(),
    }))
}

/// The role of an actor, with its turns.
fn role_in(operands: &Operands, end: u32) -> Result<Role, WordFault>
    ensures fault { IfErr result (λ fault. fault ≡ WordFault.MissingWord end) }
    ensures line { complete Verb.BeginActor end no_settings no_flags operands.now ≡ need operands.now.actor (WordFault.MissingWord end) (λ name. then_read result (λ role. Ok (Line.Actor name role))) }
{
    match (operands.role, operands.turns) {
        (Some(RoleWord::Host), _) => Ok(Role::Host),
        (Some(RoleWord::Admin), _) => Ok(Role::Admin),
        (Some(RoleWord::Copier), Some(turns)) => Ok(Role::Copier(turns)),
        (Some(RoleWord::Cleaner), Some(turns)) => Ok(Role::Cleaner(turns)),
        _ => Err(WordFault::MissingWord(end)),
    }
}

/// `actor`
fn begin_actor(operands: &mut Operands, end: u32) -> Result<Line, WordFault>
    ensures { result ≡ complete Verb.BeginActor end no_settings no_flags operands.old }
{
    let role = role_in(operands, end)?;
    match operands.actor.take() {
        Some(name) => Ok(Line::Actor { name, role }),
        None => Err(WordFault::MissingWord(end)),
    }
}

/// How a mapping or group is stopped.
fn stop_way_of(flags: Flags) -> StopWay
    ensures { result ≡ stop_way flags }
{
    if flags.force {
        StopWay::Force
    } else if flags.split {
        StopWay::Split
    } else {
        StopWay::Plain
    }
}
