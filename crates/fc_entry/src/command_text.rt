//! The canonical lines of commands: the name, the options that were given, and the operands.

ghost use Rattle.std.specs.Prelude.{◌≡◌, if◌then◌else◌, [], ◌++◌, codes, decimal, is_err};
ghost use Rattle.std.specs.List.{join_with_byte};
ghost use Rattle.fc_base.specs.CommandText.{command_text, command_words, delim_words, flag_words, given_words, grain_size_word, name_word, object_words, option_words, preset_word, ref_word, unit_word, way_words};
ghost use Rattle.fc_base.specs.declared.command.Command.TheVariants as command;
ghost use Rattle.fc_entry.specs.Spaced.{spaced};
ghost use Rattle.fc_entry.specs.Text.{two_numbers};
ghost use Rattle.fc_entry.specs.Written.{Written};

use crate::parts::{byte_digits, put_all, put_number, put_numbers, put_text, put_word};
use fc_base::command::{Command, Preset, StopWay, Unit};
use fc_base::name::{Name, Ref};
use fc_base::outcome::Failed;
use fc_base::size::GrainSize;
use fc_io::sink::Sink;
use itoa::Buffer;

/// The text, where it is wanted.
fn text_if(wanted: bool, text: &[u8]) -> &[u8]
    ensures { result.now ≡ (if wanted then text.now else []) }
{
    if wanted { text } else { b"" }
}

/// The flags of a start.
fn start_flags(prep: bool, restore: bool) -> &'static [u8]
    ensures { result.now ≡ spaced (flag_words (codes "-prep") prep ++ flag_words (codes "-restore") restore) }
{
    match (prep, restore) {
        (false, false) => b"",
        (true, false) => b" -prep",
        (false, true) => b" -restore",
        (true, true) => b" -prep -restore",
    }
}

/// The flag of a stop.
fn way_flag(way: StopWay) -> &'static [u8]
    ensures { result.now ≡ spaced (way_words way) }
{
    match way {
        StopWay::Plain => b"",
        StopWay::Force => b" -force",
        StopWay::Split => b" -split",
    }
}

/// The unit of a size, where one was given.
fn unit_option(unit: Option<Unit>) -> &'static [u8]
    ensures { result.now ≡ spaced (given_words (codes "-unit") unit_word unit) }
{
    match unit {
        None => b"",
        Some(Unit::Kb) => b" -unit kb",
        Some(Unit::Mb) => b" -unit mb",
        Some(Unit::Gb) => b" -unit gb",
    }
}

/// The grain size of a mapping, where one was given.
fn grain_size_option(size: Option<GrainSize>) -> &'static [u8]
    ensures { result.now ≡ spaced (given_words (codes "-grainsize") grain_size_word size) }
{
    match size {
        None => b"",
        Some(GrainSize::K64) => b" -grainsize 64",
        Some(GrainSize::K256) => b" -grainsize 256",
    }
}

/// The option that says what a copy is for.
fn preset_option(preset: Preset) -> &'static [u8]
    ensures { result.now ≡ spaced (option_words (codes "-preset") (preset_word preset)) }
{
    match preset {
        Preset::Snapshot => b" -preset snapshot",
        Preset::Clone => b" -preset clone",
        Preset::Backup => b" -preset backup",
    }
}

/// Puts a text and an object's id or name.
fn put_reference<K: Sink>(text: &[u8], object: &Ref, sink: &mut K) -> Result<(), Failed>
    ensures { Written (K.meaning sink.old) (text.now ++ ref_word object.now) (is_err result) (K.meaning sink.new) }
{
    match object {
        Ref::Id(id) => put_number(sink, text, *id),
        Ref::Name(name) => put_word(sink, text, name.as_bytes()),
    }
}

/// Puts the option for a new object's name, where one was given.
fn put_name<K: Sink>(name: &Option<Name>, sink: &mut K) -> Result<(), Failed>
    ensures { Written (K.meaning sink.old) (spaced (given_words (codes "-name") name_word name.now)) (is_err result)
        (K.meaning sink.new) }
{
    match name {
        None => Ok(()),
        Some(name) => put_word(sink, b" -name ", name.as_bytes()),
    }
}

/// Puts the option for a mapping's group, where one was given.
fn put_group<K: Sink>(group: &Option<Ref>, sink: &mut K) -> Result<(), Failed>
    ensures { Written (K.meaning sink.old) (spaced (given_words (codes "-consistgrp") ref_word group.now)) (is_err result)
        (K.meaning sink.new) }
{
    match group {
        None => Ok(()),
        Some(group) => put_reference(b" -consistgrp ", group, sink),
    }
}

/// Puts an option with a number, where one was given. The option stands between spaces.
fn put_rate<K: Sink>(option: &[u8], rate: Option<u32>, sink: &mut K) -> Result<(), Failed>
    ensures { Written (K.meaning sink.old) (spaced (given_words option.now decimal rate)) (is_err result) (K.meaning sink.new) }
{
    match rate {
        None => Ok(()),
        Some(rate) => {
            let mut digits = Buffer::new();
            put_all(sink, &[b" ", option, b" ", digits.format(rate).as_bytes()])
        }
    }
}

/// Puts a line's name, and the delimiter of a report, where one was given.
fn put_delimited<K: Sink>(line: &[u8], delim: Option<u8>, sink: &mut K) -> Result<(), Failed>
    ensures { Written (K.meaning sink.old) (line.now ++ spaced (delim_words delim)) (is_err result) (K.meaning sink.new) }
{
    match delim {
        None => put_text(sink, line),
        Some(delim) => put_all(sink, &[line, b" -delim ", &[delim]]),
    }
}

/// Puts an object, where one was named.
fn put_object<K: Sink>(object: &Option<Ref>, sink: &mut K) -> Result<(), Failed>
    ensures { Written (K.meaning sink.old) (spaced (object_words object.now)) (is_err result) (K.meaning sink.new) }
{
    match object {
        None => Ok(()),
        Some(object) => put_reference(b" ", object, sink),
    }
}

/// Puts a line's name, its flags and its object.
fn put_flagged<K: Sink>(line: &[u8], flags: &[u8], object: &Ref, sink: &mut K) -> Result<(), Failed>
    ensures { Written (K.meaning sink.old) (line.now ++ flags.now ++ (codes " " ++ ref_word object.now)) (is_err result)
        (K.meaning sink.new) }
{
    put_word(sink, line, flags)?;
    put_reference(b" ", object, sink)
}

/// Puts the line of a report on one object.
fn put_report<K: Sink>(
    line: &[u8],
    delim: Option<u8>,
    object: &Ref,
    sink: &mut K,
) -> Result<(), Failed>
    ensures { Written (K.meaning sink.old) (line.now ++ spaced (delim_words delim) ++ (codes " " ++ ref_word object.now))
        (is_err result) (K.meaning sink.new) }
{
    put_delimited(line, delim, sink)?;
    put_reference(b" ", object, sink)
}

/// Puts the line of a list, or of a report where an object is named.
fn put_list<K: Sink>(
    line: &[u8],
    delim: Option<u8>,
    object: &Option<Ref>,
    sink: &mut K,
) -> Result<(), Failed>
    ensures { Written (K.meaning sink.old) (line.now ++ spaced (delim_words delim) ++ spaced (object_words object.now))
        (is_err result) (K.meaning sink.new) }
{
    put_delimited(line, delim, sink)?;
    put_object(object, sink)
}

/// Puts the line that makes a consistency group.
fn put_mkfcconsistgrp<K: Sink>(name: &Option<Name>, sink: &mut K) -> Result<(), Failed>
    ensures { Written (K.meaning sink.old) (command_text (command.Mkfcconsistgrp name.now)) (is_err result) (K.meaning sink.new) }
{
    put_text(sink, b"mkfcconsistgrp")?;
    put_name(name, sink)
}

/// Puts the options of a new volume behind its name.
fn put_size<K: Sink>(size: u32, unit: Option<Unit>, thin: bool, sink: &mut K) -> Result<(), Failed>
    ensures { Written (K.meaning sink.old)
        (spaced (option_words (codes "-size") (decimal size) ++ given_words (codes "-unit") unit_word unit ++ flag_words (codes "-thin") thin))
        (is_err result) (K.meaning sink.new) }
{
    let mut digits = Buffer::new();
    put_all(
        sink,
        &[
            b" -size ",
            digits.format(size).as_bytes(),
            unit_option(unit),
            text_if(thin, b" -thin"),
        ],
    )
}

/// Puts the line that makes a volume.
fn put_mkvdisk<K: Sink>(
    name: &Option<Name>,
    size: u32,
    unit: Option<Unit>,
    thin: bool,
    sink: &mut K,
) -> Result<(), Failed>
    ensures { Written (K.meaning sink.old) (command_text (command.Mkvdisk name.now size unit thin)) (is_err result)
        (K.meaning sink.new) }
{
    put_text(sink, b"mkvdisk")?;
    put_name(name, sink)?;
    put_size(size, unit, thin, sink)
}

/// Puts a line's name, its volume, and two numbers behind it.
fn put_access<K: Sink>(
    line: &[u8],
    volume: &Ref,
    first: u32,
    second: u32,
    sink: &mut K,
) -> Result<(), Failed>
    ensures { Written (K.meaning sink.old) (line.now ++ ref_word volume.now ++ (codes " " ++ two_numbers first second))
        (is_err result) (K.meaning sink.new) }
{
    put_reference(line, volume, sink)?;
    put_numbers(sink, b" ", first, second)
}

/// Puts a line that writes blocks.
fn put_write<K: Sink>(
    volume: &Ref,
    block: u32,
    count: u32,
    byte: u8,
    sink: &mut K,
) -> Result<(), Failed>
    ensures { Written (K.meaning sink.old) (command_text (command.Write volume.now block count byte)) (is_err result)
        (K.meaning sink.new) }
{
    put_access(b"write ", volume, block, count, sink)?;
    put_word(sink, b" ", &byte_digits(byte))
}

/// Puts the line of a new mapping as far as its group.
fn put_new_mapping<K: Sink>(
    source: &Ref,
    target: &Ref,
    name: &Option<Name>,
    group: &Option<Ref>,
    sink: &mut K,
) -> Result<(), Failed>
    ensures { Written (K.meaning sink.old)
        (codes "mkfcmap" ++ spaced (option_words (codes "-source") (ref_word source.now)
        ++ option_words (codes "-target") (ref_word target.now)
        ++ given_words (codes "-name") name_word name.now
        ++ given_words (codes "-consistgrp") ref_word group.now))
        (is_err result) (K.meaning sink.new) }
{
    put_reference(b"mkfcmap -source ", source, sink)?;
    put_reference(b" -target ", target, sink)?;
    put_name(name, sink)?;
    put_group(group, sink)
}

/// Puts the options of a new mapping behind its rates.
fn put_mapping_flags<K: Sink>(
    grain_size: Option<GrainSize>,
    incremental: bool,
    autodelete: bool,
    sink: &mut K,
) -> Result<(), Failed>
    ensures { Written (K.meaning sink.old)
        (spaced (given_words (codes "-grainsize") grain_size_word grain_size
        ++ flag_words (codes "-incremental") incremental
        ++ flag_words (codes "-autodelete") autodelete))
        (is_err result) (K.meaning sink.new) }
{
    put_all(
        sink,
        &[
            grain_size_option(grain_size),
            text_if(incremental, b" -incremental"),
            text_if(autodelete, b" -autodelete"),
        ],
    )
}

/// Puts the options of a new mapping behind its group.
fn put_mapping_options<K: Sink>(
    copy_rate: Option<u32>,
    clean_rate: Option<u32>,
    grain_size: Option<GrainSize>,
    incremental: bool,
    autodelete: bool,
    sink: &mut K,
) -> Result<(), Failed>
    ensures { Written (K.meaning sink.old)
        (spaced (given_words (codes "-copyrate") decimal copy_rate
        ++ given_words (codes "-cleanrate") decimal clean_rate
        ++ given_words (codes "-grainsize") grain_size_word grain_size
        ++ flag_words (codes "-incremental") incremental
        ++ flag_words (codes "-autodelete") autodelete))
        (is_err result) (K.meaning sink.new) }
{
    put_rate(b"-copyrate", copy_rate, sink)?;
    put_rate(b"-cleanrate", clean_rate, sink)?;
    put_mapping_flags(grain_size, incremental, autodelete, sink)
}

/// Puts the line of a preset.
fn put_mkpreset<K: Sink>(
    source: &Ref,
    preset: Preset,
    name: &Option<Name>,
    sink: &mut K,
) -> Result<(), Failed>
    ensures { Written (K.meaning sink.old) (command_text (command.Mkpreset source.now preset name.now)) (is_err result)
        (K.meaning sink.new) }
{
    put_reference(b"mkpreset -source ", source, sink)?;
    put_text(sink, preset_option(preset))?;
    put_name(name, sink)
}

/// The flag that a restore takes.
fn restore_flag(restore: bool) -> &'static [u8]
    ensures { result.now ≡ spaced (flag_words (codes "-restore") restore) }
{
    if restore { b" -restore" } else { b"" }
}

/// The flag that a forced removal takes.
fn force_flag(force: bool) -> &'static [u8]
    ensures { result.now ≡ spaced (flag_words (codes "-force") force) }
{
    if force { b" -force" } else { b"" }
}

/// Puts the canonical line of a command: its name, the options that were given in the manual's order, and the
/// operands, with one space between words. Numbers have no leading zeros, and a byte is two hexadecimal digits
/// in lower case. No line end is put. Failed, a front of the line was added.
pub fn put_command<K: Sink>(command: &Command, sink: &mut K) -> Result<(), Failed>
    ensures { Written (K.meaning sink.old) (command_text command.now) (is_err result) (K.meaning sink.new) }
{
    match command {
        Command::Mkvdisk {
            name,
            size,
            unit,
            thin,
        } => put_mkvdisk(name, *size, *unit, *thin, sink),
        Command::Rmvdisk { volume } => put_reference(b"rmvdisk ", volume, sink),
        Command::Write {
            volume,
            block,
            count,
            byte,
        } => put_write(volume, *block, *count, *byte, sink),
        Command::Read {
            volume,
            block,
            count,
        } => put_access(b"read ", volume, *block, *count, sink),
        Command::Armfault {
            volume,
            grain,
            calls,
        } => put_access(b"armfault ", volume, *grain, *calls, sink),
        Command::Advance { seconds } => put_number(sink, b"advance -seconds ", *seconds),
        Command::Mkfcmap {
            source,
            target,
            name,
            group,
            copy_rate,
            clean_rate,
            grain_size,
            incremental,
            autodelete,
        } => {
            put_new_mapping(source, target, name, group, sink)?;
            put_mapping_options(
                *copy_rate,
                *clean_rate,
                *grain_size,
                *incremental,
                *autodelete,
                sink,
            )
        }
        Command::Prestartfcmap { map, restore } => put_flagged(
            b"prestartfcmap",
            restore_flag(*restore),
            map,
            sink,
        ),
        Command::Startfcmap { map, prep, restore } => {
            put_flagged(b"startfcmap", start_flags(*prep, *restore), map, sink)
        }
        Command::Stopfcmap { map, way } => put_flagged(b"stopfcmap", way_flag(*way), map, sink),
        Command::Rmfcmap { map, force } => put_flagged(b"rmfcmap", force_flag(*force), map, sink),
        Command::Mkfcconsistgrp { name } => put_mkfcconsistgrp(name, sink),
        Command::Prestartfcconsistgrp { group, restore } => {
            put_flagged(b"prestartfcconsistgrp", restore_flag(*restore), group, sink)
        }
        Command::Startfcconsistgrp {
            group,
            prep,
            restore,
        } => {
            put_flagged(
                b"startfcconsistgrp",
                start_flags(*prep, *restore),
                group,
                sink,
            )
        }
        Command::Stopfcconsistgrp { group, way } => put_flagged(
            b"stopfcconsistgrp",
            way_flag(*way),
            group,
            sink,
        ),
        Command::Rmfcconsistgrp { group, force } => put_flagged(
            b"rmfcconsistgrp",
            force_flag(*force),
            group,
            sink,
        ),
        Command::Lsfcmap { map, delim } => put_list(b"lsfcmap", *delim, map, sink),
        Command::Lsfcconsistgrp { group, delim } => put_list(
            b"lsfcconsistgrp",
            *delim,
            group,
            sink,
        ),
        Command::Lsvdisk { delim } => put_delimited(b"lsvdisk", *delim, sink),
        Command::Lsfcmapprogress { map, delim } => put_report(
            b"lsfcmapprogress",
            *delim,
            map,
            sink,
        ),
        Command::Lsfcmapdependentmaps { map, delim } => put_report(
            b"lsfcmapdependentmaps",
            *delim,
            map,
            sink,
        ),
        Command::Mkpreset {
            source,
            preset,
            name,
        } => put_mkpreset(source, *preset, name, sink),
        Command::Lsvdiskroom { delim } => put_delimited(b"lsvdiskroom", *delim, sink),
    }
}
