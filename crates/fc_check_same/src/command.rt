//! The comparison of names, references and commands.

use crate::same::Same;
use fc_base::command::Command;
use fc_base::name::{Name, Ref};

impl Same for Name {
    fn is_same(&self, other: &Name) -> bool {
        self.as_bytes() == other.as_bytes()
    }
}

impl Same for Ref {
    fn is_same(&self, other: &Ref) -> bool {
        match (self, other) {
            (Ref::Id(own), Ref::Id(id)) => own == id,
            (Ref::Name(own), Ref::Name(name)) => own.is_same(name),
            _ => false,
        }
    }
}

impl Same for Command {
    fn is_same(&self, other: &Command) -> bool {
        match (self, other) {
            (
                Command::Mkvdisk {
                    name,
                    size,
                    unit,
                    thin,
                },
                Command::Mkvdisk {
                    name: named,
                    size: sized,
                    unit: counted,
                    thin: made,
                },
            ) => { name.is_same(named) && size == sized && unit.is_same(counted) && thin == made }
            (Command::Rmvdisk { volume }, Command::Rmvdisk { volume: own }) => {
                volume.is_same(own)
            }
            (
                Command::Write {
                    volume,
                    block,
                    count,
                    byte,
                },
                Command::Write {
                    volume: own,
                    block: from,
                    count: many,
                    byte: with,
                },
            ) => { volume.is_same(own) && block == from && count == many && byte == with }
            (
                Command::Read {
                    volume,
                    block,
                    count,
                },
                Command::Read {
                    volume: own,
                    block: from,
                    count: many,
                },
            ) => { volume.is_same(own) && block == from && count == many }
            (
                Command::Armfault {
                    volume,
                    grain,
                    calls,
                },
                Command::Armfault {
                    volume: own,
                    grain: at,
                    calls: many,
                },
            ) => { volume.is_same(own) && grain == at && calls == many }
            (Command::Advance { seconds }, Command::Advance { seconds: many }) => {
                seconds == many
            }
            (
                Command::Mkfcmap {
                    source,
                    target,
                    name,
                    group,
                    copy_rate,
                    clean_rate,
                    grain_size,
                    incremental,
                    autodelete,
                },
                Command::Mkfcmap {
                    source: from,
                    target: into,
                    name: named,
                    group: of,
                    copy_rate: copied,
                    clean_rate: cleaned,
                    grain_size: sized,
                    incremental: follows,
                    autodelete: goes,
                },
            ) => {
                source.is_same(from)
                    && target.is_same(into)
                    && name.is_same(named)
                    && group.is_same(of)
                    && copy_rate.is_same(copied)
                    && clean_rate.is_same(cleaned)
                    && grain_size.is_same(sized)
                    && incremental == follows
                    && autodelete == goes
            }
            (
                Command::Prestartfcmap { map, restore },
                Command::Prestartfcmap {
                    map: own,
                    restore: back,
                },
            ) => { map.is_same(own) && restore == back }
            (
                Command::Startfcmap { map, prep, restore },
                Command::Startfcmap {
                    map: own,
                    prep: first,
                    restore: back,
                },
            ) => { map.is_same(own) && prep == first && restore == back }
            (Command::Stopfcmap { map, way }, Command::Stopfcmap { map: own, way: how }) => {
                map.is_same(own) && way == how
            }
            (
                Command::Rmfcmap { map, force },
                Command::Rmfcmap {
                    map: own,
                    force: forced,
                },
            ) => { map.is_same(own) && force == forced }
            (Command::Mkfcconsistgrp { name }, Command::Mkfcconsistgrp { name: named }) => {
                name.is_same(named)
            }
            (
                Command::Prestartfcconsistgrp { group, restore },
                Command::Prestartfcconsistgrp {
                    group: own,
                    restore: back,
                },
            ) => { group.is_same(own) && restore == back }
            (
                Command::Startfcconsistgrp {
                    group,
                    prep,
                    restore,
                },
                Command::Startfcconsistgrp {
                    group: own,
                    prep: first,
                    restore: back,
                },
            ) => { group.is_same(own) && prep == first && restore == back }
            (
                Command::Stopfcconsistgrp { group, way },
                Command::Stopfcconsistgrp {
                    group: own,
                    way: how,
                },
            ) => { group.is_same(own) && way == how }
            (
                Command::Rmfcconsistgrp { group, force },
                Command::Rmfcconsistgrp {
                    group: own,
                    force: forced,
                },
            ) => { group.is_same(own) && force == forced }
            (
                Command::Lsfcmap { map, delim },
                Command::Lsfcmap {
                    map: own,
                    delim: parted,
                },
            ) => { map.is_same(own) && delim.is_same(parted) }
            (
                Command::Lsfcconsistgrp { group, delim },
                Command::Lsfcconsistgrp {
                    group: own,
                    delim: parted,
                },
            ) => { group.is_same(own) && delim.is_same(parted) }
            (Command::Lsvdisk { delim }, Command::Lsvdisk { delim: parted }) => {
                delim.is_same(parted)
            }
            (
                Command::Lsfcmapprogress { map, delim },
                Command::Lsfcmapprogress {
                    map: own,
                    delim: parted,
                },
            ) => { map.is_same(own) && delim.is_same(parted) }
            (
                Command::Lsfcmapdependentmaps { map, delim },
                Command::Lsfcmapdependentmaps {
                    map: own,
                    delim: parted,
                },
            ) => { map.is_same(own) && delim.is_same(parted) }
            (
                Command::Mkpreset {
                    source,
                    preset,
                    name,
                },
                Command::Mkpreset {
                    source: own,
                    preset: meant,
                    name: named,
                },
            ) => { source.is_same(own) && preset == meant && name.is_same(named) }
            (Command::Lsvdiskroom { delim }, Command::Lsvdiskroom { delim: parted }) => {
                delim.is_same(parted)
            }
            _ => false,
        }
    }
}
