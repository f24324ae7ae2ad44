//! Whether a request may have its reply, by plain volumes.

use crate::made::Made;
use crate::verdict::{Halt, Why};
use fc_base::command::Command;
use fc_base::fault::{Kind, Refusal, WordFault};
use fc_base::ids::{GrainNo, MapId};
use fc_base::limits::LANES;
use fc_base::name::Ref;
use fc_base::request::{ReadPart, Reply, Request, WritePart};
use fc_entry::entry::Entry;
use fc_plain::{Plain, PlainRead};

/// The blocks of a grain, and no request has more.
const MOST_BLOCKS: u32 = 512;

/// A fact, or why the entry isn't right without it.
fn needs(fact: bool, why: Why) -> Result<(), Halt> {
    if fact { Ok(()) } else { Err(Halt::Wrong(why)) }
}

/// A read gives what plain volumes hold, and a medium error only of a lost grain.
fn read_fits(plain: &Plain, part: ReadPart, reply: &Reply) -> Result<(), Halt> {
    let held = plain.read(part.volume, part.block, part.count.min(MOST_BLOCKS))?;
    match (reply, &held) {
        (Reply::Bytes(runs), PlainRead::Bytes(held)) => {
            needs(runs.as_slice() == held.as_slice(), Why::Bytes)
        }
        (Reply::Bytes(_), _) => Err(Halt::Wrong(Why::Bytes)),
        (Reply::MediumError, PlainRead::Lost) => Ok(()),
        (Reply::MediumError, _) => Err(Halt::Wrong(Why::NotLost)),
        _ => needs(is_failed_access(reply), Why::Reply),
    }
}

/// A write of a part of a lost grain isn't done, and a medium error only there.
fn write_fits(plain: &Plain, made: &Made, part: WritePart, reply: &Reply) -> Result<(), Halt> {
    let held = plain.read(part.volume, part.block, part.count.min(MOST_BLOCKS))?;
    let is_lost = match &held {
        PlainRead::Lost => part.count < made.grain().blocks(),
        _ => false,
    };
    match reply {
        Reply::Done => needs(!is_lost, Why::WriteOfLost),
        Reply::MediumError => needs(is_lost, Why::NotLost),
        _ => needs(is_failed_access(reply), Why::Reply),
    }
}

/// Whether an access of a grain that wasn't done may be answered so, whatever volumes hold.
fn is_failed_access(reply: &Reply) -> bool {
    match reply {
        Reply::Offline { .. } | Reply::NotAccessible { .. } | Reply::DiskFault | Reply::NoMemory =>
            true,
        _ => false,
    }
}

/// A grain is copied or cleaned as it was asked, or a disk fails, or there is no memory.
fn fill_fits(map: MapId, grain: GrainNo, reply: &Reply) -> Result<(), Halt> {
    let fits = match reply {
        Reply::Moved {
            map: moved,
            grain: at,
        } => *moved == map && *at == grain,
        Reply::DiskFault | Reply::NoMemory => true,
        _ => false,
    };
    needs(fits, Why::Reply)
}

/// A worker's turn moves a grain of its lane or finds none, or a disk fails, or there is no memory.
fn turn_fits(lane: u8, reply: &Reply) -> Result<(), Halt> {
    let fits = match reply {
        Reply::Moved { grain, .. } => grain.0 % LANES == u32::from(lane),
        Reply::Idle | Reply::DiskFault | Reply::NoMemory => true,
        _ => false,
    };
    needs(fits, Why::Reply)
}

/// A faulty line is refused for its fault.
fn unread_fits(fault: WordFault, reply: &Reply) -> Result<(), Halt> {
    let fits = match reply {
        Reply::Refused(Refusal::Words(told)) => *told == fault,
        _ => false,
    };
    needs(fits, Why::Reply)
}

/// Whether two reasons to refuse an access are the same.
fn are_same(one: &Refusal, other: &Refusal) -> bool {
    match (one, other) {
        (Refusal::NoSuch(kind), Refusal::NoSuch(told)) => *kind == *told,
        (Refusal::Limit(limit), Refusal::Limit(told)) => *limit == *told,
        (Refusal::BadValue(value), Refusal::BadValue(told)) => *value == *told,
        _ => false,
    }
}

/// An access that stands as a command is refused, for what volumes say.
fn refused_fits(
    made: &Made,
    volume: &Ref,
    block: u32,
    count: u32,
    reply: &Reply,
) -> Result<(), Halt> {
    let fits = match (made.accessed(volume, block, count), reply) {
        (Err(refusal), Reply::Refused(told)) => are_same(&refusal, told),
        _ => false,
    };
    needs(fits, Why::Reply)
}

/// A preset that stands as a command is refused, since its source names no volume.
fn preset_fits(made: &Made, source: &Ref, reply: &Reply) -> Result<(), Halt> {
    let fits = match reply {
        Reply::Refused(Refusal::NoSuch(Kind::Vdisk)) => made.volumes.named(source).is_none(),
        _ => false,
    };
    needs(fits, Why::Reply)
}

/// Any other command is done, makes its object, or tells its rows, or it is refused, or there is no memory. Which object it is
/// is judged with what was made.
fn command_fits(made: &Made, command: &Command, reply: &Reply) -> Result<(), Halt> {
    let fits = match (command, reply) {
        (
            Command::Read {
                volume,
                block,
                count,
            },
            _,
        )
        | (
            Command::Write {
                volume,
                block,
                count,
                ..
            },
            _,
        ) => return refused_fits(made, volume, *block, *count, reply),
        (Command::Mkpreset { source, .. }, _) => return preset_fits(made, source, reply),
        (_, Reply::Refused(Refusal::Words(_))) => false,
        (_, Reply::Refused(_) | Reply::NoMemory) => true,
        (
            Command::Mkvdisk { .. } | Command::Mkfcmap { .. } | Command::Mkfcconsistgrp { .. },
            Reply::Made { .. },
        ) => true,
        (Command::Mkvdisk { .. } | Command::Mkfcmap { .. } | Command::Mkfcconsistgrp { .. }, _) =>
            false,
        (
            Command::Lsfcmap { .. }
            | Command::Lsfcconsistgrp { .. }
            | Command::Lsvdisk { .. }
            | Command::Lsfcmapprogress { .. }
            | Command::Lsfcmapdependentmaps { .. }
            | Command::Lsvdiskroom { .. },
            Reply::Listed(_),
        ) => true,
        (
            Command::Lsfcmap { .. }
            | Command::Lsfcconsistgrp { .. }
            | Command::Lsvdisk { .. }
            | Command::Lsfcmapprogress { .. }
            | Command::Lsfcmapdependentmaps { .. }
            | Command::Lsvdiskroom { .. },
            _,
        ) => false,
        (_, Reply::Done) => true,
        _ => false,
    };
    needs(fits, Why::Reply)
}

/// Whether an entry's request may have its reply, after what plain volumes hold and what was made before it.
pub(crate) fn reply_fits(plain: &Plain, made: &Made, entry: &Entry) -> Result<(), Halt> {
    let reply = &entry.reply;
    match &entry.request {
        Request::Command(command) => command_fits(made, command, reply),
        Request::Unread(fault) => unread_fits(*fault, reply),
        Request::Read(part) => read_fits(plain, *part, reply),
        Request::Write(part) => write_fits(plain, made, *part, reply),
        Request::Copy { map, grain } | Request::Clean { map, grain } => {
            fill_fits(*map, *grain, reply)
        }
        Request::CopyTurn { lane } | Request::CleanTurn { lane } => turn_fits(*lane, reply),
    }
}
