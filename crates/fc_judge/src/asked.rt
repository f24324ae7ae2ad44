//! What the lines of a session and the workers of a block ask.

use crate::made::Made;
use fc_base::command::{Command, Line, Role, ScriptLine};
use fc_base::fault::WordFault;
use fc_base::ids::VolId;
use fc_base::limits::LANES;
use fc_base::name::Ref;
use fc_base::outcome::NoMemory;
use fc_base::request::{ReadPart, Request, WritePart};
use fc_blocks::block::ActorRead;
use fc_entry::command_text::put_command;
use fc_io::mem_sink::MemSink;
use std::alloc::Global;

/// What is asked.
#[derive(Clone, Copy)]
pub(crate) enum Asked<'a> {
    /// A command; of an access or a preset, one that is refused.
    Command(&'a Command),
    /// The command with this canonical line.
    Line(&'a [u8]),
    /// A faulty line is told.
    Unread(WordFault),
    /// Blocks of one grain are read.
    Read(ReadPart),
    /// Blocks of one grain are written.
    Write(WritePart),
    /// A copier has its turn in this lane.
    CopyTurn(u8),
    /// A cleaner has its turn in this lane.
    CleanTurn(u8),
}

/// Whether two commands have one canonical line.
fn are_same(alloc: Global, one: &Command, other: &Command) -> Result<bool, NoMemory> {
    let mut line = MemSink::new(alloc, Vec::new(alloc));
    if put_command(one, &mut line).is_err() {
        return Err(NoMemory);
    }
    has_line(alloc, other, line.bytes())
}

/// Whether a command has this canonical line.
fn has_line(alloc: Global, command: &Command, line: &[u8]) -> Result<bool, NoMemory> {
    let mut own = MemSink::new(alloc, Vec::new(alloc));
    if put_command(command, &mut own).is_err() {
        return Err(NoMemory);
    }
    Ok(own.bytes() == line)
}

impl Asked<'_> {
    /// Whether it is this request.
    pub(crate) fn is(self, alloc: Global, request: &Request) -> Result<bool, NoMemory> {
        match (self, request) {
            (Asked::Command(asked), Request::Command(command)) => are_same(alloc, asked, command),
            (Asked::Line(asked), Request::Command(command)) => has_line(alloc, command, asked),
            (Asked::Unread(asked), Request::Unread(fault)) => Ok(asked == *fault),
            (Asked::Read(asked), Request::Read(part)) => Ok(asked == *part),
            (Asked::Write(asked), Request::Write(part)) => Ok(asked == *part),
            (Asked::CopyTurn(asked), Request::CopyTurn { lane }) => Ok(asked == *lane),
            (Asked::CleanTurn(asked), Request::CleanTurn { lane }) => Ok(asked == *lane),
            _ => Ok(false),
        }
    }
}

/// What is asked, in order.
#[derive(Drop)]
pub(crate) struct AskedList<'a> {
    items: Vec<Asked<'a>>,
}

impl<'a> AskedList<'a> {
    /// Nothing is asked.
    pub(crate) fn nothing(alloc: Global) -> AskedList<'a> {
        AskedList {
            items: Vec::new(alloc),
        }
    }

    /// All that is asked.
    pub(crate) fn as_slice(&self) -> &[Asked<'a>] {
        self.items.as_slice()
    }

    /// One more is asked.
    fn push(&mut self, asked: Asked<'a>) -> Result<(), NoMemory> {
        match self.items.push(asked) {
            Ok(()) => Ok(()),
            Err(_) => Err(NoMemory),
        }
    }

    /// What a line asks: an access one request for each grain, or itself where it is refused; any other command itself.
    pub(crate) fn add_line(&mut self, made: &Made, line: &'a ScriptLine) -> Result<(), NoMemory> {
        match line {
            ScriptLine::Read(Line::Blank) => Ok(()),
            ScriptLine::Read(Line::Command(command)) => self.add_command(made, command),
            ScriptLine::Read(_) => self.push(Asked::Unread(WordFault::UnknownCommand)),
            ScriptLine::Unread(fault) => self.push(Asked::Unread(*fault)),
        }
    }

    /// What a command asks.
    fn add_command(&mut self, made: &Made, command: &'a Command) -> Result<(), NoMemory> {
        match command {
            Command::Read {
                volume,
                block,
                count,
            } => self.add_access(made, command, volume, *block, *count, None),
            Command::Write {
                volume,
                block,
                count,
                byte,
            } => self.add_access(made, command, volume, *block, *count, Some(*byte)),
            _ => self.push(Asked::Command(command)),
        }
    }

    /// What an access asks: a write of a byte, or a read.
    fn add_access(
        &mut self,
        made: &Made,
        command: &'a Command,
        volume: &Ref,
        block: u32,
        count: u32,
        byte: Option<u8>,
    ) -> Result<(), NoMemory> {
        match made.accessed(volume, block, count) {
            Ok(volume) => {
                let grain = u64::from(made.grain().blocks());
                self.add_parts(grain, volume, u64::from(block), u64::from(count), byte)
            }
            Err(_) => self.push(Asked::Command(command)),
        }
    }

    /// The parts of blocks in grains of so many blocks, rising.
    fn add_parts(
        &mut self,
        grain: u64,
        volume: VolId,
        block: u64,
        count: u64,
        byte: Option<u8>,
    ) -> Result<(), NoMemory> {
        let mut first = block;
        let mut left = count;
        for _ in 0..count {
            if left == 0 {
                break;
            }
            let inside = first.checked_rem(grain).unwrap_or(0);
            let part = grain.saturating_sub(inside).min(left);
            self.push(part_asked(volume, first, part, byte))?;
            first = first.saturating_add(part);
            left = left.saturating_sub(part);
        }
        Ok(())
    }

    /// What an actor asks: hosts and administrators by their lines, workers for their turns, lane after lane.
    pub(crate) fn add_actor(&mut self, made: &Made, actor: &'a ActorRead) -> Result<(), NoMemory> {
        match actor.role {
            Role::Host | Role::Admin => {
                for line in actor.lines.as_slice() {
                    self.add_line(made, line)?;
                }
                Ok(())
            }
            Role::Copier(turns) => self.add_turns(turns, false),
            Role::Cleaner(turns) => self.add_turns(turns, true),
        }
    }

    /// So many turns of a copier or a cleaner, in the lanes 0, 1 and so on, and then in lane 0 again.
    fn add_turns(&mut self, turns: u32, cleans: bool) -> Result<(), NoMemory> {
        for number in 0..turns {
            let lane = (number % LANES) as u8;
            self.push(if cleans {
                Asked::CleanTurn(lane)
            } else {
                Asked::CopyTurn(lane)
            })?;
        }
        Ok(())
    }
}

/// A read of blocks of one grain; a write, where there is a byte.
fn part_asked<'a>(volume: VolId, block: u64, count: u64, byte: Option<u8>) -> Asked<'a> {
    let count = u32::try_from(count).unwrap_or(u32::MAX);
    match byte {
        Some(byte) => Asked::Write(WritePart {
            volume,
            block,
            count,
            byte,
        }),
        None => Asked::Read(ReadPart {
            volume,
            block,
            count,
        }),
    }
}
