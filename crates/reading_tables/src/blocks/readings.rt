//! What the lines of a session are read as: one part for each single line and for each block, in order, with `; ` between.
//!
//! A single line is its canonical form, or its fault as the manual words it, or `blank`. A block is `{FAULTS | ACTOR | ..}`:
//! the faults that `main` is told of, and each actor as its name, its role and its lines. Behind all lines `open` says that
//! a block is open.

use fc_base::command::{Line, ScriptLine};
use fc_blocks::block::{ActorRead, BlockRead, Taken};
use fc_blocks::reader::BlockReader;
use std::alloc::{AllocError, Global};
use tables::wording::{command_text, fault_text, role_text};

/// A text that grows, in parts.
#[derive(Drop)]
struct Text {
    bytes: Vec<u8>,
}

impl Text {
    /// Adds bytes.
    fn add(&mut self, bytes: &[u8]) -> Result<(), AllocError> {
        self.bytes.extend_from_slice(bytes)
    }

    /// Begins a part: what stands between parts comes before each but the first.
    fn part(&mut self, first: bool, between: &[u8]) -> Result<(), AllocError> {
        if first { Ok(()) } else { self.add(between) }
    }

    /// Adds a line, as it was read.
    fn add_line(&mut self, alloc: Global, line: &ScriptLine) -> Result<(), AllocError> {
        match line {
            ScriptLine::Read(Line::Blank) => self.add(b"blank"),
            ScriptLine::Read(Line::Command(command)) => {
                let text = command_text(alloc, command)?;
                self.add(text.as_slice())
            }
            ScriptLine::Read(Line::Together) => self.add(b"together"),
            ScriptLine::Read(Line::Actor { name, role }) => {
                self.add(b"actor ")?;
                self.add(name.as_bytes())?;
                self.add(b" ")?;
                self.add(role_text(alloc, *role)?.as_bytes())
            }
            ScriptLine::Read(Line::End) => self.add(b"end"),
            ScriptLine::Unread(fault) => self.add(fault_text(alloc, *fault)?.as_bytes()),
        }
    }

    /// Adds an actor: its name and role, and behind a colon its lines.
    fn add_actor(&mut self, alloc: Global, actor: &ActorRead) -> Result<(), AllocError> {
        self.add(actor.name.as_bytes())?;
        self.add(b" ")?;
        self.add(role_text(alloc, actor.role)?.as_bytes())?;
        let mut first = true;
        for line in actor.lines.as_slice() {
            let between: &[u8] = if first { b": " } else { b", " };
            self.add(between)?;
            self.add_line(alloc, line)?;
            first = false;
        }
        Ok(())
    }

    /// Adds a block.
    fn add_block(&mut self, alloc: Global, block: &BlockRead) -> Result<(), AllocError> {
        self.add(b"{")?;
        let mut first = true;
        for fault in block.faults.as_slice() {
            self.part(first, b", ")?;
            self.add(fault_text(alloc, *fault)?.as_bytes())?;
            first = false;
        }
        for actor in block.actors.as_slice() {
            self.add(b" | ")?;
            self.add_actor(alloc, actor)?;
        }
        self.add(b"}")
    }
}

/// Reads one more line, and adds what has ended with it. Answers whether anything has.
fn read_on(
    alloc: Global,
    reader: &mut BlockReader,
    line: &[u8],
    first: bool,
    text: &mut Text,
) -> Result<bool, AllocError> {
    match reader.read(alloc, line) {
        Ok(Taken::Single(read)) => {
            text.part(first, b"; ")?;
            text.add_line(alloc, &read)?;
            Ok(true)
        }
        Ok(Taken::Nothing) => Ok(false),
        Ok(Taken::Block(block)) => {
            text.part(first, b"; ")?;
            text.add_block(alloc, &block)?;
            Ok(true)
        }
        Err(_) => Err(AllocError),
    }
}

/// What the lines are read as.
pub fn reading_of(alloc: Global, lines: &[Vec<u8>]) -> Result<Vec<u8>, AllocError> {
    let mut reader = BlockReader::new();
    let mut text = Text {
        bytes: Vec::new(alloc),
    };
    let mut first = true;
    for line in lines {
        if read_on(alloc, &mut reader, line.as_slice(), first, &mut text)? {
            first = false;
        }
    }
    if reader.is_open() {
        text.part(first, b"; ")?;
        text.add(b"open")?;
    }
    Ok(text.bytes)
}
