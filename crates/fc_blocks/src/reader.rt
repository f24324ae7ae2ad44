//! The reader of blocks: it takes a session's lines one after the other, and says of each what it was.

ghost use Rattle.std.specs.Prelude.{◌≡◌, ◌++◌, ◌∷◌, [], ℕ, List, None, Some, IfOk, OnErr, is_some};
ghost use Rattle.fc_base.specs.declared.command.Scope.TheVariants.{Free};
ghost use Rattle.fc_blocks.specs.Reading.{IsNext, Tells};
ghost use Rattle.fc_blocks.specs.Segments.{cut, line_cut};

use crate::block::Taken;
use crate::open_block::OpenBlock;
use fc_base::command::{Line, Scope, ScriptLine};
use fc_base::outcome::NoMemory;
use fc_words::line::read_line;
use fc_words::refused::WordRefused;
use std::alloc::Global;
use std::marker::Model;
use std::mem;

/// The reader of blocks. Contracts see the block that is open.
#[derive(Drop)]
pub struct BlockReader {
    open_block: Option<OpenBlock>,
}

impl Model for BlockReader {
    ghost use Rattle.std.specs.Prelude.{Option};
    ghost use Rattle.fc_blocks.specs.Blocks.{Opened};

    ghost Value = { Option Opened };

    ghost view = { λ r. r.open_block };
}

impl BlockReader {
    /// A reader before the first line. Takes no memory.
    pub fn new() -> BlockReader
        ensures { result ≡ None }
    {
        BlockReader { open_block: None }
    }

    /// Whether a block is open. At the end of the lines it is left out.
    pub fn is_open(&self) -> bool
        ensures { result ≡ is_some self.now }
    {
        self.open_block.is_some()
    }

    /// Takes the next line, without its end. Answers what it was: a line outside of blocks, nothing yet, or the end of a
    /// block, with all of the block. Refused, the reader is as it was, as if the line hadn't come. (docs/RULES.md,
    /// "Together-blocks".)
    pub fn read(&mut self, alloc: Global, line: &[u8]) -> Result<Taken, NoMemory>
        ensures ok { (lines : List (List ℕ)) → (cut lines).open_block ≡ self.old →
            IfOk result (λ taken. IsNext taken self.old self.new lines line.now) }
        ensures err { OnErr result (self.new ≡ self.old) }
    {
        self.read_one(alloc, line)
    }

    /// Leaves this block open, or none.
    fn leave(&mut self, open_block: Option<OpenBlock>)
        ensures { self.new ≡ open_block }
    {
        drop(mem::replace(&mut self.open_block, open_block));
    }

    /// Takes the next line.
    #[tactic(auto, unfolding(crate::specs::Segments::line_cut))]
    fn read_one(&mut self, alloc: Global, line: &[u8]) -> Result<Taken, NoMemory>
        ensures ok { IfOk result (λ taken. Tells taken line.now (line_cut self.old line.now).segments) }
        ensures left { IfOk result (λ _. self.new ≡ (line_cut self.old line.now).open_block) }
        ensures err { OnErr result (self.new ≡ self.old) }
    {
        match &mut self.open_block {
            None => self.read_outside(alloc, line),
            Some(block) => {
                if !block.read(alloc, line)? {
                    return Ok(Taken::Nothing);
                }
                let block = block.close(alloc)?;
                self.leave(None);
                Ok(Taken::Block(block))
            }
        }
    }

    /// Takes a line while no block is open.
    #[tactic(auto, unfolding(crate::specs::Segments::line_cut))]
    fn read_outside(&mut self, alloc: Global, line: &[u8]) -> Result<Taken, NoMemory>
        requires { self.old ≡ None }
        ensures ok { IfOk result (λ taken. Tells taken line.now (line_cut None line.now).segments) }
        ensures left { IfOk result (λ _. self.new ≡ (line_cut None line.now).open_block) }
        ensures err { OnErr result (self.new ≡ self.old) }
    {
        match read_line(alloc, line, Scope::Free) {
            Ok(Line::Together) => {
                self.leave(Some(OpenBlock::new(alloc)));
                Ok(Taken::Nothing)
            }
            Ok(other) => Ok(Taken::Single(ScriptLine::Read(other))),
            Err(WordRefused::Fault(fault)) => Ok(Taken::Single(ScriptLine::Unread(fault))),
            Err(WordRefused::NoMemory) => Err(NoMemory),
        }
    }
}
