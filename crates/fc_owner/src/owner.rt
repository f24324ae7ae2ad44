//! The one owner of the store: cuts the lines into single ones and blocks, and has them answered.

ghost use Rattle.std.specs.Prelude.{◌≡◌, ◌≤◌, ℕ, List, [], ◌∷◌, length};
ghost use Rattle.fc_base.specs.declared.command.Scope.TheVariants.{Free};
ghost use Rattle.fc_blocks.specs.Reading.{script_line};
ghost use Rattle.fc_blocks.specs.Segments.{single};
ghost use Rattle.fc_lanes.specs.Dealing.{disks_in};
ghost use Rattle.fc_legal.specs.Added.{Answered, IsTold, StaysUp, TellsSome};
ghost use Rattle.fc_legal.specs.Agenda.{Session, session_rules};
ghost use Rattle.fc_legal.specs.Whole.{Whole};
ghost use Rattle.fc_stands.specs.Quiet.{QuietBy};
ghost use Rattle.fc_stands.specs.Store.{StandsFor, StoreView};
ghost use Rattle.fc_owner.specs.Reading.{reading};
ghost use Rattle.fc_owner.specs.StoreRuns.{CanRun, IsBlockRun, RunsBlocks, Start, store_runs};
ghost use Rattle.fc_words.specs.Lines.{line_of};

use fc_base::command::ScriptLine;
use fc_base::outcome::NoMemory;
use fc_blocks::block::{BlockRead, Taken};
use fc_blocks::reader::BlockReader;
use fc_entry::history::History;
use fc_entry::stop::Stop;
use fc_mdisk::mdisk::Mdisk;
use fc_preset::answer_line;
use fc_run::answers::Answers;
use fc_store::store::Store;
use std::alloc::Global;

/// A store as its owner knows it, over disks of any kind.
pub trait SingleLines {
    /// What contracts see of it.
    ghost view: { Self → StoreView };

    /// Answers a single line, as it was read: its entries at the history's end, or none. Stopped, the first of them are
    /// there; but for want of memory the store goes on to stand for what is told.
    fn answer(&mut self, line: ScriptLine, history: &mut History) -> Result<(), Stop>
        requires stands { TellsSome (StandsFor (view self.old)) history.old }
        requires room { length history.old.entries ≤ 262144 }
        ensures answered { (bytes : List ℕ) (w : Whole) → line ≡ script_line (line_of Free bytes)
            → IsTold (StandsFor (view self.old)) history.old w
            → Answered result (StandsFor (view self.new)) (session_rules (view self.old).control.grain reading)
            (Session (single bytes ∷ [])) w history.old history.new }
        ensures grain { (view self.new).control.grain ≡ (view self.old).control.grain }
        ensures disks { disks_in (view self.new).lanes ≡ disks_in (view self.old).lanes }
        ensures quiet { QuietBy history.old.entries (view self.old)
            → StaysUp result (QuietBy history.new.entries (view self.new)) }
        ensures limit { length history.new.entries ≤ 262144 };
}

impl<D: Mdisk> SingleLines for Store<D> {
    ghost view = { λ store. store };

    fn answer(&mut self, line: ScriptLine, history: &mut History) -> Result<(), Stop> {
        match line {
            ScriptLine::Read(line) => answer_line(self, line, history),
            ScriptLine::Unread(fault) => self.push_unread(fault, history),
        }
    }
}

/// Has a block run.
fn run_one<S: SingleLines, F: Fn(&mut S, BlockRead, &mut History) -> Result<(), Stop>>(
    run: &F,
    store: &mut S,
    block: BlockRead,
    history: &mut History,
) -> Result<(), Stop>
    requires able { RunsBlocks S.view (F.pre run.now) (F.post run.now) }
    requires can { CanRun (S.view store.old) history.old block }
    ensures ran { IsBlockRun result (S.view store.old) (S.view store.new) block history.old history.new }
{
    run(store, block, history)
}

/// A store under one owner, with the reader of its lines. How a block is run he is told by a closure: the threads of its
/// actors, their gate and the kind of the disks are known where that is made.
#[derive(Drop)]
pub struct Owner<S, F> {
    /// The allocator.
    pub alloc: Global,
    /// The reader of the lines.
    pub reader: BlockReader,
    /// The store.
    pub store: S,
    /// Runs a block over the store.
    pub run: F,
}

impl<S: SingleLines, F: Fn(&mut S, BlockRead, &mut History) -> Result<(), Stop>> Answers
    for Owner<S, F> {
    ghost Start = { Start };

    ghost runs = { λ owner start. store_runs (RunsBlocks S.view (F.pre owner.run) (F.post owner.run)) owner.reader (S.view owner.store) start };

    fn line(&mut self, line: &[u8], history: &mut History) -> Result<(), Stop> {
        match self.reader.read(self.alloc, line) {
            Ok(Taken::Single(line)) => self.store.answer(line, history),
            Ok(Taken::Nothing) => Ok(()),
            Ok(Taken::Block(block)) => run_one(&self.run, &mut self.store, block, history),
            Err(NoMemory) => Err(Stop::NoMemory),
        }
    }

    fn is_open(&self) -> bool {
        self.reader.is_open()
    }
}
