//! What one grain of a plain volume holds.

ghost use Rattle.std.specs.Prelude.{◌≡◌, ◌*◌, ◌≤◌, IfOk, IfSome, length, map, option_copied, option_map, replicate};
ghost use Rattle.fc_base.specs.Grain.{block_bytes};
ghost use Rattle.fc_entry.specs.Picture.{Bytes, Lost, is_lost, written, zeros};
ghost use Rattle.fc_check_picture.specs.Blocks.{content_of, part_of};

use crate::blocks::{Blocks, front_of, rest_of};
use crate::mark::Mark;
use fc_base::outcome::NoMemory;
use fc_base::size::GrainSize;
use std::alloc::Global;
use std::marker::Model;

/// What a grain holds: the marks of its blocks, or nothing that can be read.
#[derive(Drop)]
pub(crate) struct Grain<M: Mark> {
    blocks: Option<Blocks<M>>,
}

impl<M: Mark> Model for Grain<M> {
    ghost use Rattle.fc_entry.specs.Picture.{Content};
    ghost use Rattle.fc_check_picture.specs.Blocks.{content_of};

    ghost Value = { Content };

    ghost view = { λ g. content_of g.blocks };
}

impl<M: Mark> Grain<M> {
    /// A grain of so many blocks with one mark.
    fn filled(alloc: Global, mark: M, count: usize) -> Result<Grain<M>, NoMemory>
        ensures { IfOk result (λ grain. grain ≡ Bytes (replicate (block_bytes * count) (M.number mark))) }
    {
        let blocks = Blocks::filled(alloc, mark, count)?;
        Ok(Grain {
            blocks: Some(blocks),
        })
    }

    /// A grain that no write has reached.
    pub(crate) fn zeros(alloc: Global, size: GrainSize) -> Result<Grain<M>, NoMemory>
        ensures { IfOk result (λ grain. grain ≡ zeros size) }
    {
        Grain::filled(alloc, M::zero(), size.blocks() as usize)
    }

    /// A grain that was lost.
    pub(crate) fn lost() -> Grain<M>
        ensures { result ≡ Lost }
    {
        Grain { blocks: None }
    }

    /// Another grain like it.
    pub(crate) fn copy(&self, alloc: Global) -> Result<Grain<M>, NoMemory>
        ensures { IfOk result (λ grain. grain ≡ self.now) }
    {
        match &self.blocks {
            Some(blocks) => {
                let blocks = blocks.copy(alloc)?;
                Ok(Grain {
                    blocks: Some(blocks),
                })
            }
            None => Ok(Grain::lost()),
        }
    }

    /// What it holds after `count` blocks were written with one mark from the block `from` on; a lost grain is
    /// written whole.
    pub(crate) fn after_write(
        &self,
        alloc: Global,
        from: usize,
        count: usize,
        mark: M,
    ) -> Result<Grain<M>, NoMemory>
        ensures { IfOk result (λ grain. grain ≡ written (block_bytes * from) (block_bytes * count) (M.number mark) self.now) }
    {
        match &self.blocks {
            Some(blocks) => {
                let blocks = blocks.with(alloc, from, count, mark)?;
                Ok(Grain {
                    blocks: Some(blocks),
                })
            }
            None => Grain::filled(alloc, mark, count),
        }
    }

    /// Whether it was lost.
    pub(crate) fn is_lost(&self) -> bool
        ensures { result ≡ is_lost self.now }
    {
        self.blocks.is_none()
    }

    /// The marks of `count` of its blocks from the block `from` on, or of fewer where it has fewer; None where it
    /// was lost.
    pub(crate) fn part(&self, from: usize, count: usize) -> Option<&[M]>
        ensures marks { content_of (option_map (map M.number) (option_copied result)) ≡ part_of (block_bytes * from) (block_bytes * count) self.now }
        ensures within { IfSome result (λ marks. length marks.now ≤ count) }
    {
        match &self.blocks {
            Some(blocks) => Some(front_of(rest_of(blocks.as_slice(), from), count)),
            None => None,
        }
    }
}
