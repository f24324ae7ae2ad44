//! What some blocks hold.

ghost use Rattle.std.specs.Prelude.{◌≡◌, ◌++◌, IfOk, OnOk, take, drop, map, replicate};

use crate::mark::Mark;
use fc_base::outcome::NoMemory;
use std::alloc::Global;
use std::marker::Model;

/// Blocks, as the mark of each.
#[derive(Drop)]
pub(crate) struct Blocks<M: Mark> {
    marks: Vec<M>,
}

impl<M: Mark> Model for Blocks<M> {
    ghost use Rattle.std.specs.Prelude.{ℕ, List, map};

    ghost Value = { List ℕ };

    ghost view = { λ b. map M.number b.marks.items };
}

/// So many equal marks.
fn equal_marks<M: Mark>(alloc: Global, mark: M, count: usize) -> Result<Vec<M>, NoMemory>
    ensures { IfOk result (λ marks. marks.items ≡ replicate count mark) }
{
    let mut marks = Vec::new(alloc);
    match marks.resize(count, mark) {
        Ok(()) => Ok(marks),
        Err(_) => Err(NoMemory),
    }
}

/// Puts marks at the end.
fn append<M: Mark>(marks: &mut Vec<M>, more: &[M]) -> Result<(), NoMemory>
    ensures { OnOk result (marks.new.items ≡ marks.old.items ++ more.now) }
{
    match marks.extend_from_slice(more) {
        Ok(()) => Ok(()),
        Err(_) => Err(NoMemory),
    }
}

/// These marks with one mark in place of `count` of them, from the one `from` on.
fn marked<M: Mark>(
    alloc: Global,
    old: &[M],
    from: usize,
    count: usize,
    mark: M,
) -> Result<Vec<M>, NoMemory>
    ensures { IfOk result (λ marks. marks.items ≡ take from old.now ++ replicate count mark ++ drop count (drop from old.now)) }
{
    let middle = equal_marks(alloc, mark, count)?;
    let mut marks = Vec::new(alloc);
    append(&mut marks, front_of(old, from))?;
    append(&mut marks, middle.as_slice())?;
    append(&mut marks, rest_of(rest_of(old, from), count))?;
    Ok(marks)
}

/// The first so many marks, or all where there are fewer.
pub(crate) fn front_of<M: Mark>(marks: &[M], count: usize) -> &[M]
    ensures { result.now ≡ take count marks.now }
{
    if count < marks.len() {
        &marks[..count]
    } else {
        marks
    }
}

/// What is behind the first so many marks.
pub(crate) fn rest_of<M: Mark>(marks: &[M], count: usize) -> &[M]
    ensures { result.now ≡ drop count marks.now }
{
    if count < marks.len() {
        &marks[count..]
    } else {
        &[]
    }
}

impl<M: Mark> Blocks<M> {
    /// So many blocks with one mark.
    pub(crate) fn filled(alloc: Global, mark: M, count: usize) -> Result<Blocks<M>, NoMemory>
        ensures { IfOk result (λ blocks. blocks ≡ replicate count (M.number mark)) }
    {
        let marks = equal_marks(alloc, mark, count)?;
        Ok(Blocks { marks })
    }

    /// Other blocks like these.
    pub(crate) fn copy(&self, alloc: Global) -> Result<Blocks<M>, NoMemory>
        ensures { IfOk result (λ blocks. blocks ≡ self.now) }
    {
        match Vec::from_slice(alloc, self.marks.as_slice()) {
            Ok(marks) => Ok(Blocks { marks }),
            Err(_) => Err(NoMemory),
        }
    }

    /// The mark of each block.
    pub(crate) fn as_slice(&self) -> &[M]
        ensures { map M.number result.now ≡ self.now }
    {
        self.marks.as_slice()
    }

    /// These blocks with one mark in `count` of them from the block `from` on.
    pub(crate) fn with(
        &self,
        alloc: Global,
        from: usize,
        count: usize,
        mark: M,
    ) -> Result<Blocks<M>, NoMemory>
        ensures { IfOk result (λ blocks. blocks ≡ take from self.now ++ replicate count (M.number mark) ++ drop count (drop from self.now)) }
    {
        let marks = marked(alloc, self.marks.as_slice(), from, count, mark)?;
        Ok(Blocks { marks })
    }
}
