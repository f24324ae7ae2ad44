//! Marked grains as ranges.

ghost use Rattle.std.specs.Prelude.{◌≡◌, ℕ, ◌<◌, ◌^◌, IfOk, length, true, false, slice_index_or};
ghost use Rattle.fc_base.specs.Ranges.{is_kept};
ghost use Rattle.fc_check_sheet.specs.Runs.{NextMarked, IsRunEnd};

use fc_base::outcome::NoMemory;
use fc_base::ranges::{Range, Ranges};
use std::alloc::Global;

/// The first marked grain from this one on.
fn next_marked(marks: &[bool], from: usize) -> Option<usize>
    ensures { NextMarked marks.now from result }
{
    for grain in from..marks.len() {
        if marks[grain] {
            return Some(grain);
        }
    }
    None
}

/// The grain behind those that are marked from this one on without a gap.
fn run_end(marks: &[bool], first: usize) -> usize
    requires { slice_index_or marks.now first false ≡ true }
    ensures { IsRunEnd marks.now first result }
{
    for grain in first..marks.len() {
        if !marks[grain] {
            return grain;
        }
    }
    marks.len()
}

/// The marked grains, as ranges.
pub(crate) fn ranges_of(alloc: Global, marks: &[bool]) -> Result<Ranges, NoMemory>
    requires { length marks.now < 2 ^ 32 }
    ensures { IfOk result (λ ranges. (g : ℕ) → is_kept ranges g ≡ slice_index_or marks.now g false) }
{
    let mut ranges = Ranges::new(alloc);
    let mut from = 0;
    while let Some(first) = next_marked(marks, from) {
        from = run_end(marks, first);
        ranges.push(Range {
            first: first as u32,
            last: (from - 1) as u32,
        })?;
    }
    Ok(ranges)
}
