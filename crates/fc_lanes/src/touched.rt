//! The grains that blocks touch, and the blocks in each of them.

ghost use Rattle.std.specs.Prelude.{◌≡◌, ◌+◌, ◌-◌, ◌*◌, ◌<◌};
ghost use Rattle.fc_base.specs.Grain.{grain_blocks};
ghost use Rattle.fc_entry.specs.Picture.{grain_of_block};
ghost use Rattle.fc_legal.specs.Asked.{end_in, first_in};

use fc_base::size::GrainSize;

/// The first and the last of the grains that one block or more touch.
pub fn touched_grains(size: GrainSize, block: u32, count: u32) -> (u32, u32)
    requires { 0 < count }
    ensures first { result.0 ≡ grain_of_block size block }
    ensures last { result.1 ≡ grain_of_block size (block + count - 1) }
{
    let blocks = size.blocks();
    let last = (block as u64 + count as u64 - 1) / blocks as u64;
    (block / blocks, last as u32)
}

/// Of some blocks those in a grain that they touch: the first of them, and how many.
pub fn blocks_in(size: GrainSize, block: u32, count: u32, grain: u32) -> (u64, u32)
    requires begins { block < (grain + 1) * grain_blocks size }
    requires ends { grain * grain_blocks size < block + count }
    ensures first { result.0 ≡ first_in size block grain }
    ensures count { result.1 ≡ end_in size (block + count) grain - result.0 }
{
    let blocks = size.blocks() as u64;
    let first = (block as u64).max(grain as u64 * blocks);
    let end = (block as u64 + count as u64).min((grain as u64 + 1) * blocks);
    (first, (end - first) as u32)
}
