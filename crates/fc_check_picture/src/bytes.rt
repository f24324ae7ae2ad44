//! Whether runs of bytes stand for blocks of bytes.

ghost use Rattle.std.specs.Prelude.{◌≡◌, ◌↔◌, ◌*◌, ◌<◌, ◌^◌, IfOk, IsTrue, map, length};
ghost use Rattle.fc_base.specs.Grain.{block_bytes};
ghost use Rattle.fc_base.specs.Runs.{expanded, IsCanonical};
ghost use Rattle.fc_check_picture.specs.Blocks.{filled, widened};

use fc_base::limits::BLOCK_BYTES;
use fc_base::outcome::NoMemory;
use fc_base::runs::{Run, Runs};
use std::alloc::Global;

/// Whether a run of bytes is this run of blocks.
fn is_widened(run: Run, blocks: Run) -> bool
    ensures { IsTrue result ↔ (run ≡ widened block_bytes blocks) }
{
    run.byte == blocks.byte
        && u64::from(run.count) == u64::from(blocks.count) * u64::from(BLOCK_BYTES)
}

/// Whether runs of bytes are these runs of blocks, one by one.
fn are_widened(runs: &[Run], blocks: &[Run]) -> bool
    ensures { IsTrue result ↔ (runs.now ≡ map (widened block_bytes) blocks.now) }
{
    if runs.len() != blocks.len() {
        return false;
    }
    for index in 0..runs.len() {
        if !is_widened(runs[index], blocks[index]) {
            return false;
        }
    }
    true
}

/// Whether runs stand for the bytes of these blocks.
pub(crate) fn stand_for(alloc: Global, blocks: &[u8], runs: &Runs) -> Result<bool, NoMemory>
    requires { length blocks.now < 2 ^ 32 }
    ensures { IfOk result (λ yes. IsTrue yes ↔ (IsCanonical runs.now × (expanded runs.now ≡ filled block_bytes blocks.now))) }
{
    let own = Runs::of(alloc, blocks)?;
    Ok(are_widened(runs.as_slice(), own.as_slice()))
}
