//! Whether an entry did all steps, nothing, or stopped at one.

ghost use Rattle.std.specs.Prelude.{◌≡◌, ◌↔◌, ℕ, IsTrue, IfOk, None};
ghost use Rattle.fc_base.specs.Count.{HasRisen};
ghost use Rattle.fc_rules.specs.LaneTold.{is_thin_in};
ghost use Rattle.fc_rules.specs.Spot.{Spot};
ghost use Rattle.fc_rules.specs.Steps.{HasDone, HasDoneNothing, HasFailed, HasNoMemory};

use crate::ends::{fails_somewhere, has_calls_of, has_moves_of, wants_somewhere};
use crate::step::Step;
use crate::volume::LaneVolume;
use fc_base::outcome::NoMemory;
use fc_entry::entry::Entry;
use std::alloc::Global;

/// Whether a count of faults rose, or stands at its last value.
pub fn has_risen(before: u64, after: u64) -> bool
    ensures { IsTrue result ↔ HasRisen before after }
{
    before < after || after == u64::MAX
}

/// Whether an entry did all steps.
pub fn has_done(alloc: Global, steps: &[Step], entry: &Entry) -> Result<bool, NoMemory>
    ensures { IfOk result (λ yes. IsTrue yes ↔ HasDone steps.now entry.now) }
{
    let moved = has_moves_of(alloc, steps, entry)?;
    Ok(moved && has_calls_of(steps, entry) && entry.torn.is_none())
}

/// Whether an entry did nothing.
pub fn has_done_nothing(entry: &Entry) -> bool
    ensures { IsTrue result ↔ HasDoneNothing entry.now }
{
    entry.moves.as_slice().is_empty() && entry.calls == 0 && entry.torn.is_none()
}

/// Whether an entry tore nothing.
fn is_untorn(entry: &Entry) -> bool
    ensures { IsTrue result ↔ (entry.now.torn ≡ None) }
{
    entry.torn.is_none()
}

/// Whether a call of a disk failed in one of these steps, which are of the grain with this number.
pub fn has_failed(
    alloc: Global,
    number: u32,
    steps: &[Step],
    entry: &Entry,
) -> Result<bool, NoMemory>
    ensures { IfOk result (λ yes. (spot : Spot) → spot.number ≡ number → IsTrue yes ↔ HasFailed spot steps.now entry.now) }
{
    let fails = fails_somewhere(alloc, number, steps, entry)?;
    Ok(fails && has_risen(entry.faults_before, entry.faults_after))
}

/// Whether a thin disk found no memory for the grain, in one of these steps.
pub fn has_no_memory(
    alloc: Global,
    volumes: &[LaneVolume],
    steps: &[Step],
    entry: &Entry,
) -> Result<bool, NoMemory>
    ensures { IfOk result (λ yes. (spot : Spot) → ((v : ℕ) → spot.is_thin v ≡ is_thin_in volumes.now v) → IsTrue yes ↔ HasNoMemory spot steps.now entry.now) }
{
    let wants = wants_somewhere(alloc, volumes, steps, entry)?;
    Ok(wants && is_untorn(entry))
}
