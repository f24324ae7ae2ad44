//! What comes out of what is tried, in words.

ghost use Rattle.std.specs.Prelude.{◌≡◌, ◌<◌, IfOk, Ok};

use crate::found::{found_text, reason_text};
use crate::script::{SIZE, goes_on, image, kept_until, small};
use crate::whole;
use fc_base::ids::{GrainNo, VolId};
use fc_base::list::List;
use fc_base::outcome::NoMemory;
use fc_image::MetaRecord;
use fc_meta::{Call, MetaError};
use fc_metadisk::{MemMeta, MetaDisk};
use meta_steps::kept::{Asked, Kept};
use std::alloc::{AllocError, Global};

/// What is tried.
#[derive(Clone, Copy)]
pub enum What {
    /// The script over a disk that stops at this call.
    Stop(u32),
    /// Each of these bytes of a disk with a small image is damaged.
    Small { first: u32, last: u32 },
    /// Each of these bytes of a disk with an image of each part is damaged.
    Whole { first: u32, last: u32 },
    /// What has room on a disk of so many bytes.
    Room(u32),
    /// Two empty batches and a fold on a disk of so many bytes.
    Calls(u32),
}

/// Behind this call the script is at its end.
const END: u32 = 39;

/// A batch of one record, of a volume that isn't there.
const WRITTEN: [MetaRecord; 1] = [MetaRecord::Written {
    volume: VolId(7),
    grain: GrainNo(3),
}];

/// What was had, or that memory was wanted.
fn had<T: Drop>(res: Result<T, NoMemory>) -> Result<T, AllocError>
    ensures { IfOk result (λ value. res ≡ Ok value) }
{
    match res {
        Ok(value) => Ok(value),
        Err(NoMemory) => Err(AllocError),
    }
}

/// Whether an account has the first of these calls, as many as were made up to the call of this number, which alone failed.
fn is_front(calls: &[Kept], account: &[Kept], stop: usize) -> bool {
    if account.len() != calls.len().min(stop) {
        return false;
    }
    for (place, (call, kept)) in calls.iter().zip(account.iter()).enumerate() {
        if kept.asked != call.asked || kept.failed != (place + 1 == stop) {
            return false;
        }
    }
    true
}

/// The call at which the script stops.
fn call_text(alloc: Global, stop: u32) -> Result<String, AllocError>
    requires { 0 < stop }
{
    let whole = had(kept_until(alloc, END))?;
    let stopped = had(kept_until(alloc, stop))?;
    let (Some(calls), Some(account)) = (whole.account(), stopped.account()) else {
        return Err(AllocError);
    };
    if !is_front(calls, account, stop as usize) {
        return format!(in alloc; "other calls");
    }
    match account.last() {
        Some(
            Kept {
                asked: Asked::Write(at, count),
                failed: true,
            },
        ) => format!(in alloc; "write {at} {count}"),
        Some(
            Kept {
                asked: Asked::Sync,
                failed: true,
            },
        ) => format!(in alloc; "sync"),
        _ => format!(in alloc; "no call"),
    }
}

/// The disk that is found where the script stopped at this call.
fn disk_behind(alloc: Global, stop: u32) -> Result<MemMeta, AllocError>
    requires { 0 < stop }
{
    Ok(had(kept_until(alloc, stop))?.into_disk().after())
}

/// What a disk stands for where writing went on.
fn text_behind(alloc: Global, disk: MemMeta) -> Result<String, AllocError> {
    match goes_on(alloc, disk) {
        Ok(disk) => found_text(alloc, disk),
        Err(_) => format!(in alloc; "nothing"),
    }
}

/// A stop.
fn stop_text(alloc: Global, stop: u32) -> Result<String, AllocError> {
    if stop == 0 {
        return format!(in alloc; "no stop");
    }
    let call = call_text(alloc, stop)?;
    let found = found_text(alloc, disk_behind(alloc, stop)?)?;
    let then = text_behind(alloc, disk_behind(alloc, stop)?)?;
    format!(in alloc; "{call}: {found}, then {then}")
}

/// A disk with a small image and a batch of one record.
fn small_disk(alloc: Global) -> Result<MemMeta, AllocError> {
    let Some(mut meta) = small(alloc, SIZE) else {
        return Err(AllocError);
    };
    match meta.put(alloc, &WRITTEN) {
        Ok(()) => Ok(meta.into_disk()),
        Err(_) => Err(AllocError),
    }
}

/// What a disk tells whose byte at this place is 255.
fn spoiled_text(alloc: Global, disk: MemMeta, at: u32) -> Result<String, AllocError> {
    let mut disk = disk;
    if at < disk.size() && disk.write_at(at, &[255]).is_err() {
        return format!(in alloc; "a failed write");
    }
    reason_text(alloc, disk)
}

/// Damaged bytes: what all of them tell, or the first that tells something else than those before it.
fn damaged_text(
    alloc: Global,
    has_each_part: bool,
    first: u32,
    last: u32,
) -> Result<String, AllocError> {
    let mut text = String::new(alloc);
    for at in first..=last {
        let disk = if has_each_part {
            had(whole::disk(alloc))?
        } else {
            small_disk(alloc)?
        };
        let told = spoiled_text(alloc, disk, at)?;
        if at == first {
            text = told;
        } else if text.as_str() != told.as_str() {
            return format!(in alloc; "byte {at}: {told}");
        }
    }
    Ok(text)
}

/// What has room on a disk of so many bytes.
fn room_text(alloc: Global, size: u32) -> Result<String, AllocError> {
    let Some(mut meta) = small(alloc, size) else {
        return format!(in alloc; "nothing");
    };
    let fits_empty = meta.fits(&[]);
    let fits = meta.fits(&WRITTEN);
    let put = meta.put(alloc, &WRITTEN);
    match (put, fits, fits_empty) {
        (Ok(()), true, true) => format!(in alloc; "a record"),
        (Err(MetaError::Full), false, true) => format!(in alloc; "an empty batch"),
        (Err(MetaError::Full), false, false) => format!(in alloc; "an image"),
        _ => format!(in alloc; "something else"),
    }
}

/// Two empty batches and a fold on a disk of so many bytes.
fn calls_text(alloc: Global, size: u32) -> Result<String, AllocError> {
    let Some(mut meta) = small(alloc, size) else {
        return format!(in alloc; "nothing");
    };
    let image = match image(alloc, 7, 2) {
        Ok(image) => image,
        Err(NoMemory) => return Err(AllocError),
    };
    let calls = [
        Call::Note(List::new(alloc)),
        Call::Sync,
        Call::Note(List::new(alloc)),
        Call::Sync,
        Call::ClearOther,
        Call::FillOther(image),
        Call::Turn,
    ];
    let (done, answer) = meta.make_all(alloc, &calls);
    let found = found_text(alloc, meta.into_disk())?;
    match answer {
        Ok(()) => format!(in alloc; "{done} done: {found}"),
        Err(error) => format!(in alloc; "{done} done, {error}: {found}"),
    }
}

/// What comes out.
pub fn answer_of(alloc: Global, what: What) -> Result<String, AllocError> {
    match what {
        What::Stop(stop) => stop_text(alloc, stop),
        What::Small { first, last } => damaged_text(alloc, false, first, last),
        What::Whole { first, last } => damaged_text(alloc, true, first, last),
        What::Room(size) => room_text(alloc, size),
        What::Calls(size) => calls_text(alloc, size),
    }
}
