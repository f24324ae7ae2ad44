//! Folds and batches of metadata over a disk in memory, and plain copies of as many bytes.
//!
//! Given what to do and how often, it prints how often it was done. The image has 512 volumes of 8,192 grains. `fold` folds it,
//! `batches` notes and syncs a batch of one record, `fold-copy` and `batches-copy` write and sync as many bytes at the same
//! places. `bench/meta.sh` times it.
#![tactic(auto)]

ghost use Rattle.std.specs.Prelude.{◌≡◌, IfSome};
ghost use Rattle.fc_format.specs.Ranges.{HasGoodIds};
ghost use Rattle.fc_meta.specs.States.{IsResting};

use fc_base::ids::{GrainNo, SlotId, VolId};
use fc_base::list::List;
use fc_format::{batch_with, half_with};
use fc_image::{LostList, MetaImage, MetaLost, MetaRecord, Words};
use fc_meta::Meta;
use fc_metadisk::{MemMeta, MetaDisk};
use meta_steps::first::{begin, image_of};
use std::alloc::Global;
use std::{env, io};

/// How many bytes the disk has.
const SIZE: u32 = 2 << 20;

/// How many volumes the image has, and how many words the grains of each take.
const VOLUMES: u32 = 512;

const WORDS: usize = 128;

/// The record of each batch.
const MOVED: [MetaRecord; 1] = [MetaRecord::Pair {
    slot: SlotId(1),
    volume: VolId(0),
    grain: GrainNo(0),
    in_place: false,
    empty: false,
}];

/// A row for each volume, of which no grain is lost.
fn rows(alloc: Global) -> Option<LostList> {
    let mut rows = List::new(alloc);
    for volume in 0..VOLUMES {
        let words = vec![in alloc; 0; WORDS].ok()?;
        rows.push(MetaLost {
            volume: VolId(volume),
            lost: Words::of(words),
        })
        .ok()?;
    }
    Some(rows)
}

/// A new disk of so many bytes with the image.
fn begun(alloc: Global, size: u32, image: &MetaImage) -> Option<Meta<MemMeta>>
    requires { HasGoodIds image.now }
    ensures { IfSome result
        (λ meta. IsResting ⟦<MemMeta as MetaDisk>⟧.seen ⟦<MemMeta as MetaDisk>⟧.may_leave meta) }
{
    let disk = MemMeta::new(alloc, size).ok()?;
    begin(alloc, disk, image).ok()
}

/// Folds the image so often.
fn fold_often<M: MetaDisk>(
    alloc: Global,
    meta: &mut Meta<M>,
    image: &MetaImage,
    count: u32,
) -> Option<u32>
    requires rests { IsResting M.seen M.may_leave meta.old }
    requires ids { HasGoodIds image.now }
{
    for round in 0..count {
        let _ = round;
        match meta.fold(alloc, image) {
            Ok(()) => {}
            Err(_) => return None,
        }
    }
    Some(count)
}

/// Notes and syncs a batch so often.
fn put_often<M: MetaDisk>(alloc: Global, meta: &mut Meta<M>, count: u32) -> Option<u32>
    requires { IsResting M.seen M.may_leave meta.old }
{
    for round in 0..count {
        let _ = round;
        match meta.put(alloc, &MOVED) {
            Ok(()) => {}
            Err(_) => return None,
        }
    }
    Some(count)
}

/// Folds the image on a new disk so often.
fn folds(alloc: Global, size: u32, count: u32) -> Option<u32> {
    let image = image_of(alloc, 1, rows(alloc)?);
    let mut meta = begun(alloc, size, &image)?;
    fold_often(alloc, &mut meta, &image, count)
}

/// Notes and syncs so many batches behind the image on a new disk.
fn batches(alloc: Global, size: u32, count: u32) -> Option<u32> {
    let image = image_of(alloc, 1, rows(alloc)?);
    let mut meta = begun(alloc, size, &image)?;
    put_often(alloc, &mut meta, count)
}

/// Writes the bytes on a new disk so often, each time so many places further on, and syncs them.
fn copies(alloc: Global, size: u32, bytes: &[u8], step: u32, count: u32) -> Option<u32> {
    let mut disk = MemMeta::new(alloc, size).ok()?;
    for done in 0..count {
        let at = done.checked_mul(step)?;
        if u64::from(at) + bytes.len() as u64 > u64::from(disk.size()) {
            return None;
        }
        disk.write_at(at, bytes).ok()?;
        disk.sync().ok()?;
    }
    Some(count)
}

/// Writes as many bytes as a fold does, so often.
fn fold_copies(alloc: Global, size: u32, count: u32) -> Option<u32> {
    let image = image_of(alloc, 1, rows(alloc)?);
    let bytes = half_with(alloc, 1, &image).ok()?;
    copies(alloc, size, &bytes, 0, count)
}

/// Writes so many batches.
fn batch_copies(alloc: Global, size: u32, count: u32) -> Option<u32> {
    let bytes = batch_with(alloc, &MOVED).ok()?;
    copies(alloc, size, &bytes, 24, count)
}

fn main(rt: HostRuntime) -> io::Result<()> {
    let alloc = rt.alloc();
    let mut words = env::args(&rt)?.skip(1);
    let what = words.next();
    let count = match words.next() {
        Some(text) => text.parse::<u32>().unwrap_or(0),
        None => 0,
    };
    let done = match what.as_deref() {
        Some("fold") => folds(alloc, SIZE, count),
        Some("fold-copy") => fold_copies(alloc, SIZE, count),
        Some("batches") => batches(alloc, SIZE, count),
        Some("batches-copy") => batch_copies(alloc, SIZE, count),
        _ => None,
    };
    match done {
        Some(done) => println!(rt; "{done}"),
        None => println!(rt; "not done"),
    }
}
