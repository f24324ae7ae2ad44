//! New disks in memory, as many as a session is run over: flat ones that don't fail, flat ones of which some calls do, and thin
//! ones.
#![tactic(auto)]

ghost use Rattle.std.specs.Prelude.{◌≡◌, map, vec_len, IfOk};
ghost use Rattle.std.specs.List.{All};
ghost use Rattle.fc_mdisk.specs.Disk.{IsFresh};

use fc_mdisk::fail::FailDisk;
use fc_mdisk::mdisk::Mdisk;
use fc_mdisk::mem::MemDisk;
use fc_mdisk::thin::ThinDisk;
use std::alloc::{AllocError, Global};

/// So many disks, made one after the other.
fn disks<D: Mdisk, F: Fn() -> Result<D, AllocError>>(
    alloc: Global,
    count: u32,
    make: F,
) -> Result<Vec<D>, AllocError>
    requires callable { F.IsAlwaysCallable make }
    requires makes { (disk : D) → F.post make (Ok disk) → IsFresh (D.meaning disk) }
    ensures count { IfOk result (λ disks. vec_len disks ≡ count) }
    ensures fresh { IfOk result (λ disks. All IsFresh (map D.meaning disks.items)) }
{
    let mut disks: Vec<D> = Vec::new(alloc);
    for made in 0..count {
        disks.push(make()?)?;
    }
    Ok(disks)
}

/// So many flat disks that don't fail. An error for want of memory alone, as below.
pub fn flat_disks(alloc: Global, count: u32) -> Result<Vec<MemDisk>, AllocError>
    ensures count { IfOk result (λ disks. vec_len disks ≡ count) }
    ensures fresh { IfOk result (λ disks. All IsFresh (map ⟦<MemDisk as Mdisk>⟧.meaning disks.items)) }
{
    disks(alloc, count, || Ok(MemDisk::new(alloc)))
}

/// So many flat disks of which the same calls fail, counted from 1.
pub fn failing_disks(alloc: Global, count: u32, calls: &[u64]) -> Result<Vec<FailDisk>, AllocError>
    ensures count { IfOk result (λ disks. vec_len disks ≡ count) }
    ensures fresh { IfOk result (λ disks. All IsFresh (map ⟦<FailDisk as Mdisk>⟧.meaning disks.items)) }
{
    disks(
        alloc,
        count,
        || Ok(FailDisk::new(alloc, Vec::from_slice(alloc, calls)?)),
    )
}

/// So many thin disks, which fail only where a fault is armed.
pub fn thin_disks(alloc: Global, count: u32) -> Result<Vec<ThinDisk>, AllocError>
    ensures count { IfOk result (λ disks. vec_len disks ≡ count) }
    ensures fresh { IfOk result (λ disks. All IsFresh (map ⟦<ThinDisk as Mdisk>⟧.meaning disks.items)) }
{
    disks(alloc, count, || Ok(ThinDisk::new(alloc)))
}
