//! What a disk of metadata stands for, read again.

ghost use Rattle.std.specs.Prelude.{◌≡◌, ◌⊎◌, ◌<◌, ◌≤◌, ◌+◌, ◌^◌, List, ℕ, [], length, drop, IfOk, IfErr, OnOk, OnErr, IsErrOf, is_err, true, false};
ghost use Rattle.fc_base.specs.Count.{FaultsAfter, HasRisen, one_more};
ghost use Rattle.fc_metadisk.specs.Disk.{LeavesOnly, Only};
ghost use Rattle.fc_metadisk.specs.Calls.{Syncs, one_made};
ghost use Rattle.fc_format.specs.Halves.{Image, half_of, half_size, half_start, front, least_half, recovered, IsHalfRead};
ghost use Rattle.fc_meta.specs.Standing.{Rests};
ghost use Rattle.fc_meta.specs.States.{disk_of, found, head_of, recovered_disk, IsResting, IsAnswer};
ghost use Rattle.fc_meta.specs.Recovering.{current_of, open_generation, IsBadHalf, IsCause, IsImageRead};

use crate::disk::{half_len, start_of};
use crate::error::{MetaError, RecoverError};
use crate::meta::Meta;
use byteorder::{BigEndian, ByteOrder};
use fc_base::outcome::Failed;
use fc_format::{Half, ReadError, image_in};
use fc_image::MetaImage;
use fc_metadisk::MetaDisk;
use std::alloc::Global;

/// The half that is read.
#[derive(Clone, Copy)]
pub(crate) struct Current {
    half: Half,
    generation: u64,
    // whether the gate of the other half is open
    other_is_open: bool,
}

/// What was read: the half, the bytes that stand before its closed gate, and the image with the batches before it.
#[derive(Drop)]
pub(crate) struct Standing {
    current: Current,
    used: u32,
    image: MetaImage,
}

impl<M: MetaDisk> Meta<M> {
    /// Reads what the disk stands for: a sync, and then reads of the gates and generations and of one half. It writes nothing,
    /// so that a crash leaves what it might before.
    ///
    /// NoImage and Damaged are what the disk stands for (docs/METADATA.md); after Failed and NoMemory nothing is known of it. After
    /// an error the disk comes back.
    pub fn recover(alloc: Global, disk: M) -> Result<(Meta<M>, MetaImage), (M, RecoverError)>
        ensures answer { IsAnswer (recovered (M.seen disk)) result }
        ensures rests { IfOk result (λ p. IsResting M.seen M.may_leave p.0) }
        ensures seen { M.seen (recovered_disk result) ≡ M.seen disk }
        ensures any_moment { LeavesOnly M.moment M.left_since disk (recovered_disk result)
            (M.may_leave disk) }
        ensures failed { IfErr result
            (λ e. e.1 ≡ RecoverError.Failed → HasRisen (M.fault_count disk) (M.fault_count e.0)) }
        ensures quiet { OnOk result (M.fault_count (recovered_disk result) ≡ M.fault_count disk) }
        ensures calm { IfErr result
            (λ e. (e.1 ≡ RecoverError.Failed) ⊎ (M.fault_count e.0 ≡ M.fault_count disk)) }
        ensures made { M.calls (recovered_disk result) ≡ one_more (M.calls disk) }
        ensures done { OnOk result (M.leads disk (one_made Syncs false) (recovered_disk result)) }
        ensures cut_short { IfErr result
            (λ e. M.leads disk (one_made Syncs false) e.0 ⊎
            ((e.1 ≡ RecoverError.Failed) × M.leads disk (one_made Syncs true) e.0)) }
    {
        let mut disk = disk;
        match read_disk(alloc, &mut disk) {
            Ok(standing) => Ok((
                Meta {
                    disk,
                    half: standing.current.half,
                    generation: standing.current.generation,
                    other_is_open: standing.current.other_is_open,
                    used: standing.used,
                    next: standing.used,
                },
                standing.image,
            )),
            Err(error) => Err((disk, error)),
        }
    }

    /// What the disk stands for, read again from the half that is read: the image with all batches. It reads once, and writes and
    /// syncs nothing, so that a crash leaves what it might before; the writer is as before.
    ///
    /// Failed if the disk failed, and NoMemory; no other error comes.
    pub fn image(&mut self, alloc: Global) -> Result<MetaImage, MetaError>
        requires { IsResting M.seen M.may_leave self.old }
        ensures image { IfOk result (λ image. found M.seen self.old ≡ Image image) }
        ensures rests { IsResting M.seen M.may_leave self.new }
        ensures seen { M.seen (disk_of self.new) ≡ M.seen (disk_of self.old) }
        ensures head { head_of self.new ≡ head_of self.old }
        ensures any_moment { LeavesOnly M.moment M.left_since (disk_of self.old) (disk_of self.new)
            (M.may_leave (disk_of self.old)) }
        ensures calls { M.calls (disk_of self.new) ≡ M.calls (disk_of self.old) }
        ensures made { M.leads (disk_of self.old) [] (disk_of self.new) }
        ensures failed { IsErrOf result MetaError.Failed → HasRisen
            (M.fault_count (disk_of self.old)) (M.fault_count (disk_of self.new)) }
        ensures quiet { OnOk result
            (M.fault_count (disk_of self.new) ≡ M.fault_count (disk_of self.old)) }
        ensures not_full { IsErrOf result MetaError.Full → ⊥ }
    {
        match read_image(alloc, &mut self.disk, self.half) {
            Ok((image, _)) => Ok(image),
            Err(RecoverError::Failed) => Err(MetaError::Failed),
            Err(_) => Err(MetaError::NoMemory),
        }
    }
}

/// Syncs the disk and reads what it stands for.
fn read_disk<M: MetaDisk>(alloc: Global, disk: &mut M) -> Result<Standing, RecoverError>
    ensures rests { IfOk result
        (λ s. Rests s.current.half s.current.generation s.used s.current.other_is_open s.image
        (M.seen disk.old)) }
    ensures cause { IfErr result (λ e. IsCause (recovered (M.seen disk.old)) e) }
    ensures durable { OnOk result (Only (M.seen disk.old) (M.may_leave disk.new)) }
    ensures seen { M.seen disk.new ≡ M.seen disk.old }
    ensures any_moment { LeavesOnly M.moment M.left_since disk.old disk.new (M.may_leave disk.old) }
    ensures failed { IsErrOf result RecoverError.Failed → HasRisen (M.fault_count disk.old)
        (M.fault_count disk.new) }
    ensures quiet { OnOk result (M.fault_count disk.new ≡ M.fault_count disk.old) }
    ensures calm { IfErr result
        (λ e. (e ≡ RecoverError.Failed) ⊎ (M.fault_count disk.new ≡ M.fault_count disk.old)) }
    ensures made { M.calls disk.new ≡ one_more (M.calls disk.old) }
    ensures done { OnOk result (M.leads disk.old (one_made Syncs false) disk.new) }
    ensures cut_short { IfErr result
        (λ e. M.leads disk.old (one_made Syncs false) disk.new ⊎
        ((e ≡ RecoverError.Failed) × M.leads disk.old (one_made Syncs true) disk.new)) }
{
    disk.sync()?;
    let first = read_generation(disk, Half::First)?;
    let second = read_generation(disk, Half::Second)?;
    match half_to_read(first, second) {
        None => Err(RecoverError::NoImage),
        Some(current) => {
            let (image, used) = read_image(alloc, disk, current.half)?;
            Ok(Standing {
                current,
                used,
                image,
            })
        }
    }
}

/// The generation of a half. None if its gate is closed, or if it has too few bytes for one.
fn read_generation<M: MetaDisk>(disk: &mut M, half: Half) -> Result<Option<u64>, Failed>
    ensures value { IfOk result (λ g. g ≡ open_generation (half_of half (M.seen disk.old))) }
    ensures seen { M.seen disk.new ≡ M.seen disk.old }
    ensures crash { (c : List ℕ) → M.may_leave disk.new c → M.may_leave disk.old c }
    ensures any_moment { LeavesOnly M.moment M.left_since disk.old disk.new (M.may_leave disk.old) }
    ensures calls { M.calls disk.new ≡ M.calls disk.old }
    ensures made { M.leads disk.old [] disk.new }
    ensures cause { FaultsAfter true (is_err result) (M.fault_count disk.old)
        (M.fault_count disk.new) }
{
    if half_len(disk) < 13 {
        return Ok(None);
    }
    let mut bytes = [0; 9];
    let start = start_of(disk, half);
    disk.read(start, &mut bytes)?;
    if bytes[0] != 1 {
        return Ok(None);
    }
    Ok(Some(BigEndian::read_u64(&bytes[1..])))
}

/// Which half is read: the open one of the greater generation, and the first where two open ones have the same.
fn half_to_read(first: Option<u64>, second: Option<u64>) -> Option<Current>
    ensures { result ≡ current_of first second }
{
    let (half, generation) = match (first, second) {
        (None, None) => return None,
        (Some(g), None) => (Half::First, g),
        (None, Some(h)) => (Half::Second, h),
        (Some(g), Some(h)) => {
            if g < h {
                (Half::Second, h)
            } else {
                (Half::First, g)
            }
        }
    };
    Some(Current {
        half,
        generation,
        other_is_open: first.is_some() && second.is_some(),
    })
}

/// Reads the image of an open half with its batches, and how many bytes stand before its closed gate.
fn read_image<M: MetaDisk>(
    alloc: Global,
    disk: &mut M,
    half: Half,
) -> Result<(MetaImage, u32), RecoverError>
    requires { least_half ≤ half_size (M.seen disk.old) }
    ensures image { IfOk result (λ p. IsImageRead half p.0 p.1 (M.seen disk.old)) }
    ensures told { IfErr result (λ e. IsBadHalf half (M.seen disk.old) e) }
    ensures seen { M.seen disk.new ≡ M.seen disk.old }
    ensures crash { (c : List ℕ) → M.may_leave disk.new c → M.may_leave disk.old c }
    ensures any_moment { LeavesOnly M.moment M.left_since disk.old disk.new (M.may_leave disk.old) }
    ensures calls { M.calls disk.new ≡ M.calls disk.old }
    ensures made { M.leads disk.old [] disk.new }
    ensures failed { IsErrOf result RecoverError.Failed → HasRisen (M.fault_count disk.old)
        (M.fault_count disk.new) }
    ensures kept { M.fault_count disk.old ≤ M.fault_count disk.new }
    ensures quiet { OnOk result (M.fault_count disk.new ≡ M.fault_count disk.old) }
    ensures calm { IfErr result
        (λ e. (e ≡ RecoverError.Failed) ⊎ (M.fault_count disk.new ≡ M.fault_count disk.old)) }
{
    let len = half_len(disk);
    let start = start_of(disk, half);
    let mut bytes = match vec![in alloc; 0; len as usize - 9] {
        Ok(bytes) => bytes,
        Err(_) => return Err(RecoverError::NoMemory),
    };
    disk.read(start + 9, bytes.as_mut_slice())?;
    match image_in(alloc, &bytes, start + len) {
        Ok((image, closed)) => Ok((image, 9 + closed as u32)),
        Err(ReadError::NoMemory) => Err(RecoverError::NoMemory),
        Err(ReadError::Damaged(at)) => Err(RecoverError::Damaged(at)),
    }
}
