//! The disks that come back are those that were handed in, each with what the session wrote on it.

ghost use Rattle.std.specs.Prelude.{◌≤◌, map, vec_len, IfOk};
ghost use Rattle.std.specs.List.{All};
ghost use Rattle.fc_mdisk.specs.Disk.{IsFresh};

use crate::sessions::{Calls, run_on};
use fc_base::disk::{DiskError, DiskKind};
use fc_base::outcome::{Failed, NoMemory};
use fc_mdisk::mdisk::Mdisk;
use fc_mdisk::mem::MemDisk;
use fc_top::gate::FreeGate;
use fc_top::status::Status;
use std::alloc::{AllocError, Global};
use std::process::Abort;

/// A flat disk with a mark that no call changes, which remembers the first byte of its last write.
#[derive(Drop)]
struct MarkedDisk {
    disk: MemDisk,
    mark: u8,
    written: u8,
}

impl Mdisk for MarkedDisk {
    ghost meaning = { λ d. d.disk };

    fn kind(&self) -> DiskKind {
        self.disk.kind()
    }

    fn grains(&self) -> u32 {
        self.disk.grains()
    }

    fn used(&self) -> u32 {
        self.disk.used()
    }

    fn faults(&self) -> u64 {
        self.disk.faults()
    }

    fn calls(&self) -> u64 {
        self.disk.calls()
    }

    fn write_faults(&self) -> u64 {
        self.disk.write_faults()
    }

    fn format(&mut self, grains: u32, bytes: u32) -> Result<(), NoMemory> {
        self.disk.format(grains, bytes)
    }

    fn read(&mut self, grain: u32, out: &mut [u8]) -> Result<(), Failed> {
        self.disk.read(grain, out)
    }

    fn write(&mut self, grain: u32, bytes: &[u8]) -> Result<(), DiskError> {
        self.written = bytes.first().copied().unwrap_or(0);
        self.disk.write(grain, bytes)
    }

    fn arm(&mut self, calls: u32) {
        self.disk.arm(calls)
    }

    fn clear(&mut self) {
        self.disk.clear()
    }
}

/// How many disks there are: two for each lane.
const DISKS: u8 = 8;

/// Two volumes of a grain in each lane. Each grain is written with a byte of its own, whose last digit is its lane.
const TWO_VOLUMES: &[u8] = b"mkvdisk -name A -size 256 -unit kb
mkvdisk -name B -size 256 -unit kb
write A 0 1 10
write A 128 1 11
write A 256 1 12
write A 384 1 13
write B 0 1 20
write B 128 1 21
write B 256 1 22
write B 384 1 23
rmvdisk B
";

/// So many disks, marked from 0 on.
fn marked_disks(alloc: Global, count: u8) -> Result<Vec<MarkedDisk>, AllocError>
    ensures count { IfOk result (λ disks. vec_len disks ≤ count) }
    ensures fresh { IfOk result (λ disks. All IsFresh (map ⟦<MarkedDisk as Mdisk>⟧.meaning disks.items)) }
{
    let mut disks: Vec<MarkedDisk> = Vec::new(alloc);
    for mark in 0..count {
        disks.push(MarkedDisk {
            disk: MemDisk::new(alloc),
            mark,
            written: 0,
        })?;
    }
    Ok(disks)
}

/// How many of these disks have this mark and, of its lane, one of the two bytes that were written there.
fn found(disks: &[MarkedDisk], mark: u8) -> usize {
    let lane = mark % 4;
    disks
        .iter()
        .filter(|disk| disk.mark == mark
            && (disk.written == 0x10 + lane || disk.written == 0x20 + lane))
        .count()
}

/// How many of these disks were last written with this byte.
fn written(disks: &[MarkedDisk], byte: u8) -> usize {
    disks.iter().filter(|disk| disk.written == byte).count()
}

/// Each disk came back, and each byte of the session was written on one of them.
fn expect_all(rt: &impl Abort, disks: &[MarkedDisk]) {
    assert!(rt; disks.len() == DISKS as usize);
    for mark in 0..DISKS {
        assert!(rt; found(disks, mark) == 1);
    }
    for lane in 0u8..4 {
        assert!(rt; written(disks, 0x10 + lane) == 1);
        assert!(rt; written(disks, 0x20 + lane) == 1);
    }
}

#[test]
fn the_disks_that_come_back_are_the_very_ones(rt: HostRuntime) -> Result<(), AllocError> {
    let alloc = rt.alloc();
    let mut disks = marked_disks(alloc, DISKS)?;
    let calls = Calls::of(65_536);
    let outcome = run_on(&rt, alloc, &mut disks, &FreeGate, "64", TWO_VOLUMES, calls)?;
    assert!(rt; outcome.status == Status::Done && outcome.entries == 11);
    expect_all(&rt, disks.as_slice());
    Ok(())
}
