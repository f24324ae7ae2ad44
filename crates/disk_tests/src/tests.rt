//! What no clause says: that the calls succeed where there is memory, and that disks pass between threads.

use fc_base::disk::DiskError;
use fc_base::outcome::Failed;
use fc_mdisk::disks::Disks;
use fc_mdisk::fail::FailDisk;
use fc_mdisk::mdisk::Mdisk;
use fc_mdisk::mem::MemDisk;
use fc_mdisk::thin::ThinDisk;
use std::alloc::Global;
use std::process::Abort;
use std::test::Fail;
use std::thread::{Threads, join};

/// Formats a disk, writes its second grain and reads both; answers how many grains occupy memory.
fn fill_and_read<D: Mdisk>(rt: &impl Abort, disk: &mut D) -> Result<u32, Fail> {
    disk.format(2, 4)?;
    disk.write(1, &[1, 2, 3, 4])?;
    let mut out = [9; 4];
    disk.read(1, &mut out)?;
    assert_eq!(rt; out, [1, 2, 3, 4]);
    disk.read(0, &mut out)?;
    assert_eq!(rt; out, [0, 0, 0, 0]);
    assert_eq!(rt; disk.calls(), 3);
    Ok(disk.used())
}

#[test]
fn each_disk_keeps_what_was_written(rt: HostRuntime) -> Result<(), Fail> {
    let alloc = rt.alloc();
    assert_eq!(rt; fill_and_read(&rt, &mut MemDisk::new(alloc))?, 2);
    assert_eq!(rt; fill_and_read(&rt, &mut ThinDisk::new(alloc))?, 1);
    assert_eq!(rt;
        fill_and_read(&rt, &mut FailDisk::new(alloc, Vec::new(alloc)))?,
        2
    );
    let mut boxed: Box<dyn Mdisk + Send> = Box::new(alloc, ThinDisk::new(alloc))?;
    assert_eq!(rt; fill_and_read(&rt, &mut boxed)?, 1);
    Ok(())
}

#[test]
fn an_armed_fault_comes_once(rt: HostRuntime) -> Result<(), Fail> {
    let mut disk = ThinDisk::new(rt.alloc());
    disk.format(2, 4)?;
    disk.arm(2);
    disk.write(0, &[5; 4])?;
    assert_eq!(rt; disk.write(1, &[6; 4]), Err(DiskError::Failed));
    assert_eq!(rt;
        (disk.faults(), disk.write_faults(), disk.used()),
        (1, 1, 2)
    );
    let mut out = [9; 4];
    disk.read(0, &mut out)?;
    assert_eq!(rt; out, [5; 4]);
    Ok(())
}

#[test]
fn told_calls_fail(rt: HostRuntime) -> Result<(), Fail> {
    let mut disk = FailDisk::new(rt.alloc(), vec![in rt.alloc(); 2, 3]?);
    disk.format(1, 4)?;
    let mut out = [9; 4];
    disk.write(0, &[1, 2, 3, 4])?;
    assert_eq!(rt; disk.read(0, &mut out), Err(Failed));
    assert_eq!(rt; disk.write(0, &[5, 6, 7, 8]), Err(DiskError::Failed));
    disk.read(0, &mut out)?;
    assert_eq!(rt;
        (disk.calls(), disk.faults(), disk.write_faults()),
        (4, 2, 1)
    );
    Ok(())
}

/// Clears disks of each kind on two threads.
fn clear_beside(
    rt: &impl Threads,
    mem: &mut MemDisk,
    thin: &mut ThinDisk,
    fail: &mut FailDisk,
    boxed: &mut Box<dyn Mdisk + Send>,
) {
    join(
        rt,
        || {
            mem.clear();
            thin.clear();
        },
        || {
            fail.clear();
            boxed.clear();
        },
    );
}

/// Counts the disks of two lanes on two threads.
fn count_beside<D: Mdisk + Send>(
    rt: &impl Threads,
    first: Disks<D>,
    second: Disks<D>,
) -> (usize, usize) {
    join(rt, move || first.len(), move || second.len())
}
