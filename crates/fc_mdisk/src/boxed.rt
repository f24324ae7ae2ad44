//! A boxed disk is a disk: each call goes to the disk inside.

use crate::mdisk::Mdisk;
use fc_base::disk::{DiskError, DiskKind};
use fc_base::outcome::{Failed, NoMemory};

impl Mdisk for Box<dyn Mdisk + Send> {
    ghost meaning = { λ b. (Mdisk-box b).meaning b.value };

    fn kind(&self) -> DiskKind {
        (**self).kind()
    }

    fn grains(&self) -> u32 {
        (**self).grains()
    }

    fn used(&self) -> u32 {
        (**self).used()
    }

    fn faults(&self) -> u64 {
        (**self).faults()
    }

    fn calls(&self) -> u64 {
        (**self).calls()
    }

    fn write_faults(&self) -> u64 {
        (**self).write_faults()
    }

    fn format(&mut self, grains: u32, bytes: u32) -> Result<(), NoMemory> {
        (**self).format(grains, bytes)
    }

    fn read(&mut self, grain: u32, out: &mut [u8]) -> Result<(), Failed> {
        (**self).read(grain, out)
    }

    fn write(&mut self, grain: u32, bytes: &[u8]) -> Result<(), DiskError> {
        (**self).write(grain, bytes)
    }

    fn arm(&mut self, calls: u32) {
        (**self).arm(calls)
    }

    fn clear(&mut self) {
        (**self).clear()
    }
}
