//! Grains side by side in one buffer.

ghost use Rattle.std.specs.Prelude.{◌≡◌, ◌<◌, ◌≤◌, ◌++◌, true, length, drop, replicate, slice_set};
ghost use Rattle.fc_base.specs.declared.disk.DiskKind.TheVariants.{Flat};
ghost use Rattle.fc_mdisk.specs.Disk.{grain_at};

use crate::grains::Grains;
use fc_base::disk::DiskKind;
use fc_base::outcome::NoMemory;
use std::alloc::Global;
use std::marker::Model;

/// The grains of a flat disk. Contracts see the list of their bytes. Only `format` takes memory.
#[derive(Drop)]
pub struct FlatGrains {
    alloc: Global,
    buffer: Vec<u8>,
    count: u32,
    width: u32,
}

impl Model for FlatGrains {
    ghost use Rattle.std.specs.Prelude.{◌≡◌, ℕ, List, ◌*◌, vec_len};
    ghost use Rattle.fc_mdisk.specs.Cut.{cut};

    ghost Value = { List (List ℕ) };

    ghost view = { λ f. cut f.count f.width f.buffer.items };

    ghost invariant = { λ f. vec_len f.buffer ≡ f.count * f.width };
}

impl FlatGrains {
    /// Writes the front of a grain.
    fn put(&mut self, grain: u32, front: &[u8])
        requires in_range { grain < length self.old }
        requires fits { length front.now ≤ length (grain_at self.old grain) }
        ensures { self.new ≡ slice_set self.old grain (front.now ++ drop (length front.now) (grain_at self.old grain)) }
    {
        let start = grain as usize * self.width as usize;
        self.buffer[start..start + front.len()].copy_from_slice(front);
    }
}

impl Grains for FlatGrains {
    ghost KIND = { Flat };

    const KIND: DiskKind = DiskKind::Flat;

    ghost state = { λ f. record { grains = f; occupied = replicate (length f) true } };

    fn new(alloc: Global) -> Self {
        FlatGrains {
            alloc,
            buffer: Vec::new(alloc),
            count: 0,
            width: 0,
        }
    }

    fn count(&self) -> u32 {
        self.count
    }

    fn used(&self) -> u32 {
        self.count()
    }

    fn format(&mut self, count: u32, width: u32) -> Result<(), NoMemory> {
        let bytes = count as usize * width as usize;
        match vec![in self.alloc; 0; bytes] {
            Ok(buffer) => {
                self.buffer = buffer;
                self.count = count;
                self.width = width;
                Ok(())
            }
            Err(_) => Err(NoMemory),
        }
    }

    fn clear(&mut self) {
        self.buffer = Vec::new(self.alloc);
        self.count = 0;
        self.width = 0;
    }

    fn read(&self, grain: u32, out: &mut [u8]) {
        let start = grain as usize * self.width as usize;
        out.copy_from_slice(&self.buffer[start..start + self.width as usize]);
    }

    fn write(&mut self, grain: u32, bytes: &[u8]) -> Result<(), NoMemory> {
        self.put(grain, bytes);
        Ok(())
    }

    fn tear(&mut self, grain: u32, bytes: &[u8]) {
        self.put(grain, &bytes[..bytes.len() / 2]);
    }
}
