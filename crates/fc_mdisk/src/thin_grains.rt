//! Grains of which each has its memory from its first write on.

ghost use Rattle.std.specs.Prelude.{◌≡◌, ◌<◌, ℕ, true, false, [], length, replicate, slice_set, OnOk, OnErr, IfOk};
ghost use Rattle.std.specs.List.{count_by};
ghost use Rattle.fc_base.specs.declared.disk.DiskKind.TheVariants.{Thin};
ghost use Rattle.fc_mdisk.specs.declared.thin_grains.ThinGrain.TheVariants.{Unwritten};
ghost use Rattle.fc_mdisk.specs.Disk.{grain_at};
ghost use Rattle.fc_mdisk.specs.Grains.{half_written};
ghost use Rattle.fc_mdisk.specs.Thin.{bytes_of, has_memory, is_reached, torn, Takes};

use crate::grains::Grains;
use fc_base::disk::DiskKind;
use fc_base::outcome::NoMemory;
use std::alloc::Global;
use std::marker::Model;

/// A grain of a thin disk.
#[derive(Drop)]
pub(crate) enum ThinGrain {
    /// No write reached it. It reads as zeros.
    Unwritten,
    /// Only writes that failed reached it. It reads as zeros.
    Lost,
    /// Its bytes.
    Written(Vec<u8>),
}

impl ThinGrain {
    /// Whether a write reached it.
    fn is_reached(&self) -> bool
        ensures { result ≡ is_reached self.now }
    {
        match self {
            ThinGrain::Unwritten => false,
            ThinGrain::Lost | ThinGrain::Written(_) => true,
        }
    }

    /// Writes the whole grain. Refused, which it is only without memory of its own, it is as it was.
    fn write(&mut self, alloc: Global, bytes: &[u8]) -> Result<(), NoMemory>
        requires { Takes self.old bytes.now }
        ensures bytes { OnOk result ((width : ℕ) → bytes_of width self.new ≡ bytes.now) }
        ensures reached { OnOk result (is_reached self.new ≡ true) }
        ensures err { OnErr result (self.new ≡ self.old) }
        ensures refused { OnErr result (has_memory self.old ≡ false) }
    {
        if let ThinGrain::Written(kept) = self {
            kept.as_mut_slice().copy_from_slice(bytes);
            return Ok(());
        }
        match Vec::from_slice(alloc, bytes) {
            Ok(kept) => {
                *self = ThinGrain::Written(kept);
                Ok(())
            }
            Err(_) => Err(NoMemory),
        }
    }

    /// A write that fails: it leaves the first half of the bytes, or no memory where there was none.
    fn tear(&mut self, bytes: &[u8])
        requires { Takes self.old bytes.now }
        ensures bytes { (width : ℕ) → bytes_of width self.new ≡ torn width self.old bytes.now }
        ensures memory { has_memory self.new ≡ has_memory self.old }
        ensures reached { is_reached self.new ≡ true }
    {
        if let ThinGrain::Written(kept) = self {
            write_half(kept.as_mut_slice(), bytes);
        } else {
            *self = ThinGrain::Lost;
        }
    }
}

/// Writes the first half of the bytes over those of a grain.
fn write_half(kept: &mut [u8], bytes: &[u8])
    requires { length kept.old ≡ length bytes.now }
    ensures { kept.new ≡ half_written bytes.now kept.old }
{
    let half = bytes.len() / 2;
    kept[..half].copy_from_slice(&bytes[..half]);
}

/// The grains of a thin disk. Contracts see the list of their bytes, and which of them a write reached.
#[derive(Drop)]
pub struct ThinGrains {
    alloc: Global,
    grains: Vec<ThinGrain>,
    width: u32,
    used: u32,
}

impl Model for ThinGrains {
    ghost use Rattle.std.specs.Prelude.{◌≡◌, ◌<◌, ◌^◌, map, vec_len};
    ghost use Rattle.std.specs.List.{count_by};
    ghost use Rattle.fc_mdisk.specs.Grains.{GrainsState};
    ghost use Rattle.fc_mdisk.specs.Thin.{bytes_of, is_reached};

    ghost Value = { GrainsState };

    ghost view = { λ t. record {
      grains = map (bytes_of t.width) t.grains.items;
      occupied = map is_reached t.grains.items;
    } };

    ghost invariant = { λ t. (vec_len t.grains < 2 ^ 32) × (t.used ≡ count_by is_reached t.grains.items) };
}

impl Grains for ThinGrains {
    ghost KIND = { Thin };

    const KIND: DiskKind = DiskKind::Thin;

    ghost state = { λ t. t };

    fn new(alloc: Global) -> Self {
        ThinGrains {
            alloc,
            grains: Vec::new(alloc),
            width: 0,
            used: 0,
        }
    }

    fn count(&self) -> u32 {
        self.grains.len() as u32
    }

    /// How many of them a write reached.
    fn used(&self) -> u32 {
        self.used
    }

    fn format(&mut self, count: u32, width: u32) -> Result<(), NoMemory> {
        match unwritten(self.alloc, count) {
            Ok(grains) => {
                self.grains = grains;
                self.width = width;
                self.used = 0;
                Ok(())
            }
            Err(NoMemory) => Err(NoMemory),
        }
    }

    fn clear(&mut self) {
        self.grains = Vec::new(self.alloc);
        self.used = 0;
    }

    fn read(&self, grain: u32, out: &mut [u8]) {
        match &self.grains[grain as usize] {
            ThinGrain::Written(bytes) => out.copy_from_slice(bytes.as_slice()),
            ThinGrain::Unwritten | ThinGrain::Lost => out.fill(0),
        }
    }

    fn write(&mut self, grain: u32, bytes: &[u8]) -> Result<(), NoMemory> {
        let place = &mut self.grains[grain as usize];
        let first = !place.is_reached();
        match place.write(self.alloc, bytes) {
            Ok(()) => {
                self.used += first as u32;
                Ok(())
            }
            Err(NoMemory) => Err(NoMemory),
        }
    }

    /// The first half of the bytes is left, or no memory where the grain had none.
    fn tear(&mut self, grain: u32, bytes: &[u8]) {
        let place = &mut self.grains[grain as usize];
        let first = !place.is_reached();
        place.tear(bytes);
        self.used += first as u32;
    }
}

/// So many grains that no write reached.
fn unwritten(alloc: Global, count: u32) -> Result<Vec<ThinGrain>, NoMemory>
    ensures { IfOk result (λ v. v.items ≡ replicate count Unwritten) }
{
    let Ok(mut grains) = Vec::with_capacity(alloc, count as usize) else {
        return Err(NoMemory);
    };
    for _grain in 0..count {
        grains.push_reserved(ThinGrain::Unwritten);
    }
    Ok(grains)
}
