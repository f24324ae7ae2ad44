//! The record of a judge before the first entry, and copies of it.

ghost use Rattle.std.specs.Prelude.{◌≡◌, ◌<◌, [], IfOk, replicate};
ghost use Rattle.fc_base.specs.Sheet.{no_slots};

use crate::items::{copy_items, push_item};
use crate::known::Known;
use fc_base::outcome::NoMemory;
use fc_base::size::GrainSize;
use fc_check_picture::Picture;
use fc_check_steps::LaneVolume;
use fc_model::PlainSheet;
use std::alloc::Global;

/// The same volume again.
fn copy_volume(volume: &LaneVolume) -> LaneVolume
    ensures { result ≡ volume.now }
{
    LaneVolume {
        id: volume.id,
        kind: volume.kind,
        access: volume.access,
    }
}

/// The same volumes again.
fn copy_volumes(alloc: Global, volumes: &[LaneVolume]) -> Result<Vec<LaneVolume>, NoMemory>
    ensures { IfOk result (λ copy. copy.items ≡ volumes.now) }
{
    let mut copy = Vec::new(alloc);
    for volume in volumes {
        push_item(&mut copy, copy_volume(volume))?;
    }
    Ok(copy)
}

impl Known {
    /// What is kept before the first entry, over so many lanes. Refused for want of memory alone.
    pub fn new(alloc: Global, grain: GrainSize, lanes: usize) -> Result<Known, NoMemory>
        requires { 0 < lanes }
        ensures { IfOk result (λ known. known ≡ record { grain = grain; volumes = []; sizes = []; flags = []; sheet = no_slots; picture = []; faults = replicate lanes 0; entries = 0 }) }
    {
        match vec![in alloc; 0; lanes] {
            Ok(faults) => Ok(Known {
                grain,
                volumes: Vec::new(alloc),
                sizes: Vec::new(alloc),
                flags: Vec::new(alloc),
                sheet: PlainSheet::new(alloc),
                picture: Picture::new(alloc),
                faults,
                entries: 0,
            }),
            Err(_) => Err(NoMemory),
        }
    }

    /// Another record of the same. Refused for want of memory alone.
    pub fn copy(&self, alloc: Global) -> Result<Known, NoMemory>
        ensures { IfOk result (λ copy. copy ≡ self.now) }
    {
        Ok(Known {
            grain: self.grain,
            volumes: copy_volumes(alloc, self.volumes.as_slice())?,
            sizes: copy_items(alloc, self.sizes.as_slice())?,
            flags: copy_items(alloc, self.flags.as_slice())?,
            sheet: self.sheet.copy(alloc)?,
            picture: self.picture.copy(alloc)?,
            faults: copy_items(alloc, self.faults.as_slice())?,
            entries: self.entries,
        })
    }
}
