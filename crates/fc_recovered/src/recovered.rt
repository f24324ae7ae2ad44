//! A stopped store's metadata and disks together.

ghost use Rattle.std.specs.Prelude.{◌≡◌, ◌<◌, ◌^◌, length, slice_get, Option, Some, IfOk, IfErr, IfSome, MatchOption};
ghost use Rattle.fc_kept.specs.Images.{tables_in, kept_in};
ghost use Rattle.fc_kept.specs.OneGrain.{Another};
ghost use Rattle.fc_base.specs.declared.volume.Volume.{Volume};
ghost use Rattle.fc_legal.specs.Steps.{IsInside};
ghost use Rattle.fc_legal.specs.Whole.{Whole};
ghost use Rattle.fc_recovered.specs.Recovered.{CanRecover, AreReadied, AreHandedBack, RecoversTo};

use crate::lane_disks::LaneDisks;
use crate::lane_size::LaneSize;
use fc_base::outcome::NoMemory;
use fc_base::request::ReadPart;
use fc_base::size::GrainSize;
use fc_base::volume::Volume;
use fc_image::MetaImage;
use fc_mdisk::mdisk::Mdisk;
use std::alloc::Global;
use std::marker::Model;

/// All that metadata says, over the disks of all lanes as they came back. Contracts see the image and the disks, lane by lane.
#[derive(Drop)]
pub struct Recovered<D: Mdisk> {
    pub(crate) grain: GrainSize,
    pub(crate) image: MetaImage,
    pub(crate) disks: Vec<LaneDisks<D>>,
    pub(crate) buffer: Vec<u8>,
}

impl<D: Mdisk> Model for Recovered<D> {
    ghost use Rattle.fc_recovered.specs.Recovered.{RecoveredState, IsRecovered};

    ghost Value = { RecoveredState };

    ghost view = { λ r. record { grain = r.grain; image = r.image; disks = r.disks.items } };

    ghost invariant = { λ r. IsRecovered r.grain r.image r.disks.items r.buffer.items };
}

impl<D: Mdisk> Recovered<D> {
    /// An image over the disks of all lanes, lane by lane. In each lane the volume that came back without a disk, if there is one,
    /// gets the first disk of its kind that is for new volumes, formatted with zeros.
    ///
    /// Want of memory alone refuses. Then the disks come back, those of each lane as they were or with the volume's disk among them.
    pub fn new(
        alloc: Global,
        grain: GrainSize,
        image: MetaImage,
        disks: Vec<LaneDisks<D>>,
    ) -> Result<Recovered<D>, (Vec<LaneDisks<D>>, NoMemory)>
        requires { CanRecover grain image disks.items }
        ensures grain { IfOk result (λ made. made.grain ≡ grain) }
        ensures image { IfOk result (λ made. made.image ≡ image) }
        ensures disks { IfOk result (λ made. AreReadied grain image.volumes disks.items made.disks) }
        ensures back { IfErr result (λ back. AreHandedBack grain image.volumes disks.items back.0.items) }
        ensures stands { IfOk result (λ made. (now : Whole) (one : Option Another) → RecoversTo grain disks.items (kept_in image) now one → RecoversTo grain made.disks (kept_in image) now one) }
    {
        let Ok(buffer) = vec![in alloc; 0u8; grain.bytes() as usize] else {
            return Err((disks, NoMemory));
        };
        let disks = ready_all(grain, image.volumes.as_slice(), disks)?;
        Ok(Recovered {
            grain,
            image,
            disks,
            buffer,
        })
    }

    /// The volumes of the table, in order of id.
    pub fn volumes(&self) -> &[Volume]
        ensures { result.now ≡ self.now.image.volumes }
    {
        self.image.volumes.as_slice()
    }

    /// The first block of the volume at this place in the table, to be read. None where the volume has no grain.
    pub fn first_block(&self, place: usize) -> Option<ReadPart>
        requires { place < length self.now.image.volumes }
        ensures inside { IfSome result (λ part. IsInside self.now.grain (tables_in self.now.image) part.volume part.block part.count) }
        ensures part { (v : Volume) → slice_get self.now.image.volumes place ≡ Some v → MatchOption result (v.grains ≡ 0) (λ part. part ≡ record { volume = v.id; block = 0; count = 1 }) }
    {
        let volume = &self.image.volumes.as_slice()[place];
        if volume.grains == 0 {
            return None;
        }
        Some(ReadPart {
            volume: volume.id,
            block: 0,
            count: 1,
        })
    }

    /// What metadata says, as it was recovered.
    pub fn image(&self) -> &MetaImage
        ensures { result.now ≡ self.now.image }
    {
        &self.image
    }

    /// The disks, lane by lane.
    pub fn into_disks(self) -> Vec<LaneDisks<D>>
        ensures { result.items ≡ self.disks }
    {
        self.disks
    }
}

/// Makes the disks of all lanes ready for the volumes. Refused, those of each lane are as they were or ready.
fn ready_all<D: Mdisk>(
    grain: GrainSize,
    volumes: &[Volume],
    disks: Vec<LaneDisks<D>>,
) -> Result<Vec<LaneDisks<D>>, (Vec<LaneDisks<D>>, NoMemory)>
    requires { length disks.items < 2 ^ 32 }
    ensures ok { IfOk result (λ made. AreReadied grain volumes.now disks.items made.items) }
    ensures err { IfErr result (λ back. AreHandedBack grain volumes.now disks.items back.0.items) }
{
    let mut disks = disks;
    let lanes = disks.len() as u32;
    for lane in 0..lanes {
        let size = LaneSize { lane, lanes, grain };
        match disks[lane as usize].ready(&size, volumes) {
            Ok(()) => {}
            Err(NoMemory) => return Err((disks, NoMemory)),
        }
    }
    Ok(disks)
}
