//! Reads of volumes.

ghost use Rattle.std.specs.Prelude.{◌≡◌, ◌+◌, ◌*◌, ◌<◌, ◌≤◌, ◌/◌, ◌%◌, Option, IfOk, is_err, length};
ghost use Rattle.fc_base.specs.Grain.{block_bytes, grain_blocks, grain_bytes};
ghost use Rattle.fc_books.specs.Accesses.{access_in};
ghost use Rattle.fc_entry.specs.Picture.{Bytes, grain_of_block, byte_in_grain, volume_in, now_at};
ghost use Rattle.fc_entry.specs.Reads.{IsRightIn};
ghost use Rattle.fc_kept.specs.Images.{tables_in, kept_in};
ghost use Rattle.fc_kept.specs.OneGrain.{Another, with_another};
ghost use Rattle.fc_kept.specs.Recoverable.{disks_at};
ghost use Rattle.fc_legal.specs.Steps.{IsInside};
ghost use Rattle.fc_legal.specs.Whole.{Whole};
ghost use Rattle.fc_recovered.specs.Answering.{IsAnswerBy, IsAnswerOf, AfterReply, HasDiskGrain, ReadsGrain};
ghost use Rattle.fc_recovered.specs.Recovered.{IsRecovered, RecoversTo};
ghost use Rattle.fc_recovered.specs.Showing.{shown_at};

use crate::chains::holder_volume;
use crate::lane_disks::LaneDisks;
use crate::lost::is_lost;
use crate::recovered::Recovered;
use fc_base::ids::VolId;
use fc_base::limits::BLOCK_BYTES;
use fc_base::outcome::{Failed, NoMemory};
use fc_base::request::{ReadPart, Reply};
use fc_base::runs::Runs;
use fc_base::size::GrainSize;
use fc_base::state::Access;
use fc_group::access_in;
use fc_image::MetaImage;
use fc_mdisk::mdisk::Mdisk;
use std::alloc::Global;

impl<D: Mdisk> Recovered<D> {
    /// Reads blocks of one grain of a volume, as a host would: the bytes that the volume's holder has there. A volume that isn't
    /// online answers how it may be reached, a lost grain a medium error, and where the read of its disk fails a disk fault, which is
    /// counted. The bytes may want memory.
    pub fn read(&mut self, alloc: Global, part: ReadPart) -> Reply
        requires { IsInside self.old.grain (tables_in self.old.image) part.volume part.block part.count }
        ensures shown { IsAnswerBy (access_in (tables_in self.old.image) part.volume) self.old.grain part (shown_at self.old.grain self.old.disks (kept_in self.old.image) part.volume.0 (grain_of_block self.old.grain part.block)) result }
        ensures plain { (now : Whole) (one : Option Another) → RecoversTo self.old.grain self.old.disks (kept_in self.old.image) now one →
            IsAnswerBy (access_in now.books.tables part.volume) self.old.grain part (now_at (volume_in (with_another one (kept_in self.old.image).sheet.slots now.picture) part.volume) (grain_of_block self.old.grain part.block)) result }
        ensures disks { AfterReply result self.old.disks self.new.disks }
        ensures stands { (now : Whole) (one : Option Another) → RecoversTo self.old.grain self.old.disks (kept_in self.old.image) now one → RecoversTo self.old.grain self.new.disks (kept_in self.old.image) now one }
        ensures grain { self.new.grain ≡ self.old.grain }
        ensures image { self.new.image ≡ self.old.image }
    {
        match access_in(self.image.mappings.as_slice(), part.volume) {
            Access::Online => read_online(
                self.grain,
                &self.image,
                &mut self.disks,
                &mut self.buffer,
                alloc,
                part,
            ),
            Access::Offline { map, state } => Reply::Offline { map, state },
            Access::NotAccessible { map } => Reply::NotAccessible { map },
        }
    }
}

/// Reads blocks of one grain of a volume that is online.
fn read_online<D: Mdisk>(
    grain: GrainSize,
    image: &MetaImage,
    disks: &mut Vec<LaneDisks<D>>,
    buffer: &mut Vec<u8>,
    alloc: Global,
    part: ReadPart,
) -> Reply
    requires holds { IsRecovered grain image.now disks.old.items buffer.old.items }
    requires inside { IsInside grain (tables_in image.now) part.volume part.block part.count }
    ensures holds { IsRecovered grain image.now disks.new.items buffer.new.items }
    ensures shown { IsAnswerOf grain part (shown_at grain disks.old.items (kept_in image.now) part.volume.0 (grain_of_block grain part.block)) result }
    ensures disks { AfterReply result disks.old.items disks.new.items }
{
    let number = (part.block / grain.blocks() as u64) as u32;
    match holder_volume(image.chains.as_slice(), part.volume, number) {
        Some(source) => {
            if is_lost(image.lost.as_slice(), source, number) {
                return Reply::MediumError;
            }
            match read_grain(disks, source, number, buffer) {
                Err(Failed) => Reply::DiskFault,
                Ok(()) => match runs_of(grain, alloc, buffer.as_slice(), &part) {
                    Ok(runs) => Reply::Bytes(runs),
                    Err(NoMemory) => Reply::NoMemory,
                },
            }
        }
        None => unreachable!(),
    }
}

/// Reads a grain of a volume, in its lane: one call of the volume's disk there.
fn read_grain<D: Mdisk>(
    disks: &mut Vec<LaneDisks<D>>,
    volume: VolId,
    number: u32,
    out: &mut Vec<u8>,
) -> Result<(), Failed>
    requires some { 0 < length disks.old.items }
    requires there { HasDiskGrain (disks_at disks.old.items (number % length disks.old.items)) volume.0 (number / length disks.old.items) (length out.old.items) }
    ensures reads { ReadsGrain disks.old.items volume.0 number (is_err result) out.new.items disks.new.items }
    ensures size { length out.new.items ≡ length out.old.items }
{
    let number = number as usize;
    let lanes = disks.len();
    let place = (number / lanes) as u32;
    disks[number % lanes].read(volume, place, out)
}

/// The bytes of a part of a grain, as runs. Wants memory for them.
fn runs_of(grain: GrainSize, alloc: Global, bytes: &[u8], part: &ReadPart) -> Result<Runs, NoMemory>
    requires size { length bytes.now ≡ grain_bytes grain }
    requires in_one { part.now.block % grain_blocks grain + part.now.count ≤ grain_blocks grain }
    ensures { IfOk result (λ runs. IsRightIn (byte_in_grain grain part.now.block) (block_bytes * part.now.count) (Bytes bytes.now) runs) }
{
    let start = (BLOCK_BYTES * (part.block % grain.blocks() as u64) as u32) as usize;
    let len = (BLOCK_BYTES * part.count) as usize;
    Runs::of(alloc, &bytes[start..start + len])
}
