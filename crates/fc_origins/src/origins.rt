//! By which writes what all volumes hold came.

ghost use Rattle.std.specs.Prelude.{◌≡◌, ◌*◌, ◌^◌, ◌<◌, ◌≤◌, [], IfOk, IfSome, OnOk, length, map, option_copied, option_map};
ghost use Rattle.fc_base.specs.Grain.{block_bytes};
ghost use Rattle.fc_check_picture.specs.Blocks.{content_of, part_of};
ghost use Rattle.fc_entry.specs.Picture.{now_at, volume_in};
ghost use Rattle.fc_entry.specs.PlainStep.{after_loss, after_request};
ghost use Rattle.fc_origins.specs.Blocks.{number_of};
ghost use Rattle.fc_origins.specs.Origins.{marked_request, origin_step};

use crate::origin::Origin;
use fc_base::ids::VolId;
use fc_base::outcome::NoMemory;
use fc_base::request::{Reply, Request, Torn};
use fc_base::size::GrainSize;
use fc_check_picture::Picture;
use fc_entry::entry::Entry;
use std::alloc::Global;
use std::marker::Model;

/// By which writes what all volumes hold came.
#[derive(Drop)]
pub struct Origins {
    picture: Picture<Origin>,
}

impl Model for Origins {
    ghost use Rattle.fc_entry.specs.Picture as told;

    ghost Value = { told.Picture };

    ghost view = { λ o. o.picture };
}

impl Origins {
    /// No volumes. Takes no memory.
    pub fn new(alloc: Global) -> Origins
        ensures { result ≡ [] }
    {
        Origins {
            picture: Picture::new(alloc),
        }
    }

    /// By which writes `count` blocks of a volume's grain came, from the block `from` of the grain on, or fewer where it
    /// has fewer; None where the grain was lost or isn't there.
    pub fn part(&self, volume: VolId, grain: usize, from: usize, count: usize) -> Option<&[Origin]>
        ensures blocks { content_of (option_map (map number_of) (option_copied result)) ≡ part_of (block_bytes * from) (block_bytes * count) (now_at (volume_in self.now volume) grain) }
        ensures within { IfSome result (λ blocks. length blocks.now ≤ count) }
    {
        self.picture.part(volume, grain, from, count)
    }

    /// The write of the entry with this number was done, if it was one.
    fn write(
        &mut self,
        alloc: Global,
        size: GrainSize,
        number: u32,
        request: &Request,
        reply: &Reply,
    ) -> Result<(), NoMemory>
        ensures { OnOk result (self.new ≡ after_request size self.old (marked_request number request.now) reply.now) }
    {
        match (request, reply) {
            (Request::Write(part), Reply::Done) => {
                let origin = Origin {
                    write: Some(number),
                };
                self.picture.write_mark(alloc, size, *part, origin)
            }
            _ => Ok(()),
        }
    }

    /// A grain was torn, if there is one.
    fn tear(&mut self, torn: Option<Torn>)
        ensures { self.new ≡ after_loss self.old torn }
    {
        match torn {
            Some(torn) => self.picture.tear(torn),
            None => {}
        }
    }

    /// Goes on behind an entry: its write where that was done, the grain that it tore, and its effects, in their order. It
    /// asks nothing else of the entry. Refused for want of memory alone; then it may stand for anything.
    pub fn follow(&mut self, alloc: Global, size: GrainSize, entry: &Entry) -> Result<(), NoMemory>
        requires { entry.now.number < 2 ^ 32 }
        ensures { OnOk result (self.new ≡ origin_step size self.old entry.now) }
    {
        self.write(
            alloc,
            size,
            entry.number as u32,
            &entry.request,
            &entry.reply,
        )?;
        self.tear(entry.torn);
        self.picture.apply(alloc, size, entry.effects.as_slice())
    }
}
