//! Plain volumes, whose state an entry changes and a read tells.

ghost use Rattle.std.specs.Prelude.{◌≡◌, ◌<◌, ◌^◌, [], OnOk, OnErr, IfOk};
ghost use Rattle.fc_entry.specs.PlainStep.{plain_step, after_request, after_loss};
ghost use Rattle.fc_plain.specs.Changes.{write_of};
ghost use Rattle.fc_plain.specs.Reading.{IsPlainRead};

use crate::change::{tear_torn, write_done};
use crate::effect::{do_effects, volume_copies};
use crate::reading::{PlainRead, read_among};
use crate::volume::Volume;
use fc_base::ids::VolId;
use fc_base::outcome::NoMemory;
use fc_base::request::{Reply, Request, WritePart};
use fc_base::size::GrainSize;
use fc_entry::entry::Entry;
use std::alloc::Global;
use std::marker::Model;

/// Plain volumes of grains of one size.
#[derive(Drop)]
pub struct Plain {
    alloc: Global,
    grain: GrainSize,
    volumes: Vec<Volume>,
}

impl Model for Plain {
    ghost use Rattle.fc_plain.specs.Plain.{PlainVolumes};

    ghost Value = { PlainVolumes };

    ghost view = { λ p. record { grain = p.grain; picture = p.volumes.items } };
}

/// The write that was done, if one was.
fn done_write(request: &Request, reply: &Reply) -> Option<WritePart>
    ensures { result ≡ write_of request.now reply.now }
{
    match (request, reply) {
        (Request::Write(part), Reply::Done) => Some(*part),
        _ => None,
    }
}

/// Does the write and the torn grain of an entry. Refused, all volumes are as they were.
fn do_request(
    alloc: Global,
    grain: GrainSize,
    volumes: &mut [Volume],
    entry: &Entry,
) -> Result<(), NoMemory>
    ensures ok { OnOk result (volumes.new ≡ after_loss (after_request grain volumes.old entry.now.request entry.now.reply) entry.now.torn) }
    ensures err { OnErr result (volumes.new ≡ volumes.old) }
{
    write_done(
        alloc,
        grain,
        volumes,
        done_write(&entry.request, &entry.reply),
    )?;
    tear_torn(volumes, entry.torn);
    Ok(())
}

impl Plain {
    /// No volumes. Takes no memory.
    pub fn new(alloc: Global, grain: GrainSize) -> Plain
        ensures { result ≡ record { grain = grain; picture = [] } }
    {
        Plain {
            alloc,
            grain,
            volumes: Vec::new(alloc),
        }
    }

    /// Does the plain step of an entry: a done write, a torn grain and the effects, in their order. It asks nothing of the
    /// entry. Refused, all volumes are as they were.
    pub fn apply(&mut self, entry: &Entry) -> Result<(), NoMemory>
        ensures ok { OnOk result (self.new ≡ record self.old { picture = plain_step self.old.grain self.old.picture entry.now }) }
        ensures err { OnErr result (self.new ≡ self.old) }
    {
        if entry.effects.as_slice().is_empty() {
            return do_request(self.alloc, self.grain, &mut self.volumes, entry);
        }
        let mut volumes = volume_copies(self.alloc, self.volumes.as_slice())?;
        do_request(self.alloc, self.grain, &mut volumes, entry)?;
        do_effects(
            self.alloc,
            self.grain,
            &mut volumes,
            entry.effects.as_slice(),
        )?;
        self.volumes = volumes;
        Ok(())
    }

    /// What the volume holds at the blocks from `block` on, `count` of them, which may stand in several grains: `NoSuch`
    /// exactly where the volume or one of the blocks isn't there, otherwise `Lost` exactly where one of them stands in a
    /// lost grain, and otherwise their bytes.
    pub fn read(&self, volume: VolId, block: u64, count: u32) -> Result<PlainRead, NoMemory>
        requires { count < 2 ^ 23 }
        ensures { IfOk result (λ read. IsPlainRead self.now.grain self.now.picture volume block count read) }
    {
        read_among(
            self.alloc,
            self.grain,
            self.volumes.as_slice(),
            volume,
            block,
            count,
        )
    }
}
