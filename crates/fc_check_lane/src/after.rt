//! What a judge keeps after an entry of a lane.

ghost use Rattle.std.specs.Prelude.{◌≡◌, ◌+◌, ◌^◌, ◌<◌, [], OnOk, slice_set};
ghost use Rattle.fc_entry.specs.PlainStep.{after_loss, after_request, plain_step};
ghost use Rattle.fc_legal.specs.Whole.{single_lane};
ghost use Rattle.fc_rules.specs.LaneRight.{done_write};
ghost use Rattle.fc_rules.specs.LaneTold.{sheet_entry};
ghost use Rattle.fc_check_lane.specs.After.{after_entry, chains_torn, chains_written};

use crate::known::Known;
use crate::steps::make_moves;
use fc_base::outcome::NoMemory;
use fc_base::request::{Reply, Request, Torn, WritePart};
use fc_base::size::GrainSize;
use fc_check_picture::Picture;
use fc_entry::entry::Entry;
use fc_model::PlainSheet;
use fc_plain::grain_at;
use std::alloc::Global;

/// The write of an entry, where it was done.
pub fn done_write(request: &Request, reply: &Reply) -> Option<WritePart>
    ensures { result ≡ done_write request.now reply.now }
{
    match (request, reply) {
        (Request::Write(part), Reply::Done) => Some(*part),
        _ => None,
    }
}

/// Notes a write in the chains, if one was done.
fn write_chains(sheet: &mut PlainSheet, size: GrainSize, write: Option<WritePart>)
    ensures { sheet.new ≡ chains_written size sheet.old write }
{
    match write {
        Some(part) => sheet.written(part.volume, grain_at(size, part.block) as usize),
        None => {}
    }
}

/// Notes a torn grain in the chains, if there is one.
fn tear_chains(sheet: &mut PlainSheet, torn: Option<Torn>)
    ensures { sheet.new ≡ chains_torn sheet.old torn }
{
    match torn {
        Some(torn) => sheet.torn(torn.volume, torn.grain.0 as usize, torn.side),
        None => {}
    }
}

/// The chains after an entry: its moves, its write where that was done, and what it tore.
fn follow_chains(sheet: &mut PlainSheet, size: GrainSize, entry: &Entry)
    ensures { sheet.new ≡ sheet_entry (single_lane size) sheet.old (done_write entry.now.request entry.now.reply) entry.now.moves entry.now.torn }
{
    make_moves(sheet, entry.moves.as_slice());
    write_chains(sheet, size, done_write(&entry.request, &entry.reply));
    tear_chains(sheet, entry.torn);
}

/// What plain volumes hold after a write, if one was done.
fn write_plain(
    alloc: Global,
    picture: &mut Picture<u8>,
    size: GrainSize,
    entry: &Entry,
) -> Result<(), NoMemory>
    ensures { OnOk result (picture.new ≡ after_request size picture.old entry.now.request entry.now.reply) }
{
    match done_write(&entry.request, &entry.reply) {
        Some(part) => picture.write(alloc, size, part),
        None => Ok(()),
    }
}

/// What plain volumes hold after a torn grain, if there is one.
fn tear_plain(picture: &mut Picture<u8>, torn: Option<Torn>)
    ensures { picture.new ≡ after_loss picture.old torn }
{
    match torn {
        Some(torn) => picture.tear(torn),
        None => {}
    }
}

/// What plain volumes hold after an entry with no effects.
fn follow_plain(
    alloc: Global,
    picture: &mut Picture<u8>,
    size: GrainSize,
    entry: &Entry,
) -> Result<(), NoMemory>
    requires { entry.now.effects ≡ [] }
    ensures { OnOk result (picture.new ≡ plain_step size picture.old entry.now) }
{
    write_plain(alloc, picture, size, entry)?;
    tear_plain(picture, entry.torn);
    Ok(())
}

/// The faults of a lane become these; there may be no such lane.
fn set_faults(faults: &mut [u64], lane: usize, now: u64)
    ensures { faults.new ≡ slice_set faults.old lane now }
{
    if lane < faults.len() {
        faults[lane] = now;
    }
}

impl Known {
    /// Keeps what an entry of a lane did, which has no effects: what it moved, wrote and tore, its faults, and
    /// that there is one more. It asks nothing else of the entry. Refused for want of memory alone; then a part
    /// of it may be kept.
    pub fn follow(&mut self, alloc: Global, lane: usize, entry: &Entry) -> Result<(), NoMemory>
        requires no_effects { entry.now.effects ≡ [] }
        requires few { self.old.entries + 1 < 2 ^ 64 }
        ensures { OnOk result (self.new ≡ after_entry self.old lane entry.now) }
    {
        follow_plain(alloc, &mut self.picture, self.grain, entry)?;
        follow_chains(&mut self.sheet, self.grain, entry);
        set_faults(self.faults.as_mut_slice(), lane, entry.faults_after);
        self.entries += 1;
        Ok(())
    }
}
