//! Why a read gives its bytes.

ghost use Rattle.std.specs.Prelude.{◌≡◌, option_map};
ghost use Rattle.fc_drawing.specs.Reasons.{IsReasonOf, IsTheReason, done_read, explained_of, part_in};

use fc_base::ids::VolId;
use fc_base::request::{ReadPart, Reply, Request};
use fc_base::size::GrainSize;
use fc_check_picture::block_in_grain;
use fc_entry::entry::Entry;
use fc_model::PlainSheet;
use fc_origins::Origins;
use fc_origins::origin::Origin;
use fc_plain::grain_at;

/// Who holds a grain for a volume, and by which writes some of its blocks came.
#[derive(Clone, Copy)]
pub struct Reason<'a> {
    /// The blocks.
    pub part: Part,
    /// The place of the volume's live slot.
    pub live: usize,
    /// The place of the slot at which it reads: its holder.
    pub holder: usize,
    /// By which write each block came; None where the grain was lost.
    pub blocks: Option<&'a [Origin]>,
}

/// Blocks of one grain of a volume.
#[derive(Clone, Copy, PartialEq, Eq)]
pub struct Part {
    /// The volume.
    pub volume: VolId,
    /// The grain.
    pub grain: usize,
    /// The first block, from the first of the grain on.
    pub from: usize,
    /// How many.
    pub count: usize,
}

/// Why a read of these blocks gives what it gives. None exactly where the volume isn't there, or nobody holds the
/// grain for it.
pub fn reason_of<'a>(sheet: &PlainSheet, origins: &'a Origins, part: Part) -> Option<Reason<'a>>
    ensures { IsTheReason sheet.now.slots origins.now part (option_map explained_of result) }
{
    match sheet.live_place(part.volume) {
        Some(live) => match sheet.holder(live, part.grain) {
            Some(holder) => Some(Reason {
                part,
                live,
                holder,
                blocks: origins.part(part.volume, part.grain, part.from, part.count),
            }),
            None => None,
        },
        None => None,
    }
}

/// What an entry read: the part, where it gave bytes, or would have but for a grain that was lost.
fn done_read(entry: &Entry) -> Option<ReadPart>
    ensures { result ≡ done_read entry.now.request entry.now.reply }
{
    match (&entry.request, &entry.reply) {
        (Request::Read(part), Reply::Bytes(_) | Reply::MediumError) => Some(*part),
        _ => None,
    }
}

/// The blocks that a read takes from its grain.
fn part_in(size: GrainSize, read: ReadPart) -> Part
    ensures { result ≡ part_in size read }
{
    Part {
        volume: read.volume,
        grain: grain_at(size, read.block) as usize,
        from: block_in_grain(size, read.block),
        count: read.count as usize,
    }
}

/// Why an entry read what it gave: None where it isn't a read that gave bytes or found their grain lost.
pub fn reason_of_entry<'a>(
    size: GrainSize,
    sheet: &PlainSheet,
    origins: &'a Origins,
    entry: &Entry,
) -> Option<Reason<'a>>
    ensures { IsReasonOf size sheet.now.slots origins.now (done_read entry.now.request entry.now.reply) (option_map explained_of result) }
{
    match done_read(entry) {
        Some(read) => reason_of(sheet, origins, part_in(size, read)),
        None => None,
    }
}
