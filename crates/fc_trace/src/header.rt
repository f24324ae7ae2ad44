//! The first line of a trace.

ghost use Rattle.std.specs.Prelude.{◌≡◌, ◌++◌, codes, decimal, is_err, length};
ghost use Rattle.std.specs.List.{flat_map};
ghost use Rattle.fc_base.specs.Grain.{grain_kib};
ghost use Rattle.fc_entry.specs.Written.{Written};
ghost use Rattle.fc_trace.specs.Trace.{disks_of, header_text};

use fc_base::disk::DiskKind;
use fc_base::outcome::Failed;
use fc_base::size::GrainSize;
use fc_entry::parts::{put_all, put_number, put_text};
use fc_io::sink::Sink;
use itoa::Buffer;

/// How many disks of each kind were handed in for a lane.
#[derive(Clone, Copy, PartialEq, Eq)]
pub struct LaneDisks {
    /// Disks that have all their grains.
    pub flat: u32,
    /// Disks that have a grain only once it is written.
    pub thin: u32,
}

/// What the store of a trace was made of.
#[derive(Clone, Copy, PartialEq, Eq)]
pub struct Header {
    /// The size of its grains.
    pub grain: GrainSize,
    /// How many disks of each kind were handed in for each of its four lanes.
    pub lanes: [LaneDisks; 4],
}

impl LaneDisks {
    /// How many disks of this kind were handed in.
    fn of(self, kind: DiskKind) -> u32
        ensures { result ≡ disks_of kind self }
    {
        match kind {
            DiskKind::Flat => self.flat,
            DiskKind::Thin => self.thin,
        }
    }
}

/// Puts how many disks of this kind each lane has, each number behind a space.
fn put_counts<K: Sink>(lanes: &[LaneDisks], kind: DiskKind, sink: &mut K) -> Result<(), Failed>
    ensures { Written (K.meaning sink.old) (flat_map (λ lane. codes " " ++ decimal (disks_of kind lane)) lanes.now)
        (is_err result) (K.meaning sink.new) }
{
    for lane in lanes {
        match put_number(sink, b" ", lane.of(kind)) {
            Ok(()) => {}
            Err(failed) => return Err(failed),
        }
    }
    Ok(())
}

/// Puts the grain size and the number of lanes.
fn put_store<K: Sink>(grain: GrainSize, lanes: usize, sink: &mut K) -> Result<(), Failed>
    ensures { Written (K.meaning sink.old)
        (codes "trace " ++ decimal (grain_kib grain) ++ codes " " ++ decimal lanes ++ codes " flat") (is_err result)
        (K.meaning sink.new) }
{
    let mut size = Buffer::new();
    let mut count = Buffer::new();
    put_all(
        sink,
        &[
            b"trace ",
            size.format(grain.kib()).as_bytes(),
            b" ",
            count.format(lanes).as_bytes(),
            b" flat",
        ],
    )
}

/// Puts the first line of a trace: the grain in KiB, how many lanes there are, and how many disks of each kind were handed
/// in for each of them. Takes no memory. Failed, a front of the line was added, and the sink's count of faults rose in this
/// call or stands at its last value.
pub fn put_header<K: Sink>(
    grain: GrainSize,
    lanes: &[LaneDisks],
    sink: &mut K,
) -> Result<(), Failed>
    ensures { Written (K.meaning sink.old) (header_text grain lanes.now) (is_err result) (K.meaning sink.new) }
{
    put_store(grain, lanes.len(), sink)?;
    put_counts(lanes, DiskKind::Flat, sink)?;
    put_text(sink, b" thin")?;
    put_counts(lanes, DiskKind::Thin, sink)?;
    put_text(sink, b"\n")
}
