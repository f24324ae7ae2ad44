//! A drill: the generated session of a number, and the summary of its history.

ghost use Rattle.std.specs.Prelude.{◌≡◌, ◌≢◌, ◌≤◌, ◌<◌, ◌^◌, map, length, vec_len};
ghost use Rattle.std.specs.List.{All};
ghost use Rattle.fc_call.specs.Call.{empty};
ghost use Rattle.fc_io.specs.Source.{SourceState};
ghost use Rattle.fc_mdisk.specs.Disk.{IsFresh};
ghost use Rattle.fc_top.specs.Ends.{DrillEnds};

use crate::gate::Gate;
use crate::plain::run_plain;
use crate::status::Status;
use fc_base::outcome::NoMemory;
use fc_base::size::GrainSize;
use fc_entry::history::History;
use fc_gen::session;
use fc_io::mem_source::MemSource;
use fc_io::sink::Sink;
use fc_mdisk::mdisk::Mdisk;
use fc_run::form::Form;
use std::alloc::Global;
use std::sync::Wait;
use std::thread::Threads;

/// The greatest piece that a drill takes of its session.
const PIECE_BYTES: usize = 65_536;

/// Runs the generated session of a number, and writes the summary of its history.
pub(crate) fn run_drill<R: Threads + Wait + Sync, K: Sink, D: Mdisk + Send, G: Gate>(
    rt: &R,
    alloc: Global,
    number: u64,
    sink: &mut K,
    disks: &mut Vec<D>,
    gate: &G,
    history: &mut History,
) -> Status
    requires empty { history.old ≡ empty }
    requires few { vec_len disks.old < 2 ^ 30 }
    requires fresh { All IsFresh (map D.meaning disks.old.items) }
    ensures ends { (outer : SourceState) → DrillEnds number
        (record {
          status = result;
          source = outer;
          source' = outer;
          sink = K.meaning sink.old;
          sink' = K.meaning sink.new;
          disks = map D.meaning disks.old.items;
          disks' = map D.meaning disks.new.items;
          history = history.new;
        }) }
    ensures limit { length history.new.entries ≤ 262144 }
    ensures ran { result ≢ Status.Usage }
{
    let bytes = match session(alloc, number) {
        Ok(bytes) => bytes,
        Err(NoMemory) => return Status::NoMemory,
    };
    let mut source = MemSource::new(bytes, PIECE_BYTES, Vec::new(alloc));
    run_plain(
        rt,
        alloc,
        Form::Summary,
        GrainSize::K64,
        &mut source,
        sink,
        disks,
        gate,
        history,
    )
}
