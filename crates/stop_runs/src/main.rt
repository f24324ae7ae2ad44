//! Sessions that stop at each call of their disk of metadata: what is printed, call by call.
//!
//! The first is that of docs/MANUAL.md, "Stops". Its calls are 40, so at the forty-first it isn't stopped. The second has two presets, from
//! its fifteenth call to its last, which is the sixty-second. The third is run over small disks of metadata, which get full: by an image,
//! by a batch behind one, and by the first image. Before what is printed of each stands a line with the call, the status, and how many
//! disks of data came back.
#![tactic(auto)]

ghost use Rattle.std.specs.Prelude.{◌<◌};

use fc_entry::history::History;
use fc_io::mem_sink::MemSink;
use fc_io::mem_source::MemSource;
use fc_metadisk::StopMeta;
use fc_stopped::run_over;
use made_disks::flat_disks;
use std::alloc::{AllocError, Global};
use std::io;

/// The lines of the session.
const SESSION: &str = "mkvdisk -name A -size 128 -unit kb
mkvdisk -name B -size 128 -unit kb
write A 0 1 11
mkfcmap -source A -target B -copyrate 0
startfcmap -prep 0
write A 0 1 22
";

/// The lines of a session with presets: one that is whole, and one that is undone, since its source is offline.
const PRESETS: &str = "mkvdisk -name A -size 64 -unit kb
write A 0 1 11
mkpreset -source A -preset clone -name c
stopfcmap 0
mkpreset -source c -preset backup -name d
";

/// The lines of a session for which a disk of metadata may be too small. Its volume's image takes 126 bytes of a half, the first gate
/// included, and each write a batch of 14; with the second volume it would be 194.
const FULL: &str = "mkvdisk -name A -size 64 -unit kb
write A 0 1 11
write A 0 1 22
mkvdisk -name B -size 64 -unit kb
";

/// The bytes of a disk of metadata with room for each session.
const META_BYTES: u32 = 4096;

/// Those of a disk whose halves have room for the image and a batch, for the image alone, and not for the first image.
const NO_SECOND_VOLUME: u32 = 280;

const NO_BATCH: u32 = 260;

const NO_IMAGE: u32 = 114;

/// How many disks of data there are.
const DISKS: u32 = 64;

/// What is written of a session over a disk of metadata of so many bytes, stopped at this call: the status, how many disks come back, and
/// the text.
fn stopped_at(
    alloc: Global,
    session: &str,
    bytes: u32,
    call: u32,
) -> Result<(u8, usize, MemSink), AllocError>
    requires { 0 < call }
{
    let lines = Vec::from_slice(alloc, session.as_bytes())?;
    let mut source = MemSource::new(lines, 4096, Vec::new(alloc));
    let mut sink = MemSink::new(alloc, Vec::new(alloc));
    let mut history = History::new(alloc);
    let mut disks = flat_disks(alloc, DISKS)?;
    let Ok(meta) = StopMeta::new(alloc, bytes, call) else {
        return Err(AllocError);
    };
    let status = run_over(
        alloc,
        call,
        meta,
        &mut source,
        &mut sink,
        &mut disks,
        &mut history,
    );
    Ok((status.code(), disks.len(), sink))
}

fn main(rt: HostRuntime) -> io::Result<()> {
    let alloc = rt.alloc();
    for call in 1..42 {
        let (status, disks, sink) = stopped_at(alloc, SESSION, META_BYTES, call)?;
        println!(rt; "== {call} status {status} disks {disks}")?;
        rt.stdout().write_all(sink.bytes())?;
    }
    for call in 15..64 {
        let (status, disks, sink) = stopped_at(alloc, PRESETS, META_BYTES, call)?;
        println!(rt; "== presets {call} status {status} disks {disks}")?;
        rt.stdout().write_all(sink.bytes())?;
    }
    for call in 11..30 {
        let (status, disks, sink) = stopped_at(alloc, FULL, NO_SECOND_VOLUME, call)?;
        println!(rt; "== full of an image {call} status {status} disks {disks}")?;
        rt.stdout().write_all(sink.bytes())?;
    }
    for call in 11..19 {
        let (status, disks, sink) = stopped_at(alloc, FULL, NO_BATCH, call)?;
        println!(rt; "== full of a batch {call} status {status} disks {disks}")?;
        rt.stdout().write_all(sink.bytes())?;
    }
    for call in 1..3 {
        let (status, disks, sink) = stopped_at(alloc, FULL, NO_IMAGE, call)?;
        println!(rt; "== full at first {call} status {status} disks {disks}")?;
        rt.stdout().write_all(sink.bytes())?;
    }
    Ok(())
}
