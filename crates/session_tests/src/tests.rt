//! Sessions that end as they should, and such whose calls fail.

ghost use Rattle.std.specs.Prelude.{◌<◌, ◌^◌};

use crate::sessions::{Calls, Outcome, run_flat};
use fc_top::status::Status;
use session_texts::longer::{Answered, all_answers, answers_within, lines, session};
use session_texts::texts::FIRST_VOLUME;
use std::alloc::{AllocError, Global};
use std::process::Abort;
use std::sync::Wait;
use std::thread::Threads;

/// Faults that are armed and disarmed, and a second volume where the first has taken all disks.
const ONE_VOLUME: &[u8] = b"mkvdisk -name A -size 64 -unit kb
write A 0 1 11
armfault A 1 1
armfault A 0 1
read A 0 1
read A 0 1
armfault A 0 1
armfault A 0 0
read A 0 1
mkvdisk -size 1
rmvdisk A
mkvdisk -size 1
";

const ONE_VOLUME_TEXT: &[u8] =
    b"0 main mkvdisk -name A -size 64 -unit kb -> Virtual Disk, id [0], successfully created
1 main write 0 0 1 11 -> ok
2 main armfault A 1 1 -> refused bad value of grain
3 main armfault A 0 1 -> ok
4 main read 0 0 1 -> disk fault
5 main read 0 0 1 -> data 512*11
6 main armfault A 0 1 -> ok
7 main armfault A 0 0 -> ok
8 main read 0 0 1 -> data 512*11
9 main mkvdisk -size 1 -> refused no disk
10 main rmvdisk A -> ok
11 main mkvdisk -size 1 -> refused no disk
";

const NO_DISK_TEXT: &[u8] = b"0 main mkvdisk -size 1 -> refused no disk\n";

/// Presets over flat disks alone: a clone whose mapping is refused, a snapshot that no disk is there for, and none.
const PRESETS: &[u8] = b"mkvdisk -name A -size 64 -unit kb
mkvdisk -name B -size 64 -unit kb
mkfcmap -source A -target B -name s1
mkpreset -source A -preset clone -name s1
mkpreset -source A -preset snapshot
mkpreset -source A -preset mirror
";

const PRESETS_TEXT: &[u8] =
    b"0 main mkvdisk -name A -size 64 -unit kb -> Virtual Disk, id [0], successfully created
1 main mkvdisk -name B -size 64 -unit kb -> Virtual Disk, id [1], successfully created
2 main mkfcmap -source A -target B -name s1 -> FlashCopy Mapping, id [0], successfully created
3 main mkvdisk -name s1 -size 64 -unit kb -> Virtual Disk, id [2], successfully created
4 main mkfcmap -source A -target 2 -name s1 -copyrate 50 -autodelete -> refused name taken 0
5 main rmvdisk 2 -> ok
6 main mkvdisk -size 64 -unit kb -thin -> refused no disk
7 main - -> refused bad number at word 5
";

/// A volume is made and written, and a block begins that the input ends.
const UNENDED_BLOCK: &[u8] = b"mkvdisk -name A -size 1
write A 0 1 5a
together
actor first host
write A 0 1 11
";

/// What stands before the block is answered, and nothing in it.
const UNENDED_BLOCK_TEXT: &[u8] =
    b"0 main mkvdisk -name A -size 1 -> Virtual Disk, id [0], successfully created
1 main write 0 0 1 5a -> ok
";

/// How many disks there are: one for each lane.
const DISKS: u32 = 4;

/// How many disks the presets have.
const PRESET_DISKS: u32 = 16;

/// How many bytes of the longer session a `take` gives at most.
const PIECE: usize = 211;

/// What is to come of a session.
#[derive(Clone, Copy)]
struct Wanted<'a> {
    status: Status,
    text: &'a [u8],
    entries: usize,
}

/// A session ended so, after so many entries, and so many disks came back.
fn expect_end(rt: &impl Abort, outcome: &Outcome, status: Status, entries: usize, disks: u32) {
    assert!(rt; outcome.status == status);
    assert!(rt; outcome.entries == entries);
    assert!(rt; outcome.disks == disks as usize);
}

/// Runs a session over so many flat disks, and asserts that this comes of it, and that all disks come back.
fn comes<R: Abort + Threads + Wait + Sync>(
    rt: &R,
    alloc: Global,
    disks: u32,
    session: &[u8],
    calls: Calls,
    wanted: Wanted,
) -> Result<(), AllocError>
    requires piece { 0 < calls.piece }
    requires few { disks < 2 ^ 30 }
{
    let outcome = run_flat(rt, alloc, disks, "64", session, calls)?;
    expect_end(rt, &outcome, wanted.status, wanted.entries, disks);
    assert!(rt; outcome.written.as_slice() == wanted.text);
    Ok(())
}

/// All lines are answered so, with so many entries.
fn done(text: &[u8], entries: usize) -> Wanted {
    Wanted {
        status: Status::Done,
        text,
        entries,
    }
}

#[test]
fn the_first_volume_is_made_written_and_read(rt: HostRuntime) -> Result<(), AllocError> {
    let wanted = done(FIRST_VOLUME.text, 3);
    let calls = Calls::of(65_536);
    comes(&rt, rt.alloc(), DISKS, FIRST_VOLUME.lines, calls, wanted)
}

#[test]
fn nothing_comes_of_nothing(rt: HostRuntime) -> Result<(), AllocError> {
    comes(&rt, rt.alloc(), DISKS, b"", Calls::of(5), done(b"", 0))
}

#[test]
fn a_volume_takes_its_disks_for_good(rt: HostRuntime) -> Result<(), AllocError> {
    let wanted = done(ONE_VOLUME_TEXT, 12);
    comes(
        &rt,
        rt.alloc(),
        DISKS,
        ONE_VOLUME,
        Calls::of(65_536),
        wanted,
    )
}

#[test]
fn a_preset_that_is_refused_is_undone(rt: HostRuntime) -> Result<(), AllocError> {
    let wanted = done(PRESETS_TEXT, 8);
    comes(
        &rt,
        rt.alloc(),
        PRESET_DISKS,
        PRESETS,
        Calls::of(65_536),
        wanted,
    )
}

#[test]
fn a_block_that_the_input_ends_is_not_run(rt: HostRuntime) -> Result<(), AllocError> {
    let wanted = Wanted {
        status: Status::Unended,
        text: UNENDED_BLOCK_TEXT,
        entries: 2,
    };
    for piece in [7, 65_536] {
        comes(
            &rt,
            rt.alloc(),
            DISKS,
            UNENDED_BLOCK,
            Calls::of(piece),
            wanted,
        )?;
    }
    Ok(())
}

#[test]
fn no_volume_is_made_without_disks(rt: HostRuntime) -> Result<(), AllocError> {
    let wanted = done(NO_DISK_TEXT, 1);
    comes(
        &rt,
        rt.alloc(),
        0,
        b"mkvdisk -size 1\n",
        Calls::of(65_536),
        wanted,
    )
}

#[test]
fn the_fourth_take_fails_before_the_first_line_has_ended(
    rt: HostRuntime,
) -> Result<(), AllocError> {
    let wanted = Wanted {
        status: Status::ReadFault,
        text: b"",
        entries: 0,
    };
    let calls = Calls::of(5).without_take(4);
    comes(&rt, rt.alloc(), DISKS, FIRST_VOLUME.lines, calls, wanted)
}

#[test]
fn the_first_put_fails(rt: HostRuntime) -> Result<(), AllocError> {
    let calls = Calls::of(65_536).without_put(1);
    let outcome = run_flat(&rt, rt.alloc(), DISKS, "64", FIRST_VOLUME.lines, calls)?;
    expect_end(&rt, &outcome, Status::WriteFault, 3, DISKS);
    assert!(rt;
        outcome.written.len() < FIRST_VOLUME.text.len()
            && FIRST_VOLUME.text.starts_with(outcome.written.as_slice())
    );
    Ok(())
}

#[test]
fn nothing_is_taken_after_a_failed_put(rt: HostRuntime) -> Result<(), AllocError> {
    // of pieces of five bytes none ends two lines, so the first answer is put before the second line ends
    let calls = Calls::of(5).without_put(1);
    let outcome = run_flat(&rt, rt.alloc(), DISKS, "64", FIRST_VOLUME.lines, calls)?;
    expect_end(&rt, &outcome, Status::WriteFault, 1, DISKS);
    Ok(())
}

/// A session gives this history in pieces of any size.
fn any_pieces<R: Abort + Threads + Wait + Sync>(
    rt: &R,
    alloc: Global,
    session: &[u8],
    wanted: Wanted,
) -> Result<(), AllocError> {
    assert!(rt; wanted.entries == 14);
    for piece in [1, 7, 4_097, 65_536] {
        comes(rt, alloc, DISKS, session, Calls::of(piece), wanted)?;
    }
    Ok(())
}

#[test]
fn pieces_of_any_size_give_one_history(rt: HostRuntime) -> Result<(), AllocError> {
    let alloc = rt.alloc();
    let lines = lines(alloc)?;
    let bytes = session(alloc, &lines)?;
    let wanted = all_answers(alloc, &lines)?;
    let wanted = done(wanted.text.as_slice(), wanted.entries);
    any_pieces(&rt, alloc, bytes.as_slice(), wanted)
}

/// The take fails before which so many were made: then the lines are answered that these ended.
fn take_fails<R: Abort + Threads + Wait + Sync>(
    rt: &R,
    alloc: Global,
    lines: &[Answered],
    session: &[u8],
    before: usize,
) -> Result<(), AllocError> {
    let answers = answers_within(alloc, lines, PIECE.saturating_mul(before))?;
    let wanted = Wanted {
        status: Status::ReadFault,
        text: answers.text.as_slice(),
        entries: answers.entries,
    };
    let calls = Calls::of(PIECE).without_take((before as u64).saturating_add(1));
    comes(rt, alloc, DISKS, session, calls, wanted)
}

/// Each take of a session fails once, and then one that is never made.
fn each_take<R: Abort + Threads + Wait + Sync>(
    rt: &R,
    alloc: Global,
    lines: &[Answered],
    session: &[u8],
) -> Result<(), AllocError> {
    // so many calls take bytes, and one more finds the end
    let takes = session.len().div_ceil(PIECE);
    for before in 0..=takes {
        take_fails(rt, alloc, lines, session, before)?;
    }
    let calls = Calls::of(PIECE).without_take((takes as u64).saturating_add(2));
    let outcome = run_flat(rt, alloc, DISKS, "64", session, calls)?;
    expect_end(rt, &outcome, Status::Done, 14, DISKS);
    Ok(())
}

#[test]
fn each_take_fails_once(rt: HostRuntime) -> Result<(), AllocError> {
    let alloc = rt.alloc();
    let lines = lines(alloc)?;
    let bytes = session(alloc, &lines)?;
    each_take(&rt, alloc, lines.as_slice(), bytes.as_slice())
}
