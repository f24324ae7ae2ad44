//! Each call of the source and of the sink fails once, over whole sessions.

ghost use Rattle.std.specs.Prelude.{◌<◌};

use crate::sessions::{Calls, Outcome, run_flat};
use fc_top::status::Status;
use session_texts::longer::{all_answers, first_lines, session};
use session_texts::texts::{COMPLETE_STOPPED, FIRST_VOLUME, NIGHTS_WORK, RESTORED_WRITE, Session};
use std::alloc::{AllocError, Global};
use std::process::Abort;
use std::sync::Wait;
use std::thread::Threads;

/// How many disks there are: eight for each lane.
const DISKS: u32 = 32;

/// How many bytes of a session a `take` gives at most.
const PIECE: usize = 16;

/// No session makes so many calls of its source or of its sink.
const MOST_CALLS: u64 = 5_000;

/// How many entries a text has: each begins a line with its number and the name of its actor.
fn entries_in(alloc: Global, text: &[u8]) -> Result<usize, AllocError> {
    let mut entries = 0usize;
    for line in text.split(|byte| *byte == b'\n') {
        let head = format!(in alloc; "{entries} main ")?;
        if line.starts_with(head.as_bytes()) {
            entries = entries.saturating_add(1);
        }
    }
    Ok(entries)
}

/// How many lines ended in the first so many bytes.
fn ended_lines(lines: &[u8], bytes: usize) -> usize {
    let mut ended = 0usize;
    for byte in lines.iter().take(bytes) {
        if *byte == b'\n' {
            ended = ended.saturating_add(1);
        }
    }
    ended
}

/// What comes of a session of which this take fails, each line of which has an entry at least: then the entries are the first of
/// all, no fewer than where an earlier one failed, and their text is whole. The take behind the end of the session is never made.
fn expect_taken(
    rt: &impl Abort,
    alloc: Global,
    session: Session,
    number: u64,
    least: usize,
    outcome: &Outcome,
) -> Result<(), AllocError> {
    let before = (number as usize).saturating_sub(1);
    let ended = ended_lines(session.lines, PIECE.saturating_mul(before));
    let written = outcome.written.as_slice();
    assert!(rt; session.text.starts_with(written));
    let entries = entries_in(alloc, written)?;
    assert!(rt; entries == outcome.entries);
    assert!(rt; outcome.entries >= ended && outcome.entries >= least);
    assert!(rt; outcome.disks == DISKS as usize);
    if outcome.status == Status::Done {
        // so many takes give bytes, and one more finds the end
        assert!(rt; before == session.lines.len().div_ceil(PIECE) + 1);
        assert!(rt; written == session.text);
    } else {
        assert!(rt; outcome.status == Status::ReadFault);
        assert!(rt; written.is_empty() || written.ends_with(b"\n"));
    }
    Ok(())
}

/// This take of a session fails, behind which there were so many entries at least. Returns how many there were, and None where it
/// was never made.
fn take_fails<R: Abort + Threads + Wait + Sync>(
    rt: &R,
    alloc: Global,
    session: Session,
    number: u64,
    least: usize,
) -> Result<Option<usize>, AllocError> {
    let calls = Calls::of(PIECE).without_take(number);
    let outcome = run_flat(rt, alloc, DISKS, session.grain, session.lines, calls)?;
    expect_taken(rt, alloc, session, number, least, &outcome)?;
    if outcome.status == Status::Done {
        Ok(None)
    } else {
        Ok(Some(outcome.entries))
    }
}

/// Each take of a session fails once.
fn each_take_fails<R: Abort + Threads + Wait + Sync>(
    rt: &R,
    alloc: Global,
    session: Session,
) -> Result<(), AllocError> {
    let mut most = 0usize;
    for number in 1..MOST_CALLS {
        match take_fails(rt, alloc, session, number, most)? {
            Some(entries) => most = entries,
            None => return Ok(()),
        }
    }
    assert!(rt; false);
    Ok(())
}

/// A session and its history.
#[derive(Clone, Copy)]
struct Told<'a> {
    /// The size of grains in KiB.
    grain: &'a str,
    /// The session.
    lines: &'a [u8],
    /// The text of its history.
    text: &'a [u8],
    /// How many entries it has.
    entries: usize,
}

/// How far a session came.
#[derive(Clone, Copy)]
struct Came {
    /// How many bytes were written.
    written: usize,
    /// How many entries there were.
    entries: usize,
}

/// What comes of a session of which this call of the sink fails, a put or a flush: the sink got a front of the text, no less than
/// where an earlier one failed, and as nothing more is taken, maybe not all lines are answered.
fn expect_put(
    rt: &impl Abort,
    alloc: Global,
    told: Told,
    number: u64,
    least: Came,
    outcome: &Outcome,
) -> Result<(), AllocError> {
    let written = outcome.written.as_slice();
    let entries = entries_in(alloc, written)?;
    assert!(rt; told.text.starts_with(written));
    assert!(rt; written.len() >= least.written);
    assert!(rt; outcome.entries >= least.entries && outcome.entries >= entries);
    assert!(rt; outcome.disks == DISKS as usize);
    if outcome.status == Status::Done {
        // at least one `put` an entry, and the `flush` at the end
        assert!(rt; number as usize > told.entries && written.len() == told.text.len());
        assert!(rt; outcome.entries == told.entries);
    } else {
        assert!(rt; outcome.status == Status::WriteFault);
    }
    Ok(())
}

/// This call of the sink fails, and the session comes so far at least. Returns how far it came, and None where the call was never
/// made.
fn put_fails<R: Abort + Threads + Wait + Sync>(
    rt: &R,
    alloc: Global,
    told: Told,
    number: u64,
    least: Came,
) -> Result<Option<Came>, AllocError> {
    let calls = Calls::of(PIECE).without_put(number);
    let outcome = run_flat(rt, alloc, DISKS, told.grain, told.lines, calls)?;
    expect_put(rt, alloc, told, number, least, &outcome)?;
    if outcome.status == Status::Done {
        return Ok(None);
    }
    Ok(Some(Came {
        written: outcome.written.len(),
        entries: outcome.entries,
    }))
}

/// Each call of the sink fails once.
fn each_put_fails<R: Abort + Threads + Wait + Sync>(
    rt: &R,
    alloc: Global,
    grain: &str,
    lines: &[u8],
    text: &[u8],
) -> Result<(), AllocError> {
    let told = Told {
        grain,
        lines,
        text,
        entries: entries_in(alloc, text)?,
    };
    let mut came = Came {
        written: 0,
        entries: 0,
    };
    for number in 1..MOST_CALLS {
        match put_fails(rt, alloc, told, number, came)? {
            Some(next) => came = next,
            None => return Ok(()),
        }
    }
    assert!(rt; false);
    Ok(())
}

/// How many calls of its sink a session of the first volume makes, read in pieces of so many bytes.
fn calls_of_sink<R: Threads + Wait + Sync>(
    rt: &R,
    alloc: Global,
    piece: usize,
) -> Result<u64, AllocError>
    requires { 0 < piece }
{
    for number in 1..MOST_CALLS {
        let calls = Calls::of(piece).without_put(number);
        let outcome = run_flat(
            rt,
            alloc,
            DISKS,
            FIRST_VOLUME.grain,
            FIRST_VOLUME.lines,
            calls,
        )?;
        if outcome.status == Status::Done {
            return Ok(number - 1);
        }
    }
    Ok(0)
}

#[test]
fn each_take_of_a_session_fails_once(rt: HostRuntime) -> Result<(), AllocError> {
    for session in [COMPLETE_STOPPED, RESTORED_WRITE, NIGHTS_WORK] {
        each_take_fails(&rt, rt.alloc(), session)?;
    }
    Ok(())
}

#[test]
fn each_put_of_a_session_fails_once(rt: HostRuntime) -> Result<(), AllocError> {
    for session in [COMPLETE_STOPPED, RESTORED_WRITE, NIGHTS_WORK] {
        each_put_fails(&rt, rt.alloc(), session.grain, session.lines, session.text)?;
    }
    Ok(())
}

#[test]
fn each_answer_is_sent_on_before_more_is_taken(rt: HostRuntime) -> Result<(), AllocError> {
    let alloc = rt.alloc();
    // taken at once, the three answers are sent on once, and once more at the end; in pieces of five bytes, of which none ends
    // two lines, each answer is sent on by itself
    let at_once = calls_of_sink(&rt, alloc, 65_536)?;
    let apart = calls_of_sink(&rt, alloc, 5)?;
    assert!(rt; at_once > 4);
    assert!(rt; apart == at_once.saturating_add(2));
    Ok(())
}

#[test]
fn each_put_of_short_lines_fails_once(rt: HostRuntime) -> Result<(), AllocError> {
    let alloc = rt.alloc();
    let lines = first_lines(alloc)?;
    let bytes = session(alloc, &lines)?;
    let wanted = all_answers(alloc, &lines)?;
    each_put_fails(&rt, alloc, "64", bytes.as_slice(), wanted.text.as_slice())
}
