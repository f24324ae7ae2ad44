//! Sessions with presets, run beside the same sessions with each preset written out in the lines that it stands for.
//!
//! In each drawn session every third line is a preset, over few names and disks, so that any of its lines may be refused. Which lines
//! a preset stands for is found here by plain code of its own (`preset`), from the replies to the lines that are written out so far.
//! Both sessions are run over disks of both kinds, and their traces must be the same, byte by byte. A line is printed for each session
//! that says how its presets ended, and one that says what came of it.
//!
//! In reading order: `preset` (a preset and its lines), `drawn` (a session is drawn), `traced` (a session is run), `ends` (how presets
//! end), `written` (presets are written out), and this file.

mod drawn;
mod ends;
mod preset;
mod traced;
mod written;

use crate::presets::drawn::{drawn_session, text_of};
use crate::presets::ends::Ends;
use crate::presets::traced::run_traced;
use crate::presets::written::written_out;
use crate::running::Outcome;
use fc_top::status::Status;
use std::alloc::Global;
use std::io;
use std::sync::Wait;
use std::thread::Threads;

/// The numbers of the sessions.
const SESSIONS: u64 = 3;

/// The number of the first line in which two texts differ, from 1. None where they are the same.
fn first_difference(one: &[u8], other: &[u8]) -> Option<usize> {
    let mut line = 1usize;
    for place in 0..one.len().min(other.len()) {
        if one[place] != other[place] {
            return Some(line);
        }
        if one[place] == b'\n' {
            line = line.saturating_add(1);
        }
    }
    if one.len() == other.len() {
        None
    } else {
        Some(line)
    }
}

/// Prints how the presets of a session ended.
fn print_ends<R: Print>(rt: &R, number: u64, ends: Ends) -> io::Result<()> {
    println!(rt;
        "session {number}: {} presets are whole, {} have no source, {} no volume, {} no mapping, {} no start",
        ends.whole, ends.no_source, ends.no_volume, ends.no_mapping, ends.no_start
    )
}

/// Prints whether a session answers what its lines written out answer.
fn print_compared<R: Print>(rt: &R, asked: &Outcome, expected: &Outcome) -> io::Result<()> {
    if asked.status != Status::Done || expected.status != Status::Done {
        return println!(rt; "it isn't done");
    }
    match first_difference(asked.written.as_slice(), expected.written.as_slice()) {
        Some(line) => println!(rt;
            "its trace differs from that of its lines written out, in line {line}"
        ),
        None => println!(rt;
            "its {} entries are those of its lines written out",
            asked.history.len()
        ),
    }
}

/// Runs the session of a number, and the same with its presets written out, and prints what came of it.
fn run_session<R: Threads + Wait + Sync + Print>(
    rt: &R,
    alloc: Global,
    number: u64,
) -> io::Result<()> {
    let lines = drawn_session(alloc, number)?;
    let written = written_out(rt, alloc, lines.as_slice())?;
    print_ends(rt, number, written.ends())?;
    let text = text_of(alloc, lines.as_slice())?;
    let asked = run_traced(rt, alloc, text.as_str())?;
    let expected = run_traced(rt, alloc, written.text())?;
    print_compared(rt, &asked, &expected)
}

/// Runs the sessions, and prints what came of them.
pub fn run_presets<R: Threads + Wait + Sync + Print>(rt: &R, alloc: Global) -> io::Result<()> {
    for number in 1..SESSIONS + 1 {
        run_session(rt, alloc, number)?;
    }
    Ok(())
}
