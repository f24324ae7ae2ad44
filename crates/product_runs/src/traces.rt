//! Sessions, and the whole of what their histories tell: beside each entry's text its moves, calls, faults and effects.
//!
//! Standard input has one session after the other. A line `== NAME GRAIN DISKS` begins one, with grains of so many KiB over
//! so many flat disks; the lines behind it are its own. Each is run, and printed as `== NAME` and its entries: the line of
//! the entry, the lines of `trace`, the rows of a report, and a line `.`.
//!
//! In reading order: `session` (a session is run), `trace` (an entry is told), and this file.

mod session;
mod trace;

use crate::traces::session::{Session, print_session, session_of};
use std::alloc::Global;
use std::io;
use std::sync::Wait;
use std::thread::Threads;

/// Runs the sessions of standard input, and prints what their entries tell.
pub fn run_traces<R: Threads + Wait + Sync + Input + Print>(
    rt: &R,
    alloc: Global,
) -> io::Result<()> {
    let mut session = Session::none(alloc);
    for line in rt.lines(alloc) {
        let line = line?;
        match session_of(alloc, line.as_str())? {
            Some(next) => {
                print_session(rt, alloc, &session)?;
                session = next;
            }
            None => session.add(line.as_str())?,
        }
    }
    print_session(rt, alloc, &session)
}
