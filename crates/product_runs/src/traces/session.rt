//! A session is run, and printed.

use crate::running::run_over;
use crate::traces::trace::print_trace;
use fc_base::request::Reply;
use fc_entry::entry::Entry;
use fc_entry::history::History;
use made_disks::flat_disks;
use std::alloc::{AllocError, Global};
use std::io;
use std::sync::Wait;
use std::thread::Threads;

/// The greatest number of disks of a session.
const MOST_DISKS: u32 = 1_000_000;

/// A session.
#[derive(Drop)]
pub struct Session {
    name: String,
    grain: String,
    disks: u32,
    lines: Vec<u8>,
}

impl Session {
    /// No session.
    pub fn none(alloc: Global) -> Session {
        Session {
            name: String::new(alloc),
            grain: String::new(alloc),
            disks: 0,
            lines: Vec::new(alloc),
        }
    }

    /// Adds a line.
    pub fn add(&mut self, line: &str) -> Result<(), AllocError> {
        self.lines.extend_from_slice(line.as_bytes())?;
        self.lines.push(b'\n')?;
        Ok(())
    }
}

/// A word as a text of its own, and none where there is no word.
fn owned(alloc: Global, word: Option<&str>) -> Result<String, AllocError> {
    match word {
        Some(word) => String::from_str(alloc, word),
        None => Ok(String::new(alloc)),
    }
}

/// The session that a line begins, if it begins one.
pub fn session_of(alloc: Global, line: &str) -> Result<Option<Session>, AllocError> {
    let mut words = line.split(' ');
    if words.next() != Some("==") {
        return Ok(None);
    }
    let name = owned(alloc, words.next())?;
    let grain = owned(alloc, words.next())?;
    let disks = match words.next() {
        Some(count) => count.parse::<u32>().unwrap_or(0),
        None => 0,
    };
    Ok(Some(Session {
        name,
        grain,
        disks,
        lines: Vec::new(alloc),
    }))
}

/// Runs a session, and prints its name and its entries. Nothing of no session.
pub fn print_session<R: Print + Threads + Wait + Sync>(
    rt: &R,
    alloc: Global,
    session: &Session,
) -> io::Result<()> {
    if session.name.is_empty() {
        return Ok(());
    }
    println!(rt; "== {}", session.name)?;
    let mut disks = flat_disks(alloc, session.disks.min(MOST_DISKS))?;
    let words = ["run", "--grain", session.grain.as_str()];
    let lines = session.lines.as_slice();
    let outcome = run_over(rt, alloc, &words, lines, &mut disks)?;
    print_entries(rt, alloc, outcome.written.as_slice(), &outcome.history)
}

/// How many lines of the text are an entry's.
fn lines_of(entry: &Entry) -> usize {
    match &entry.reply {
        Reply::Listed(rows) => rows.len(),
        _ => 0,
    }
}

/// Prints each entry's line of the text, what it tells beside it, and its rows.
fn print_entries<R: Print>(
    rt: &R,
    alloc: Global,
    text: &[u8],
    history: &History,
) -> io::Result<()> {
    let text = String::from_utf8_lossy(alloc, text)?;
    let mut lines = text.lines();
    for index in 0..history.len() {
        let entry = history.entry(index);
        println!(rt; "{}", lines.next().unwrap_or(""))?;
        print_trace(rt, entry)?;
        for _ in 0..lines_of(entry) {
            println!(rt; "{}", lines.next().unwrap_or(""))?;
        }
        println!(rt; ".")?;
    }
    Ok(())
}
