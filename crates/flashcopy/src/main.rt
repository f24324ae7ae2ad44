//! The program: a session on standard input, its history on standard output; or a drill, and its summary; or a trace on standard
//! input, and its verdict.
//!
//! Its words are those of `flashcopy` (docs/MANUAL.md). It prints the history, its summary or the verdict alone, and ends with
//! the status's code.
#![tactic(auto)]

use fc_base::limits::LANES;
use fc_entry::history::History;
use fc_io::sink::Sink;
use fc_io::source::Source;
use fc_io::std_sink::StdSink;
use fc_io::std_source::StdSource;
use fc_mdisk::mem::MemDisk;
use fc_mdisk::ready::make_ready;
use fc_mdisk::thin::ThinDisk;
use fc_top::flashcopy::{BoxedDisk, flashcopy};
use fc_top::gate::FreeGate;
use fc_top::status::Status;
use std::alloc::Global;
use std::env;
use std::process::ExitCode;
use std::sync::Wait;
use std::thread::Threads;

/// The disks of each kind for each lane.
const DISKS_PER_LANE: u32 = 512;

/// The exit status where memory is wanted.
const NO_MEMORY: u8 = 5;

/// The exit status where the words can't be read.
const USAGE: u8 = 2;

/// Runs what the words ask for, over these disks, once they are made ready.
fn run_over<R: Threads + Wait + Sync, S: Source, K: Sink>(
    rt: &R,
    alloc: Global,
    words: &[&str],
    source: &mut S,
    sink: &mut K,
    disks: &mut Vec<BoxedDisk>,
) -> Status {
    if disks.len() >= 1 << 30 || !make_ready(disks) {
        return Status::NoMemory;
    }
    let mut history = History::new(alloc);
    flashcopy(
        rt,
        alloc,
        words,
        source,
        sink,
        disks,
        &FreeGate,
        &mut history,
    )
}

/// Runs what the words ask for, over the program's disks: flat ones, and as many thin ones behind them.
fn run<R: Threads + Wait + Sync, S: Source, K: Sink>(
    rt: &R,
    alloc: Global,
    words: &[&str],
    source: &mut S,
    sink: &mut K,
) -> Status {
    let mut disks: Vec<BoxedDisk> = Vec::new(alloc);
    for _ in 0..DISKS_PER_LANE * LANES {
        match Box::new(alloc, MemDisk::new(alloc)) {
            Ok(disk) => match disks.push(disk) {
                Ok(()) => {}
                Err(_) => return Status::NoMemory,
            },
            Err(_) => return Status::NoMemory,
        }
    }
    for _ in 0..DISKS_PER_LANE * LANES {
        match Box::new(alloc, ThinDisk::new(alloc)) {
            Ok(disk) => match disks.push(disk) {
                Ok(()) => {}
                Err(_) => return Status::NoMemory,
            },
            Err(_) => return Status::NoMemory,
        }
    }
    run_over(rt, alloc, words, source, sink, &mut disks)
}

fn main(rt: HostRuntime) -> ExitCode {
    let alloc = rt.alloc();
    let arguments = match env::args(&rt) {
        Ok(arguments) => arguments,
        Err(_) => return ExitCode::from(USAGE),
    };
    let mut texts: Vec<String> = Vec::new(alloc);
    for argument in arguments.skip(1) {
        match texts.push(argument) {
            Ok(()) => {}
            Err(_) => return ExitCode::from(NO_MEMORY),
        }
    }
    let mut words: Vec<&str> = Vec::new(alloc);
    for text in &texts {
        match words.push(text.as_str()) {
            Ok(()) => {}
            Err(_) => return ExitCode::from(NO_MEMORY),
        }
    }
    let mut source = match StdSource::new(alloc, rt.stdin().lock()) {
        Ok(source) => source,
        Err(_) => return ExitCode::from(NO_MEMORY),
    };
    let mut sink = match StdSink::new(alloc, rt.stdout()) {
        Ok(sink) => sink,
        Err(_) => return ExitCode::from(NO_MEMORY),
    };
    let status = run(&rt, alloc, &words, &mut source, &mut sink);
    ExitCode::from(status.code())
}
