//! How many rounds in the yard some threads make: take a part, be given a ticket, draw a number, put the part back.
//!
//! Given the number of threads (1 to 64) and of rounds for each, it prints how many numbers were drawn, and how often the
//! yard's four parts were counted. `bench/yard.sh` times it.
#![tactic(auto)]

ghost use Rattle.std.specs.Prelude.{◌≤◌};

use std::alloc::Global;
use std::env::Env;
use std::sync::Wait;
use std::thread::Threads;
use std::{env, io};
use yard_tests::crowd::{Counters, crowd, sum, zeros};

/// How many parts the threads go over.
const LANES: usize = 4;

/// How many numbers so many threads drew, and how often the parts were counted.
fn run<R: Threads + Wait + Sync>(
    rt: &R,
    alloc: Global,
    threads: usize,
    rounds: usize,
) -> Option<(usize, u64)>
    requires { threads ≤ 64 }
{
    let mut back = Vec::with_capacity(alloc, LANES).ok()?;
    let counters = zeros(alloc, LANES)?;
    let Ok((yard, pass)) = Counters::new(alloc, counters, 0, u64::MAX, 64) else {
        return None;
    };
    let (pass, numbers) = crowd(rt, alloc, &yard, LANES, pass, 0, threads, rounds);
    yard.close(pass, &mut back);
    Some((numbers.len(), sum(back.as_slice())))
}

/// The number in the word at this place of the command line, or 0.
fn number<R: Env + Alloc>(rt: &R, place: usize) -> io::Result<u32> {
    Ok(match env::args(rt)?.nth(place) {
        Some(text) => text.parse::<u32>().unwrap_or(0),
        None => 0,
    })
}

fn main(rt: HostRuntime) -> io::Result<()> {
    let threads = number(&rt, 1)?.min(64) as usize;
    let rounds = number(&rt, 2)? as usize;
    match run(&rt, rt.alloc(), threads, rounds) {
        Some((drawn, counted)) => println!(rt; "{drawn} {counted}"),
        None => println!(rt; "no memory"),
    }
}
