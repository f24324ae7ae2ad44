//! How fast `count_words` and `first_in_difference` go over 2^20 words, beside plain loops.
//!
//! Given a number of rounds it prints for each way how many words it goes over in a second of processor time, and the
//! sum of its answers, which is that of the plain loop.
#![tactic(auto)]

ghost use Rattle.std.specs.Prelude.{◌≡◌, length, IfOk};

use fc_base::outcome::NoMemory;
use fc_bits::{GrainSet, count_words, first_in_difference};
use std::alloc::Global;
use std::time::{CpuClock, Duration};
use std::{env, io};

/// How many grains the sets have: 2^20 words of them.
const GRAINS: u32 = 1 << 26;

/// A set with every grain in it.
fn full_set(alloc: Global, grains: u32) -> Result<GrainSet, NoMemory>
    ensures { IfOk result (λ set. length set ≡ grains) }
{
    let mut set = GrainSet::new(alloc, grains)?;
    set.set_all();
    Ok(set)
}

/// `count_words` of a set's words.
fn vector_count(set: &GrainSet) -> u32 {
    count_words(set.words())
}

/// The same by a plain loop.
fn plain_count(set: &GrainSet) -> u32 {
    let mut count = 0u32;
    for word in set.words() {
        count = count.wrapping_add(word.count_ones());
    }
    count
}

/// `first_in_difference` of two sets' words, and of that grain the word.
fn vector_first(a: &GrainSet, b: &GrainSet, from: u32) -> u32
    requires { length a.now ≡ length b.now }
{
    first_in_difference(a.words(), b.words(), from).unwrap_or(0) / 64
}

/// The first word in which the sets differ, by a plain loop.
fn plain_first(a: &[u64], b: &[u64], start: usize) -> usize {
    for index in start..a.len().min(b.len()) {
        if a[index] & !b[index] != 0 {
            return index;
        }
    }
    0
}

/// Prints how many words a way has gone over in a second of processor time since `start`, and the sum of its answers.
fn report<R: Print + CpuClock>(
    rt: &R,
    way: &str,
    rounds: u32,
    start: Duration,
    sum: u64,
) -> io::Result<()> {
    let nanos = rt
        .thread_cpu_time()?
        .saturating_sub(start)
        .as_nanos()
        .max(1);
    let words = u128::from(GRAINS / 64) * u128::from(rounds);
    let speed = words * 1_000_000_000 / nanos;
    println!(rt; "{way:<20} {speed:>12} words per second, sum {sum}")
}

/// Counts the set in each round, the first way with one grain less in each, the second with one more.
fn time_counts<R: Print + CpuClock>(rt: &R, set: &mut GrainSet, rounds: u32) -> io::Result<()> {
    let start = rt.thread_cpu_time()?;
    let mut sum = 0u64;
    for round in 0..rounds {
        if round < set.len() {
            set.clear(round);
        }
        sum = sum.wrapping_add(u64::from(vector_count(set)));
    }
    report(rt, "count_words", rounds, start, sum)?;
    let start = rt.thread_cpu_time()?;
    let mut sum = 0u64;
    for round in 0..rounds {
        sum = sum.wrapping_add(u64::from(plain_count(set)));
        if round < set.len() {
            set.set(round);
        }
    }
    report(rt, "plain count", rounds, start, sum)
}

/// Looks in each round for the grain in which the sets differ.
fn time_first<R: Print + CpuClock>(
    rt: &R,
    a: &GrainSet,
    b: &GrainSet,
    rounds: u32,
) -> io::Result<()>
    requires { length a.now ≡ length b.now }
{
    let start = rt.thread_cpu_time()?;
    let mut sum = 0u64;
    for round in 0..rounds {
        sum = sum.wrapping_add(u64::from(vector_first(a, b, round % 64)));
    }
    report(rt, "first_in_difference", rounds, start, sum)?;
    let start = rt.thread_cpu_time()?;
    let mut sum = 0u64;
    for round in 0..rounds {
        sum = sum.wrapping_add(plain_first(a.words(), b.words(), (round % 2) as usize) as u64);
    }
    report(rt, "plain first", rounds, start, sum)
}

fn main(rt: HostRuntime) -> io::Result<()> {
    let rounds = match env::args(&rt)?.nth(1) {
        Some(text) => text.parse::<u32>().unwrap_or(0),
        None => 0,
    };
    let all = match full_set(rt.alloc(), GRAINS) {
        Ok(set) => set,
        Err(_) => return println!(rt; "no memory"),
    };
    let mut most = match full_set(rt.alloc(), GRAINS) {
        Ok(set) => set,
        Err(_) => return println!(rt; "no memory"),
    };
    most.clear(GRAINS - 1);
    println!(rt; "{} of {GRAINS} grains", most.count())?;
    if rounds > 0 {
        time_first(&rt, &all, &most, rounds)?;
        time_counts(&rt, &mut most, rounds)?;
    }
    Ok(())
}
