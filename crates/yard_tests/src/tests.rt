//! The yard with counters for parts.

ghost use Rattle.std.specs.Prelude.{◌≤◌};

use crate::crowd::{Counters, count_both, count_once, crowd, sum, zeros};
use std::alloc::Global;
use std::sync::Wait;
use std::test::Fail;
use std::thread::Threads;

/// How many parts the yards have.
const PARTS: usize = 5;

/// What sixteen actors drew between the first number and the limit, and how often the parts were counted in all.
fn run<R: Threads + Wait + Sync>(
    rt: &R,
    alloc: Global,
    first: u64,
    limit: u64,
    rounds: usize,
) -> Option<(Vec<u64>, u64)>
    requires { first ≤ limit }
{
    let mut back = Vec::with_capacity(alloc, PARTS).ok()?;
    let counters = zeros(alloc, PARTS)?;
    let Ok((yard, pass)) = Counters::new(alloc, counters, first, limit, 16) else {
        return None;
    };
    let (pass, numbers) = crowd(rt, alloc, &yard, PARTS, pass, 0, 16, rounds);
    yard.close(pass, &mut back);
    Some((numbers, sum(back.as_slice())))
}

/// Whether these are the numbers from the first on, each once.
fn are_from(numbers: &[u64], first: u64) -> bool {
    numbers.iter().enumerate().all(|(place, number)| *number == first.wrapping_add(place as u64))
}

/// Whether these are so many numbers from the first on, each once, in whatever order.
fn are_each_once(alloc: Global, numbers: &mut [u64], first: u64, count: usize) -> bool {
    numbers.sort(alloc).is_ok() && numbers.len() == count && are_from(numbers, first)
}

/// Whether sixteen actors, who want 100,000 numbers together, draw so many between 7 and the limit, each once.
fn draws<R: Threads + Wait + Sync>(rt: &R, alloc: Global, limit: u64, count: usize) -> bool
    requires { 7 ≤ limit }
{
    match run(rt, alloc, 7, limit, 6_250) {
        Some((mut numbers, all)) => all == count as u64
            && are_each_once(alloc, &mut numbers, 7, count),
        None => false,
    }
}

#[test]
fn each_number_once_below_what_is_wanted(rt: HostRuntime) -> Result<(), Fail> {
    assert!(rt; draws(&rt, rt.alloc(), 99_999 + 7, 99_999));
    Ok(())
}

#[test]
fn each_number_once_up_to_the_limit(rt: HostRuntime) -> Result<(), Fail> {
    assert!(rt; draws(&rt, rt.alloc(), 100_000 + 7, 100_000));
    Ok(())
}

#[test]
fn each_number_once_and_one_is_left(rt: HostRuntime) -> Result<(), Fail> {
    assert!(rt; draws(&rt, rt.alloc(), 100_001 + 7, 100_000));
    Ok(())
}

/// Whether a turn that another pass has is refused, a free one had, and the first had once it was given back.
fn tries(alloc: Global) -> Option<bool> {
    let counters = zeros(alloc, PARTS)?;
    let Ok((yard, mut pass)) = Counters::new(alloc, counters, 0, 10, 2) else {
        return None;
    };
    let mut other = yard.split(&mut pass);
    let mine = yard.try_take(&mut pass, 3)?;
    let None = yard.try_take(&mut other, 3) else {
        return Some(false);
    };
    let Some(theirs) = yard.try_take(&mut other, 4) else {
        return Some(false);
    };
    yard.put(&mut other, 4, theirs);
    yard.put(&mut pass, 3, mine);
    Some(yard.try_take(&mut other, 3).is_some())
}

#[test]
fn a_held_turn_is_refused_and_a_free_one_had(rt: HostRuntime) -> Result<(), Fail> {
    assert_eq!(rt; tries(rt.alloc()), Some(true));
    Ok(())
}

/// Splits a pass three times, counts with each of the four, and joins them in this order: whether they drew the first
/// four numbers, as they asked, and how often the parts were counted.
fn joined<R: Wait>(rt: &R, alloc: Global, backwards: bool) -> Option<(bool, u64)> {
    let mut back = Vec::with_capacity(alloc, PARTS).ok()?;
    let counters = zeros(alloc, PARTS)?;
    let Ok((yard, mut pass)) = Counters::new(alloc, counters, 1, 10, 4) else {
        return None;
    };
    let mut second = yard.split(&mut pass);
    let mut third = yard.split(&mut pass);
    let mut fourth = yard.split(&mut pass);
    let is_first = count_once(rt, &yard, &mut third, 2) == Some(1);
    let is_second = count_once(rt, &yard, &mut pass, 0) == Some(2);
    let is_third = count_once(rt, &yard, &mut fourth, 2) == Some(3);
    let is_fourth = count_once(rt, &yard, &mut second, 4) == Some(4);
    if backwards {
        yard.join(&mut third, fourth);
        yard.join(&mut second, third);
        yard.join(&mut pass, second);
    } else {
        yard.join(&mut pass, third);
        yard.join(&mut pass, second);
        yard.join(&mut pass, fourth);
    }
    yard.close(pass, &mut back);
    Some((
        is_first && is_second && is_third && is_fourth,
        sum(back.as_slice()),
    ))
}

#[test]
fn passes_are_joined_forwards(rt: HostRuntime) -> Result<(), Fail> {
    assert_eq!(rt; joined(&rt, rt.alloc(), false), Some((true, 4)));
    Ok(())
}

#[test]
fn passes_are_joined_backwards(rt: HostRuntime) -> Result<(), Fail> {
    assert_eq!(rt; joined(&rt, rt.alloc(), true), Some((true, 4)));
    Ok(())
}

/// The number of an entry over both parts of a yard of two.
fn both<R: Wait>(rt: &R, alloc: Global) -> Option<u64> {
    let counters = zeros(alloc, 2)?;
    let Ok((yard, mut pass)) = Counters::new(alloc, counters, 3, 4, 1) else {
        return None;
    };
    count_both(rt, alloc, &yard, &mut pass)
}

#[test]
fn both_parts_are_counted_at_once(rt: HostRuntime) -> Result<(), Fail> {
    assert_eq!(rt; both(&rt, rt.alloc()), Some(3));
    Ok(())
}
