//! Many actors, each on a thread of its own where one can be made.

ghost use Rattle.std.specs.Prelude.{◌≡◌, ◌+◌, ◌^◌, ◌<◌, ◌≤◌, IfSome, vec_len};
ghost use Rattle.std.specs.Thread.{IsSync};
ghost use Rattle.fc_yard.specs.Views.{HoldsNone};
ghost use Rattle.fc_yard.specs.Calls.{IsPassOf};

use crate::counter::{Counter, Counts, Tally};
use fc_yard::pass::Pass;
use fc_yard::yard::Yard;
use std::alloc::Global;
use std::sync::Wait;
use std::thread::{Threads, join};

/// The yard of the tests.
pub type Counters = Yard<Counts, Tally, Counter>;

/// So many counters, none of which has counted anything.
pub fn zeros(alloc: Global, parts: usize) -> Option<Vec<Counter>>
    ensures { IfSome result (λ v. vec_len v ≡ parts) }
{
    let mut counters = Vec::with_capacity(alloc, parts).ok()?;
    for _place in 0..parts {
        counters.push(Counter { count: 0 }).ok()?;
    }
    Some(counters)
}

/// How often the counters were counted in all, over 64 bits.
pub fn sum(counters: &[Counter]) -> u64 {
    let mut all = 0u64;
    for counter in counters {
        all = all.wrapping_add(counter.count);
    }
    all
}

/// Counts the part once. `None` where no ticket is left.
pub fn count_once<R: Wait>(
    rt: &R,
    yard: &Counters,
    pass: &mut Pass<Counter, Tally>,
    part: usize,
) -> Option<u64>
    requires yard { IsPassOf yard.now pass.old }
    requires part { part < yard.now.parts }
    requires free { HoldsNone pass.old.view }
    ensures yard { IsPassOf yard.now pass.new }
    ensures free { HoldsNone pass.new.view }
    ensures shares { (pass.new.view.shares ≡ pass.old.view.shares) × (pass.new.view.passes ≡ pass.old.view.passes) }
{
    let counter = yard.take(rt, pass, part);
    if !yard.ticket(pass) {
        yard.put(pass, part, counter);
        return None;
    }
    let counted = counter.one_more();
    let number = yard.draw(pass, part, &counted, &Tally::One(part as u64));
    yard.put(pass, part, counted);
    Some(number)
}

/// Counts both parts of a yard of two at once. `None` where no ticket is left, or no memory for a list of two.
pub fn count_both<R: Wait>(
    rt: &R,
    alloc: Global,
    yard: &Counters,
    pass: &mut Pass<Counter, Tally>,
) -> Option<u64>
    requires yard { IsPassOf yard.now pass.old }
    requires parts { yard.now.parts ≡ 2 }
    requires free { HoldsNone pass.old.view }
    ensures number { IfSome result (λ n. n < pass.old.view.limit) }
{
    let Ok(mut both) = Vec::with_capacity(alloc, 2) else {
        return None;
    };
    let first = yard.take(rt, pass, 0);
    let second = yard.take(rt, pass, 1);
    if !yard.ticket(pass) {
        return None;
    }
    both.push_reserved(first.one_more());
    both.push_reserved(second.one_more());
    Some(yard.draw_all(pass, &both, &Tally::All))
}

/// One actor: counts part after part from its own place on, and lists the numbers that it drew.
fn act<R: Wait>(
    rt: &R,
    alloc: Global,
    yard: &Counters,
    parts: usize,
    mut pass: Pass<Counter, Tally>,
    place: usize,
    rounds: usize,
) -> (Pass<Counter, Tally>, Vec<u64>)
    requires yard { IsPassOf yard.now pass }
    requires parts { (yard.now.parts ≡ parts) × (0 < parts) × (parts ≤ 64) }
    requires free { HoldsNone pass.view }
    ensures yard { IsPassOf yard.now result.0 }
    ensures free { HoldsNone result.0.view }
    ensures shares { (result.0.view.shares ≡ pass.view.shares) × (result.0.view.passes ≡ pass.view.passes) }
{
    let mut numbers = Vec::new(alloc);
    for round in 0..rounds {
        let part = (place % parts + round % parts) % parts;
        match count_once(rt, yard, &mut pass, part) {
            Some(number) => {
                let _ = numbers.push(number);
            }
            None => break,
        }
    }
    (pass, numbers)
}

/// So many actors beside each other over the yard's parts, from this place on. The pass comes back with all
/// shares, and the numbers in one list.
pub fn crowd<R: Threads + Wait + Sync>(
    rt: &R,
    alloc: Global,
    yard: &Counters,
    parts: usize,
    mut pass: Pass<Counter, Tally>,
    place: usize,
    actors: usize,
    rounds: usize,
) -> (Pass<Counter, Tally>, Vec<u64>)
    requires sync { IsSync R.row }
    requires yard { IsPassOf yard.now pass }
    requires parts { (yard.now.parts ≡ parts) × (0 < parts) × (parts ≤ 64) }
    requires free { HoldsNone pass.view }
    requires actors { (actors ≤ pass.view.shares) × (place + actors < 2 ^ 32) }
    ensures yard { IsPassOf yard.now result.0 }
    ensures free { HoldsNone result.0.view }
    ensures shares { (result.0.view.shares ≡ pass.view.shares) × (result.0.view.passes ≡ pass.view.passes) }
{
    if actors < 2 {
        return act(rt, alloc, yard, parts, pass, place, rounds);
    }
    let other = yard.split(&mut pass);
    let ((mut pass, mut numbers), (other, more)) = join(
        rt,
        move ||
            requires { IsSync R.row × IsPassOf yard.now pass × (yard.now.parts ≡ parts) × (0 < parts) × (parts ≤ 64) × HoldsNone pass.view × (actors ≤ pass.view.shares + 1) × (place + actors < 2 ^ 32) × (1 < actors) }
            ensures { IsPassOf yard.entry.now result.0 × HoldsNone result.0.view × (result.0.view.shares ≡ pass.view.shares) × (result.0.view.passes ≡ pass.view.passes) }
        { crowd(rt, alloc, yard, parts, pass, place + 1, actors - 1, rounds) },
        move ||
            requires { IsPassOf yard.now other × (yard.now.parts ≡ parts) × (0 < parts) × (parts ≤ 64) × HoldsNone other.view }
            ensures { IsPassOf yard.entry.now result.0 × HoldsNone result.0.view × (result.0.view.shares ≡ other.view.shares) × (result.0.view.passes ≡ other.view.passes) }
        { act(rt, alloc, yard, parts, other, place, rounds) },
    );
    yard.join(&mut pass, other);
    let _ = numbers.extend_from_slice(more.as_slice());
    (pass, numbers)
}
