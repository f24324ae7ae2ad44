//! Generated sessions, against what another program draws.

use crate::expect::expect_same;
use fc_gen::session;
use std::alloc::Global;
use std::process::Abort;
use std::test::Fail;

/// The sum of some bytes by weights 1 to 251.
fn weighed_sum(text: &[u8]) -> u64 {
    let mut sum: u64 = 0;
    let mut weight: u64 = 1;
    for byte in text {
        sum = sum.wrapping_add(weight.wrapping_mul(u64::from(*byte)));
        weight = if weight >= 251 { 1 } else { weight + 1 };
    }
    sum
}

/// The session of a number has this length, and its bytes this sum.
fn assert_drawn(
    rt: &impl Abort,
    alloc: Global,
    number: u64,
    len: usize,
    sum: u64,
) -> Result<(), Fail> {
    let text = session(alloc, number)?;
    expect_same(rt, &text.len(), &len, "length of", number);
    expect_same(rt, &weighed_sum(text.as_slice()), &sum, "sum of", number);
    Ok(())
}

/// Lengths and sums as another program told them.
#[test]
fn is_as_another_program_draws_it(rt: HostRuntime) -> Result<(), Fail> {
    let alloc = rt.alloc();
    assert_drawn(&rt, alloc, 0, 93_721, 847_678_649)?;
    assert_drawn(&rt, alloc, 1, 93_286, 842_022_089)?;
    assert_drawn(&rt, alloc, u64::MAX, 93_667, 848_448_731)
}
