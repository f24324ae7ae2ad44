//! Sets of grains beside their plain body, a list of truth values: over all lengths from 0 to 200, and where the grains stand at
//! the edges of words.

use crate::expect::expect_same;
use fc_bits::{GrainSet, count_words, first_in_difference};
use std::alloc::Global;
use std::process::Abort;
use std::test::Fail;

/// How many patterns there are.
const PATTERNS: u32 = 8;

/// Whether the pattern has the grain.
fn has_pattern(pattern: u32, grain: u32) -> bool {
    match pattern {
        0 => false,
        1 => true,
        2 => grain % 64 == 0,
        3 => grain % 64 == 63,
        4 => grain >= 128,
        5 => grain == 199,
        6 => grain % 3 == 0,
        _ => grain.wrapping_mul(2_654_435_761) >> 30 == 1,
    }
}

/// The list of the truth values of a pattern.
fn plain_of(alloc: Global, grains: u32, pattern: u32) -> Result<Vec<bool>, Fail> {
    let mut plain = Vec::new(alloc);
    for grain in 0..grains {
        plain.push(has_pattern(pattern, grain))?;
    }
    Ok(plain)
}

/// The set of a pattern.
fn set_of(alloc: Global, grains: u32, pattern: u32) -> Result<GrainSet, Fail> {
    let mut set = GrainSet::new(alloc, grains)?;
    for grain in 0..grains {
        if grain < set.len() && has_pattern(pattern, grain) {
            set.set(grain);
        }
    }
    Ok(set)
}

/// The least place from `from` on at which the list has this value.
fn plain_next(plain: &[bool], from: u32, wanted: bool) -> Option<u32> {
    let mut grain = 0u32;
    for value in plain {
        if grain >= from && *value == wanted {
            return Some(grain);
        }
        grain = grain.wrapping_add(1);
    }
    None
}

/// How the values of two lists are put together.
#[derive(Clone, Copy)]
enum How {
    /// What the first has alone.
    Apart,
    /// What both have.
    Common,
    /// What one of them has.
    Union,
}

/// The list of what two lists hold together.
fn plain_together(
    alloc: Global,
    how: How,
    plain: &[bool],
    others: &[bool],
) -> Result<Vec<bool>, Fail> {
    let mut together = Vec::new(alloc);
    for (value, other) in plain.iter().zip(others) {
        together.push(match how {
            How::Apart => *value && !*other,
            How::Common => *value && *other,
            How::Union => *value || *other,
        })?;
    }
    Ok(together)
}

/// How many values of the list are true.
fn plain_count(plain: &[bool]) -> usize {
    let mut count = 0usize;
    for value in plain {
        count = count.wrapping_add(usize::from(*value));
    }
    count
}

/// The bit of a grain in the words of a set, and false behind them.
fn bit_of(set: &GrainSet, grain: u32) -> bool {
    match set.words().get(grain as usize / 64) {
        Some(word) => *word >> (grain % 64) & 1 == 1,
        None => false,
    }
}

/// Each call that reads the set at this grain answers what the list does.
fn assert_at(rt: &impl Abort, set: &GrainSet, plain: &[bool], from: u32) {
    let at = u64::from(from);
    let next = plain_next(plain, from, true);
    expect_same(rt, &set.next_set(from), &next, "set from", at);
    let clear = plain_next(plain, from, false);
    expect_same(rt, &set.next_clear(from), &clear, "clear from", at);
    let held = plain.get(from as usize).copied().unwrap_or(false);
    expect_same(rt, &bit_of(set, from), &held, "bit", at);
    if from < set.len() {
        expect_same(rt, &set.has(from), &held, "grain", at);
    }
}

/// Each call that reads the set answers what the list does.
fn assert_same(rt: &impl Abort, set: &GrainSet, plain: &[bool]) {
    let grains = plain.len();
    let of = grains as u64;
    let members = plain_count(plain);
    let counted = count_words(set.words()) as usize;
    expect_same(rt, &(set.len() as usize), &grains, "length", of);
    expect_same(rt, &(set.count() as usize), &members, "count of", of);
    expect_same(rt, &counted, &members, "words of", of);
    expect_same(rt, &set.is_full(), &(members == grains), "full of", of);
    expect_same(rt, &set.is_clear(), &(members == 0), "clear of", of);
    for from in 0..set.len().min(200) + 3 {
        assert_at(rt, set, plain, from);
    }
}

/// A set of a pattern answers what its list does.
fn assert_pattern(rt: &impl Abort, alloc: Global, grains: u32, pattern: u32) -> Result<(), Fail> {
    let plain = plain_of(alloc, grains, pattern)?;
    let set = set_of(alloc, grains, pattern)?;
    assert_same(rt, &set, &plain);
    Ok(())
}

#[test]
fn one_set(rt: HostRuntime) -> Result<(), Fail> {
    for grains in 0..201 {
        for pattern in 0..PATTERNS {
            assert_pattern(&rt, rt.alloc(), grains, pattern)?;
        }
    }
    Ok(())
}

/// A set that is filled and then cleared answers what these lists do.
fn assert_filled(rt: &impl Abort, set: &mut GrainSet, full: &[bool], clear: &[bool]) {
    set.set_all();
    assert_same(rt, set, full);
    set.clear_all();
    assert_same(rt, set, clear);
}

/// A set of so many grains is filled and cleared.
fn assert_whole(rt: &impl Abort, alloc: Global, grains: u32) -> Result<(), Fail> {
    let full = plain_of(alloc, grains, 1)?;
    let clear = plain_of(alloc, grains, 0)?;
    let mut set = set_of(alloc, grains, 7)?;
    assert_filled(rt, &mut set, &full, &clear);
    Ok(())
}

#[test]
fn whole_sets(rt: HostRuntime) -> Result<(), Fail> {
    for grains in 0..201 {
        assert_whole(&rt, rt.alloc(), grains)?;
    }
    Ok(())
}

/// A grain of every third is cleared and set again.
fn assert_grain(rt: &impl Abort, set: &mut GrainSet, grain: u32) {
    if grain < set.len() {
        set.clear(grain);
        expect_same(rt, &set.has(grain), &false, "cleared", u64::from(grain));
        expect_same(
            rt,
            &set.next_clear(grain),
            &Some(grain),
            "next",
            u64::from(grain),
        );
        set.set(grain);
        expect_same(rt, &set.has(grain), &true, "set", u64::from(grain));
    }
    let third = grain / 3 * 3;
    expect_same(
        rt,
        &set.next_set(third),
        &Some(third),
        "third",
        u64::from(third),
    );
}

#[test]
fn one_grain(rt: HostRuntime) -> Result<(), Fail> {
    for grain in 0..200 {
        let mut set = set_of(rt.alloc(), 200, 6)?;
        assert_grain(&rt, &mut set, grain);
    }
    Ok(())
}

/// Each call that reads two sets answers what these lists do.
fn assert_read(rt: &impl Abort, set: &GrainSet, other: &GrainSet, apart: &[bool], common: &[bool]) {
    assert!(rt; set.len() == other.len());
    for from in 0..set.len().min(200) + 3 {
        let at = u64::from(from);
        let apart = plain_next(apart, from, true);
        expect_same(
            rt,
            &set.next_in_difference(other, from),
            &apart,
            "apart from",
            at,
        );
        let first = first_in_difference(set.words(), other.words(), from);
        expect_same(rt, &first, &apart, "words from", at);
        let common = plain_next(common, from, true);
        expect_same(
            rt,
            &set.next_shared(other, from),
            &common,
            "shared from",
            at,
        );
    }
}

/// What is added to a set, removed from it and copied to it, is so in these lists.
fn assert_changed(
    rt: &impl Abort,
    set: &mut GrainSet,
    other: &GrainSet,
    union: &[bool],
    apart: &[bool],
    others: &[bool],
) {
    assert!(rt; set.len() == other.len());
    set.add_all(other);
    assert_same(rt, set, union);
    assert!(rt; set.len() == other.len());
    set.remove_all(other);
    assert_same(rt, set, apart);
    assert!(rt; set.len() == other.len());
    set.copy_from(other);
    assert_same(rt, set, others);
}

/// What is kept in a set is so in this list.
fn assert_kept(rt: &impl Abort, set: &mut GrainSet, other: &GrainSet, common: &[bool]) {
    assert!(rt; set.len() == other.len());
    set.keep_all(other);
    assert_same(rt, set, common);
}

/// Each call over a set of the first list and this one answers and does what the lists do.
fn assert_beside(
    rt: &impl Abort,
    alloc: Global,
    set: &mut GrainSet,
    other: &GrainSet,
    plain: &[bool],
    others: &[bool],
) -> Result<(), Fail> {
    let apart = plain_together(alloc, How::Apart, plain, others)?;
    let common = plain_together(alloc, How::Common, plain, others)?;
    let union = plain_together(alloc, How::Union, plain, others)?;
    assert_read(rt, set, other, &apart, &common);
    assert_changed(rt, set, other, &union, &apart, others);
    Ok(())
}

/// Two patterns over so many grains.
#[derive(Clone, Copy)]
struct Patterns {
    grains: u32,
    left: u32,
    right: u32,
}

/// Each call over sets of two patterns answers and does what these lists of theirs do.
fn assert_sets(
    rt: &impl Abort,
    alloc: Global,
    of: Patterns,
    plain: &[bool],
    others: &[bool],
) -> Result<(), Fail> {
    let other = set_of(alloc, of.grains, of.right)?;
    let mut set = set_of(alloc, of.grains, of.left)?;
    assert_beside(rt, alloc, &mut set, &other, plain, others)
}

/// Each call over sets of two patterns answers and does what the lists do.
fn assert_pair(rt: &impl Abort, alloc: Global, of: Patterns) -> Result<(), Fail> {
    let plain = plain_of(alloc, of.grains, of.left)?;
    let others = plain_of(alloc, of.grains, of.right)?;
    assert_sets(rt, alloc, of, &plain, &others)
}

/// The list of what both patterns have.
fn common_of(alloc: Global, of: Patterns) -> Result<Vec<bool>, Fail> {
    let plain = plain_of(alloc, of.grains, of.left)?;
    let others = plain_of(alloc, of.grains, of.right)?;
    plain_together(alloc, How::Common, &plain, &others)
}

/// What is kept of a pattern is so in the lists.
fn assert_kept_pair(rt: &impl Abort, alloc: Global, of: Patterns) -> Result<(), Fail> {
    let common = common_of(alloc, of)?;
    let other = set_of(alloc, of.grains, of.right)?;
    let mut set = set_of(alloc, of.grains, of.left)?;
    assert_kept(rt, &mut set, &other, &common);
    Ok(())
}

#[test]
fn two_sets(rt: HostRuntime) -> Result<(), Fail> {
    for grains in 0..201 {
        for left in 0..PATTERNS {
            let of = Patterns {
                grains,
                left,
                right: 7 - left,
            };
            assert_pair(&rt, rt.alloc(), of)?;
            assert_kept_pair(&rt, rt.alloc(), of)?;
        }
    }
    Ok(())
}

/// A set is cut to so many grains, and filled.
fn assert_cut(rt: &impl Abort, set: &mut GrainSet, cut: u32) {
    assert!(rt; cut <= set.len());
    let to = u64::from(cut);
    set.reset(cut);
    expect_same(rt, &set.len(), &cut, "cut to", to);
    expect_same(rt, &set.count(), &0, "clear, cut to", to);
    expect_same(rt, &set.next_clear(0).is_some(), &(cut > 0), "first of", to);
    set.set_all();
    expect_same(rt, &set.count(), &cut, "full, cut to", to);
}

#[test]
fn a_cut_set(rt: HostRuntime) -> Result<(), Fail> {
    for grains in [0, 1, 63, 64, 65, 128, 200] {
        for cut in 0..grains + 1 {
            let mut set = set_of(rt.alloc(), grains, 1)?;
            assert_cut(&rt, &mut set, cut);
        }
    }
    Ok(())
}
