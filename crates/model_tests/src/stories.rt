//! The stories. Births are counted by hand: each volume takes one as it comes, each started copy and each new
//! live slot one more.

use crate::story::{Story, pair};
use fc_base::ids::VolId;
use std::process::Abort;
use std::test::Fail;

const IN_PLACE: bool = true;

const COPIED: bool = false;

#[test]
fn a_write_copies_to_the_latest_target_alone(rt: HostRuntime) -> Result<(), Fail> {
    let mut story = Story::of(rt.alloc(), 3, 1)?;
    story.write(0, 0)?;
    story.start(&[pair(0, 0, 1)])?;
    story.start(&[pair(1, 0, 2)])?;
    story.write(0, 0)?;
    assert!(rt; story.has_moved(&[(4, 2, 0, COPIED)]));
    assert_eq!(rt; (story.is_complete(0), story.is_complete(1)), (false, true));
    assert!(rt; story.is_needed(1));
    assert!(rt; story.is_read_at(&[(1, 0, 4)]));
    story.write(2, 0)?;
    assert!(rt; story.has_moved(&[(4, 2, 0, COPIED), (3, 1, 0, COPIED)]));
    assert!(rt; !story.is_needed(1));
    assert!(rt; story.is_read_at(&[(0, 0, 0), (1, 0, 3), (2, 0, 4)]));
    Ok(())
}

#[test]
fn a_cascade_copies_one_step(rt: HostRuntime) -> Result<(), Fail> {
    let story = Story::written(rt.alloc(), 4, 1, 1)?;
    assert!(rt; story.has_moved(&[(5, 2, 0, COPIED)]));
    assert!(rt; story.is_read_at(&[(0, 0, 0), (1, 0, 4), (2, 0, 5), (3, 0, 5)]));
    Ok(())
}

#[test]
fn a_stopped_copy_is_cleaned_and_goes(rt: HostRuntime) -> Result<(), Fail> {
    let mut story = Story::written(rt.alloc(), 3, 2, 0)?;
    assert!(rt; story.has_moved(&[(3, 1, 0, COPIED)]));
    assert_eq!(rt; (story.is_complete(0), story.is_needed(0)), (false, true));
    story.retire(0)?;
    assert!(rt; story.is_read_at(&[(1, 0, 5), (1, 1, 5), (2, 0, 3), (2, 1, 0)]));
    story.clean(0, 0)?;
    assert!(rt; story.has_moved(&[(3, 1, 0, COPIED), (4, 2, 0, COPIED)]));
    assert!(rt; !story.is_needed(0));
    story.drop_slot(3)?;
    assert!(rt; story.is_read_at(&[(2, 0, 4), (2, 1, 0)]));
    Ok(())
}

/// A complete copy is stopped that others need, and its volume is written: its old slot has stayed for them,
/// and goes when the nearest of them has the grain.
fn assert_stays_for_dependents(rt: &impl Abort, story: &mut Story) -> Result<(), Fail> {
    assert!(rt; story.has_moved(&[(4, 1, 0, COPIED)]));
    assert_eq!(rt; (story.is_complete(0), story.is_needed(0)), (true, true));
    story.retire(0)?;
    assert!(rt; story.has_dependents(0, &[2, 3])?);
    story.write(1, 0)?;
    assert!(rt; story.has_moved(&[(4, 1, 0, COPIED), (5, 2, 0, COPIED)]));
    assert!(rt; !story.is_needed(0));
    story.drop_slot(4)?;
    assert!(rt; story.has_dependents(1, &[3])?);
    assert!(rt; story.is_read_at(&[(0, 0, 0), (1, 0, 7), (2, 0, 5), (3, 0, 5)]));
    Ok(())
}

#[test]
fn a_copy_that_is_completed_stays_for_its_dependents(rt: HostRuntime) -> Result<(), Fail> {
    let mut story = Story::cascade(rt.alloc(), 4, 1)?;
    assert!(rt; !story.is_complete(0));
    story.copy(0, 0)?;
    assert_stays_for_dependents(&rt, &mut story)
}

#[test]
fn a_copy_that_a_write_completes_stays_for_its_dependents(rt: HostRuntime) -> Result<(), Fail> {
    let mut story = Story::written(rt.alloc(), 4, 1, 0)?;
    assert_stays_for_dependents(&rt, &mut story)
}

#[test]
fn a_split_copy_is_on_its_own(rt: HostRuntime) -> Result<(), Fail> {
    let mut story = Story::cascade(rt.alloc(), 4, 1)?;
    story.copy(0, 0)?;
    story.split(0)?;
    story.write(0, 0)?;
    assert!(rt; story.has_moved(&[(4, 1, 0, COPIED)]));
    story.write(1, 0)?;
    assert!(rt; story.has_moved(&[(4, 1, 0, COPIED), (5, 2, 0, COPIED)]));
    assert!(rt; story.is_read_at(&[(0, 0, 0), (1, 0, 4), (2, 0, 5), (3, 0, 5)]));
    Ok(())
}

#[test]
fn a_restored_volume_is_filled_in_place(rt: HostRuntime) -> Result<(), Fail> {
    let mut story = Story::of(rt.alloc(), 2, 1)?;
    assert!(rt; !story.sheet.is_used(VolId(0)));
    story.start(&[pair(0, 0, 1)])?;
    assert!(rt; story.sheet.is_used(VolId(0)));
    assert!(rt; !story.sheet.is_used(VolId(1)));
    assert!(rt; !story.would_loop(pair(1, 1, 0))?);
    story.start(&[pair(1, 1, 0)])?;
    assert!(rt; story.is_read_at(&[(0, 0, 0), (1, 0, 0)]));
    story.copy(1, 0)?;
    assert!(rt; story.has_moved(&[(3, 0, 0, IN_PLACE)]));
    assert!(rt; story.is_read_at(&[(0, 0, 3), (1, 0, 0)]));
    story.write(0, 0)?;
    assert!(rt; story.has_moved(&[(3, 0, 0, IN_PLACE), (2, 1, 0, COPIED)]));
    assert!(rt; story.is_read_at(&[(0, 0, 3), (1, 0, 2)]));
    Ok(())
}

#[test]
fn a_write_copies_for_the_older_slot_and_then_behind(rt: HostRuntime) -> Result<(), Fail> {
    let mut story = Story::of(rt.alloc(), 3, 1)?;
    story.start(&[pair(0, 0, 1)])?;
    story.start(&[pair(1, 1, 0)])?;
    story.start(&[pair(2, 0, 2)])?;
    story.write(0, 0)?;
    assert!(rt; story.has_moved(&[(3, 1, 0, COPIED), (5, 2, 0, COPIED)]));
    assert!(rt; story.is_read_at(&[(0, 0, 4), (1, 0, 3), (2, 0, 5)]));
    Ok(())
}

#[test]
fn a_forced_copy_takes_its_dependents_with_it(rt: HostRuntime) -> Result<(), Fail> {
    let mut story = Story::written(rt.alloc(), 4, 2, 0)?;
    assert!(rt; story.has_moved(&[(4, 1, 0, COPIED)]));
    assert!(rt; story.has_dependents(0, &[2, 3])?);
    story.force(0, &[1, 2])?;
    assert!(rt; story.is_read_at(&[(0, 0, 0), (1, 0, 7), (2, 0, 8), (3, 0, 9)]));
    assert!(rt; story.is_read_at(&[(0, 1, 0), (1, 1, 7), (2, 1, 8), (3, 1, 9)]));
    assert_eq!(rt; (story.sheet.len(), story.sheet.births()), (4, 10));
    Ok(())
}

#[test]
fn members_of_a_group_are_stopped_in_turn(rt: HostRuntime) -> Result<(), Fail> {
    let mut story = Story::of(rt.alloc(), 4, 3)?;
    story.start(&[pair(0, 0, 1), pair(1, 0, 2)])?;
    story.start(&[pair(2, 1, 3)])?;
    story.write(0, 0)?;
    story.write(2, 1)?;
    story.write(3, 0)?;
    assert!(rt; story.has_moved(&[(5, 2, 0, COPIED), (4, 1, 1, COPIED)]));
    assert_eq!(rt; (story.is_needed(0), story.is_needed(1)), (true, true));
    story.retire(0)?;
    assert!(rt; !story.is_needed(1));
    story.detach(1)?;
    assert!(rt; story.is_read_at(&[(1, 0, 7), (2, 0, 8)]));
    assert!(rt; story.is_read_at(&[(3, 0, 6), (3, 1, 4), (3, 2, 0)]));
    Ok(())
}
