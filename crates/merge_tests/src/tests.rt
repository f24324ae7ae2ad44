//! Two actors whose numbers alternate, merged into a new history.

ghost use Rattle.std.specs.Prelude.{◌≡◌, ◌<◌, IfOk};
ghost use Rattle.merge_tests.specs.Two.{HasTwo, IsEntry};

use fc_base::list::List;
use fc_base::request::{Place, Reply, Request};
use fc_entry::entry::Entry;
use fc_entry::history::History;
use fc_merge::merging::merge;
use fc_merge::own::OwnEntries;
use std::alloc::Global;
use std::collections::VecDeque;
use std::test::Fail;

/// An entry of which its number and its actor alone count.
fn entry(alloc: Global, number: u64, actor: u32) -> Entry
    ensures { IsEntry actor number result }
{
    Entry {
        number,
        actor,
        place: Place::Lane(0),
        request: Request::CopyTurn { lane: 0 },
        reply: Reply::Idle,
        moves: List::new(alloc),
        effects: List::new(alloc),
        torn: None,
        faults_before: 0,
        faults_after: 0,
        calls: 0,
    }
}

/// Two entries of an actor.
fn two(alloc: Global, actor: u32, first: u64, second: u64) -> Result<OwnEntries, Fail>
    ensures { IfOk result (λ own. HasTwo actor first second own) }
{
    let mut entries = VecDeque::new(alloc);
    entries
        .push_back(entry(alloc, first, actor))
        .ok()
        .ok_or("no memory for an entry")?;
    entries
        .push_back(entry(alloc, second, actor))
        .ok()
        .ok_or("no memory for an entry")?;
    Ok(OwnEntries { actor, entries })
}

#[test]
fn entries_stand_by_number(rt: HostRuntime) -> Result<(), Fail> {
    let alloc = rt.alloc();
    let mut lists = [two(alloc, 1, 0, 2)?, two(alloc, 2, 1, 3)?];
    let mut history = History::new(alloc);
    assert!(rt; merge(&mut lists, &mut history).is_ok());
    assert_eq!(rt; history.len(), 4);
    for index in 0..history.len() {
        let entry = history.entry(index);
        assert_eq!(rt; entry.number, index as u64);
        assert_eq!(rt; entry.actor, 1 + (index % 2) as u32);
    }
    Ok(())
}
