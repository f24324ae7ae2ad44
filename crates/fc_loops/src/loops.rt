//! The loop that is told, among nodes with links: the least node on any loop is found, with how many links it takes to it
//! from each node, and from there the least next node is taken along falling numbers.

ghost use Rattle.std.specs.Prelude.{◌≡◌, ◌⊎◌, ◌↔◌, ℕ, ◌+◌, ◌<◌, ◌≤◌, length, slice_set, IsTrue, IfOk, Some, true, false};
ghost use Rattle.fc_loops.specs.Routes.{mark_at, ToldBy, AreMarkedTo, AreMarked, IsBestLoop};
ghost use Rattle.fc_loops.specs.Links.{HasLink, IsWithin, AreWithin, IsAtLevel, unmarked, FitsStep, LeastStep, least_of};

use fc_base::list::List;
use fc_base::outcome::NoMemory;
use std::alloc::Global;

/// A link from one node to another, both counted from 0.
#[derive(Clone, Copy)]
pub(crate) struct Link {
    pub(crate) from: usize,
    pub(crate) to: usize,
}

/// Whether the node is as many links away from the start as the level says.
fn is_at_level(node: usize, start: usize, level: usize, marks: &[usize]) -> bool
    requires { node < length marks.now }
    ensures { IsTrue result ↔ IsAtLevel start level marks.now node }
{
    if level == 0 {
        node == start
    } else {
        marks[node] == level
    }
}

/// Marks the node that the link leads from, if it has no mark and the other is at the level. Whether it did.
fn mark_one(link: Link, start: usize, level: usize, marks: &mut [usize]) -> bool
    requires within { IsWithin (length marks.old) link }
    requires level { level ≤ length marks.old }
    ensures marked { result ≡ true → (mark_at marks.old link.from ≡ 0) × IsAtLevel start level marks.old link.to × (marks.new ≡ slice_set marks.old link.from (level + 1)) }
    ensures passed { result ≡ false → ((0 < mark_at marks.old link.from) ⊎ (IsAtLevel start level marks.old link.to → ⊥)) × (marks.new ≡ marks.old) }
{
    if marks[link.from] > 0 {
        return false;
    }
    if !is_at_level(link.to, start, level, marks) {
        return false;
    }
    marks[link.from] = level + 1;
    true
}

/// Marks the nodes one level further away from the start. Whether there are any.
fn mark_next(links: &[Link], start: usize, level: usize, marks: &mut [usize]) -> bool
    requires within { AreWithin links.now (length marks.old) }
    requires level { level ≤ length marks.old }
    requires so_far { AreMarkedTo (HasLink links.now) start level marks.old }
    ensures more { AreMarkedTo (HasLink links.now) start (level + 1) marks.new }
    ensures some { result ≡ true → unmarked marks.new < unmarked marks.old }
    ensures none { result ≡ false → marks.new ≡ marks.old }
{
    let mut any = false;
    for link in links {
        if mark_one(*link, start, level, marks) {
            any = true;
        }
    }
    any
}

/// Takes all marks away.
fn clear(marks: &mut [usize])
    ensures { (v : ℕ) → mark_at marks.new v ≡ 0 }
{
    for mark in marks.iter_mut() {
        *mark = 0;
    }
}

/// Marks each node with the least number of links from it to the start, and with 0 where no way leads there.
fn mark_all(links: &[Link], start: usize, marks: &mut [usize])
    requires { AreWithin links.now (length marks.old) }
    ensures { AreMarked (HasLink links.now) start marks.new }
{
    clear(marks);
    let mut level = 0;
    while mark_next(links, start, level, marks) {
        level += 1;
    }
}

/// The lesser of the node to which the link leads and the least so far, if the link leads from the node to one with the
/// mark.
fn lesser(
    best: Option<usize>,
    link: Link,
    here: usize,
    mark: usize,
    marks: &[usize],
) -> Option<usize>
    requires { IsWithin (length marks.now) link }
    ensures fits { FitsStep here mark marks.now link → result ≡ Some (least_of best link.to) }
    ensures passed { (FitsStep here mark marks.now link → ⊥) → result ≡ best }
{
    if link.from != here || marks[link.to] != mark {
        return best;
    }
    match best {
        Some(least) => Some(least.min(link.to)),
        None => Some(link.to),
    }
}

/// The least node with the mark to which a link leads from here.
fn next_node(links: &[Link], here: usize, mark: usize, marks: &[usize]) -> Option<usize>
    requires { AreWithin links.now (length marks.now) }
    ensures { LeastStep links.now here mark marks.now (length links.now) result }
{
    let mut best = None;
    for link in links {
        best = lesser(best, *link, here, mark, marks);
    }
    best
}

/// Goes from the start along falling marks back to it, each time to the least node.
fn walk(
    alloc: Global,
    links: &[Link],
    start: usize,
    marks: &[usize],
) -> Result<List<usize>, NoMemory>
    requires within { AreWithin links.now (length marks.now) }
    requires there { start < length marks.now }
    requires marked { AreMarked (HasLink links.now) start marks.now }
    requires on_loop { 0 < mark_at marks.now start }
    ensures { IfOk result (λ nodes. IsBestLoop (HasLink links.now) start (mark_at marks.now start) nodes) }
{
    let mut nodes = List::new(alloc);
    nodes.push(start)?;
    let mut here = start;
    let mut left = marks[start];
    while left > 1 {
        left -= 1;
        match next_node(links, here, left, marks) {
            Some(next) => here = next,
            None => unreachable!(),
        }
        nodes.push(here)?;
    }
    Ok(nodes)
}

/// The loop that is told among so many nodes, or none.
pub(crate) fn told_loop(
    alloc: Global,
    nodes: usize,
    links: &[Link],
) -> Result<Option<List<usize>>, NoMemory>
    requires { AreWithin links.now nodes }
    ensures { IfOk result (λ found. ToldBy (HasLink links.now) found) }
{
    let Ok(mut marks) = Vec::from_elem(alloc, 0, nodes) else {
        return Err(NoMemory);
    };
    for start in 0..nodes {
        mark_all(links, start, &mut marks);
        if marks[start] > 0 {
            return match walk(alloc, links, start, &marks) {
                Ok(nodes) => Ok(Some(nodes)),
                Err(e) => Err(e),
            };
        }
    }
    Ok(None)
}
