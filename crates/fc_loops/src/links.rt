//! The links that chains make between the volumes that have old rows: from such a volume to each volume with a live row
//! behind the old one in its chain. The volumes are counted in rising order. And the loop that is told of them.

ghost use Rattle.std.specs.Prelude.{◌≡◌, ◌↔◌, ℕ, ◌+◌, ◌<◌, ◌≤◌, ◌++◌, ◌∷◌, [], length, map, true, false, IsTrue, OnOk, IfOk, Contains, slice_index_or};
ghost use Rattle.std.specs.List.Sorted.{IsPermutation};
ghost use Rattle.fc_base.specs.SheetView.{LoopAnswer};
ghost use Rattle.fc_loops.specs.Links.{AreWithin};
ghost use Rattle.fc_loops.specs.Rows.{row_at, row_shape};
ghost use Rattle.fc_loops.specs.Joins.{AreTogether, volume_at, HasOld, IsListed, IsListedAt, FoundNode, IsRising, NeverFalls, AreOldVolumes, LinkedTo, with_link, IsRepeated, AreLinked, AllBelow};
ghost use Rattle.fc_base.specs.declared.ids.VolId.{VolId as VolumeId};

use crate::loops::{Link, told_loop};
use crate::rows::Row;
use fc_base::ids::VolId;
use fc_base::list::List;
use fc_base::outcome::NoMemory;
use std::alloc::Global;

/// Puts an item at the end.
fn add<T: Drop>(items: &mut Vec<T>, item: T) -> Result<(), NoMemory>
    ensures { OnOk result (items.new.items ≡ items.old.items ++ item ∷ []) }
{
    match items.push(item) {
        Ok(()) => Ok(()),
        Err(_) => Err(NoMemory),
    }
}

/// The volumes of the old rows, in the order of the rows.
fn list_old(alloc: Global, rows: &[Row]) -> Result<Vec<u32>, NoMemory>
    ensures { IfOk result (λ volumes. (v : ℕ) → HasOld rows.now (length rows.now) v → IsListed volumes.items v) }
{
    let mut volumes = Vec::new(alloc);
    for row in rows {
        if !row.is_live {
            add(&mut volumes, row.volume)?;
        }
    }
    Ok(volumes)
}

/// Puts the volumes in order.
fn sort(volumes: &mut [u32])
    ensures same { IsPermutation volumes.old volumes.new }
    ensures order { NeverFalls volumes.new }
{
    volumes.sort_unstable();
}

/// Puts a volume at the end, if it isn't there already.
fn put_last(volumes: &mut Vec<u32>, volume: u32) -> Result<(), NoMemory>
    requires rising { IsRising volumes.old.items }
    requires last { (k : ℕ) → k < length volumes.old.items → volume_at volumes.old.items k ≤ volume }
    ensures rising { OnOk result (IsRising volumes.new.items) }
    ensures last { OnOk result ((k : ℕ) → k < length volumes.new.items → volume_at volumes.new.items k ≤ volume) }
    ensures put { OnOk result (IsListed volumes.new.items volume) }
    ensures kept { OnOk result ((v : ℕ) → IsListed volumes.old.items v → IsListed volumes.new.items v) }
{
    let count = volumes.len();
    if count > 0 && volumes[count - 1] == volume {
        return Ok(());
    }
    add(volumes, volume)
}

/// The volumes, each once.
fn each_once(alloc: Global, sorted: &[u32]) -> Result<Vec<u32>, NoMemory>
    requires { NeverFalls sorted.now }
    ensures rising { IfOk result (λ volumes. IsRising volumes.items) }
    ensures all { IfOk result (λ volumes. (v : ℕ) → IsListed sorted.now v → IsListed volumes.items v) }
{
    let mut volumes = Vec::new(alloc);
    for volume in sorted {
        put_last(&mut volumes, *volume)?;
    }
    Ok(volumes)
}

/// The volumes that have old rows, in rising order.
fn old_volumes(alloc: Global, rows: &[Row]) -> Result<Vec<u32>, NoMemory>
    ensures { IfOk result (λ volumes. AreOldVolumes rows.now volumes.items) }
{
    let mut volumes = list_old(alloc, rows)?;
    sort(&mut volumes);
    match each_once(alloc, &volumes) {
        Ok(volumes) => Ok(volumes),
        Err(e) => Err(e),
    }
}

/// The place of a volume in the list.
fn node_of(volumes: &[u32], volume: u32) -> Option<usize>
    requires { IsRising volumes.now }
    ensures { FoundNode volumes.now volume result }
{
    match volumes.binary_search(&volume) {
        Ok(node) => Some(node),
        Err(_) => None,
    }
}

/// The node to which an old row of the one node makes a link at a row behind it, if that is live and of another volume of
/// the list.
fn linked_to(row: Row, volumes: &[u32], from: usize) -> Option<usize>
    requires { IsRising volumes.now }
    ensures { LinkedTo row volumes.now from result }
{
    if !row.is_live {
        return None;
    }
    match node_of(volumes, row.volume) {
        Some(to) if to != from => Some(to),
        _ => None,
    }
}

/// Adds the link, if there is one.
fn add_link(links: &mut Vec<Link>, from: usize, to: Option<usize>) -> Result<(), NoMemory>
    ensures { OnOk result (links.new.items ≡ with_link links.old.items from to) }
{
    match to {
        Some(to) => add(links, Link { from, to }),
        None => Ok(()),
    }
}

/// Whether there is a row at the place, in this chain.
fn goes_on(rows: &[Row], behind: usize, chain: u64) -> bool
    ensures { IsTrue result ↔ ((behind < length rows.now) × ((row_at rows.now behind).chain ≡ chain)) }
{
    behind < rows.len() && rows[behind].chain == chain
}

/// Adds the links that an old row makes with those behind it in its chain.
fn add_links(
    rows: &[Row],
    volumes: &[u32],
    place: usize,
    links: &mut Vec<Link>,
) -> Result<(), NoMemory>
    requires rising { IsRising volumes.now }
    requires together { AreTogether rows.now }
    requires there { place < length rows.now }
    requires old { (row_at rows.now place).is_live ≡ false }
    requires so_far { AreLinked rows.now volumes.now links.old.items place 0 }
    ensures { OnOk result (AreLinked rows.now volumes.now links.new.items (place + 1) 0) }
{
    let Some(from) = node_of(volumes, rows[place].volume) else {
        return Ok(());
    };
    let chain = rows[place].chain;
    let mut behind = place + 1;
    while goes_on(rows, behind, chain) {
        add_link(links, from, linked_to(rows[behind], volumes, from))?;
        behind += 1;
    }
    Ok(())
}

/// Whether an old row of the same volume stands before the row in its chain, so that it makes no link of its own.
fn is_repeated(rows: &[Row], place: usize) -> bool
    requires { place < length rows.now }
    ensures { result ≡ true → IsRepeated rows.now place }
{
    let row = rows[place];
    let mut before = place;
    while before > 0 {
        before -= 1;
        if rows[before].chain != row.chain {
            return false;
        }
        if !rows[before].is_live && rows[before].volume == row.volume {
            return true;
        }
    }
    false
}

/// Adds the links that a row makes.
fn link_row(
    rows: &[Row],
    volumes: &[u32],
    place: usize,
    links: &mut Vec<Link>,
) -> Result<(), NoMemory>
    requires rising { IsRising volumes.now }
    requires together { AreTogether rows.now }
    requires there { place < length rows.now }
    requires so_far { AreLinked rows.now volumes.now links.old.items place 0 }
    ensures { OnOk result (AreLinked rows.now volumes.now links.new.items (place + 1) 0) }
{
    if rows[place].is_live {
        return Ok(());
    }
    if is_repeated(rows, place) {
        return Ok(());
    }
    add_links(rows, volumes, place, links)
}

/// The links that all rows make.
fn list_links(alloc: Global, rows: &[Row], volumes: &[u32]) -> Result<Vec<Link>, NoMemory>
    requires rising { IsRising volumes.now }
    requires together { AreTogether rows.now }
    ensures { IfOk result (λ links. AreLinked rows.now volumes.now links.items (length rows.now) 0) }
{
    let mut links = Vec::new(alloc);
    for place in 0..rows.len() {
        link_row(rows, volumes, place, &mut links)?;
    }
    Ok(links)
}

/// The volumes with these places in the list.
fn named(alloc: Global, volumes: &[u32], nodes: &[usize]) -> Result<List<VolId>, NoMemory>
    requires { AllBelow (length volumes.now) nodes.now }
    ensures { IfOk result (λ names. map (λ (w : VolumeId). w.0) names ≡ map (volume_at volumes.now) nodes.now) }
{
    let mut names = List::new(alloc);
    for node in nodes {
        names.push(VolId(volumes[*node]))?;
    }
    Ok(names)
}

/// The loop that is told of the rows' restore graph, or none.
pub fn loop_of_rows(alloc: Global, rows: &[Row]) -> Result<Option<List<VolId>>, NoMemory>
    requires { AreTogether rows.now }
    ensures { IfOk result (λ found. LoopAnswer (row_shape rows.now) found) }
{
    let volumes = old_volumes(alloc, rows)?;
    let links = list_links(alloc, rows, &volumes)?;
    let Some(nodes) = told_loop(alloc, volumes.len(), &links)? else {
        return Ok(None);
    };
    match named(alloc, &volumes, nodes.as_slice()) {
        Ok(names) => Ok(Some(names)),
        Err(e) => Err(e),
    }
}
