//! The loop of the restore graph that is told.

ghost use Rattle.std.specs.Prelude.{◌≡◌, ◌↔◌, Some, length, map, IfOk, IsTrue};
ghost use Rattle.fc_base.specs.Sheet.{shape_of};
ghost use Rattle.fc_base.specs.SheetView.{LoopAnswer};
ghost use Rattle.fc_base.specs.declared.ids.VolId.{VolId as VolumeId};
ghost use Rattle.fc_loops.specs.Routes.{IsBestLoop};
ghost use Rattle.fc_check_sheet.specs.Links.{HasLink};
ghost use Rattle.fc_check_sheet.specs.Distances.{distance_in, AreDistances};
ghost use Rattle.fc_check_sheet.specs.Loops.{Betters, IsLess, IsOnLoop, LeadsOn, LeastNext, LeastOnLoop, ToldOfLinks, TriesLoop};

use crate::distances::{Distance, distance_of, distances_to};
use crate::links::{Link, links_of};
use fc_base::ids::VolId;
use fc_base::list::List;
use fc_base::outcome::NoMemory;
use fc_model::PlainSheet;
use std::alloc::Global;

/// Whether a volume is less than the least so far.
fn is_less(volume: u32, least: Option<u32>) -> bool
    ensures { IsTrue result ↔ IsLess volume least }
{
    match least {
        Some(least) => volume < least,
        None => true,
    }
}

/// Whether a link leads from a volume.
fn leads_on(links: &[Link], volume: u32) -> bool
    ensures { IsTrue result ↔ LeadsOn links.now volume }
{
    links.iter().any(|link| link.from == volume)
}

/// Whether a way leads from a volume back to it.
fn is_on_loop(alloc: Global, links: &[Link], volume: u32) -> Result<bool, NoMemory>
    ensures { IfOk result (λ yes. IsTrue yes ↔ IsOnLoop (HasLink links.now) volume) }
{
    if !leads_on(links, volume) {
        return Ok(false);
    }
    let distances = distances_to(alloc, links, volume)?;
    Ok(distance_of(&distances, volume).is_some())
}

/// The volume, if it is less than the least so far and on a loop; otherwise the least so far.
fn lesser_on_loop(
    alloc: Global,
    links: &[Link],
    volume: u32,
    least: Option<u32>,
) -> Result<Option<u32>, NoMemory>
    ensures { IfOk result (λ now. TriesLoop (HasLink links.now) volume least now) }
{
    if !is_less(volume, least) {
        return Ok(least);
    }
    if is_on_loop(alloc, links, volume)? {
        Ok(Some(volume))
    } else {
        Ok(least)
    }
}

/// The least of the volumes that are on a loop.
fn least_on_loop(alloc: Global, links: &[Link], volumes: &[u32]) -> Result<Option<u32>, NoMemory>
    ensures { IfOk result (λ found. LeastOnLoop (HasLink links.now) volumes.now (length volumes.now) found) }
{
    let mut least = None;
    for volume in volumes {
        least = lesser_on_loop(alloc, links, *volume, least)?;
    }
    Ok(least)
}

/// Whether a link leads from here to a volume that is so far away from the start, and less than the least so
/// far.
fn betters(link: Link, distances: &[Distance], here: u32, away: usize, next: Option<u32>) -> bool
    ensures { IsTrue result ↔ Betters link distances.now here away next }
{
    link.from == here && is_less(link.to, next) && distance_of(distances, link.to) == Some(away)
}

/// The least volume so far away from the start to which a link leads from here.
fn next_volume(links: &[Link], distances: &[Distance], here: u32, away: usize) -> Option<u32>
    ensures { LeastNext links.now distances.now here away (length links.now) result }
{
    let mut next = None;
    for link in links {
        if betters(*link, distances, here, away, next) {
            next = Some(link.to);
        }
    }
    next
}

/// The shortest loop from a volume back to it, so many links long; of those as short the first in dictionary
/// order.
fn best_loop(
    alloc: Global,
    links: &[Link],
    distances: &[Distance],
    start: u32,
    long: usize,
) -> Result<List<VolId>, NoMemory>
    requires distances { AreDistances (HasLink links.now) start distances.now }
    requires long { distance_in distances.now start ≡ Some long }
    ensures { IfOk result (λ names. IsBestLoop (HasLink links.now) start long (map (λ (w : VolumeId). w.0) names)) }
{
    let mut names = List::new(alloc);
    names.push(VolId(start))?;
    let mut here = start;
    let mut away = long - 1;
    while let Some(next) = next_volume(links, distances, here, away) {
        names.push(VolId(next))?;
        here = next;
        away -= 1;
    }
    Ok(names)
}

/// The loop that is told of these links; the volumes are all that there are.
fn loop_among(
    alloc: Global,
    links: &[Link],
    volumes: &[u32],
) -> Result<Option<List<VolId>>, NoMemory>
    ensures { IfOk result (λ found. ToldOfLinks links.now volumes.now found) }
{
    let Some(start) = least_on_loop(alloc, links, volumes)? else {
        return Ok(None);
    };
    let distances = distances_to(alloc, links, start)?;
    let Some(long) = distance_of(&distances, start) else {
        unreachable!();
    };
    match best_loop(alloc, links, &distances, start, long) {
        Ok(names) => Ok(Some(names)),
        Err(e) => Err(e),
    }
}

/// The loop of the restore graph, as it is told; None exactly where there is none.
pub(crate) fn told_loop(alloc: Global, sheet: &PlainSheet) -> Result<Option<List<VolId>>, NoMemory>
    ensures { IfOk result (λ found. LoopAnswer (shape_of sheet.now.slots) found) }
{
    let links = links_of(alloc, sheet)?;
    let volumes = sheet.volumes(alloc)?;
    loop_among(alloc, &links, &volumes)
}
