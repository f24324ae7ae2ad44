//! How far volumes are from one of them: the least number of links from each to it.

ghost use Rattle.std.specs.Prelude.{◌≡◌, ◌≤◌, ◌↔◌, ◌++◌, ◌∷◌, [], length, IfOk, OnOk, IsTrue};
ghost use Rattle.fc_check_sheet.specs.Links.{HasLink};
ghost use Rattle.fc_check_sheet.specs.Distances.{distance_in, IsAway, NotesLink, AreNear, NotesLevel, AreDistances};

use crate::links::Link;
use fc_base::outcome::NoMemory;
use std::alloc::Global;

/// How many links it takes from a volume to the start, one or more.
#[derive(Clone, Copy)]
pub(crate) struct Distance {
    pub(crate) volume: u32,
    pub(crate) links: usize,
}

/// The distance of a volume; None where none is noted.
pub(crate) fn distance_of(distances: &[Distance], volume: u32) -> Option<usize>
    ensures { result ≡ distance_in distances.now volume }
{
    for distance in distances {
        if distance.volume == volume {
            return Some(distance.links);
        }
    }
    None
}

/// Whether a volume is so many links away from the start; the start is by none.
fn is_away(distances: &[Distance], start: u32, volume: u32, away: usize) -> bool
    ensures { IsTrue result ↔ IsAway start away distances.now volume }
{
    if away == 0 {
        volume == start
    } else {
        distance_of(distances, volume) == Some(away)
    }
}

/// Puts a distance at the end.
fn push(distances: &mut Vec<Distance>, distance: Distance) -> Result<(), NoMemory>
    ensures { OnOk result (distances.new.items ≡ distances.old.items ++ distance ∷ []) }
{
    match distances.push(distance) {
        Ok(()) => Ok(()),
        Err(_) => Err(NoMemory),
    }
}

/// Notes the volume from which a link leads to one that is so far away, where it has no distance yet. Whether
/// it did.
fn note_link(
    distances: &mut Vec<Distance>,
    link: Link,
    start: u32,
    away: usize,
) -> Result<bool, NoMemory>
    requires { away ≤ length distances.old.items }
    ensures { IfOk result (λ noted. NotesLink link start away distances.old.items distances.new.items noted) }
{
    if distance_of(distances, link.from).is_some() || !is_away(distances, start, link.to, away) {
        return Ok(false);
    }
    let distance = Distance {
        volume: link.from,
        links: away + 1,
    };
    push(distances, distance)?;
    Ok(true)
}

/// Notes the volumes that are one link further away than these. Whether there are any.
fn note_level(
    distances: &mut Vec<Distance>,
    links: &[Link],
    start: u32,
    away: usize,
) -> Result<bool, NoMemory>
    requires room { away ≤ length distances.old.items }
    requires near { AreNear (HasLink links.now) start away distances.old.items }
    ensures { IfOk result (λ noted. NotesLevel links.now start away distances.old.items distances.new.items noted) }
{
    let mut any = false;
    for link in links {
        let noted = note_link(distances, *link, start, away)?;
        any |= noted;
    }
    Ok(any)
}

/// The distances of all volumes from which a way leads to the start.
pub(crate) fn distances_to(
    alloc: Global,
    links: &[Link],
    start: u32,
) -> Result<Vec<Distance>, NoMemory>
    ensures { IfOk result (λ distances. AreDistances (HasLink links.now) start distances.items) }
{
    let mut distances = Vec::new(alloc);
    let mut away = 0;
    'levels: loop {
        let any = note_level(&mut distances, links, start, away)?;
        if !any {
            return Ok(distances);
        }
        away += 1;
    }
}
