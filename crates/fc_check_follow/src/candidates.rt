//! All ways after the entries so far.

ghost use Rattle.std.specs.Prelude.{◌≡◌, ◌↔◌, ◌+◌, ◌<◌, [], ◌∷◌, length, IfOk, OnOk, IsTrue, option_copied, option_map, slice_get};
ghost use Rattle.fc_legal.specs.Whole.{opened};
ghost use Rattle.law_stands.specs.Names.{nameless};
ghost use Rattle.fc_check_record.specs.Judged.{Judged};
ghost use Rattle.fc_check_follow.specs.Ways.{AreAfter, pools_told};
ghost use Rattle.fc_check_follow.specs.Following.{AreFollowing, AreReachedAt};

use crate::first::first_way;
use crate::refused::keep;
use crate::way::follow_way;
use fc_base::outcome::NoMemory;
use fc_base::size::GrainSize;
use fc_check_record::Record;
use fc_entry::entry::Entry;
use fc_trace::header::LaneDisks;
use std::alloc::Global;
use std::marker::Model;
use std::mem;

/// All ways in which things may have been told after the entries so far, mostly one. None is left behind a wrong entry.
#[derive(Drop)]
pub struct Candidates {
    grain: GrainSize,
    entries: u64,
    ways: Vec<Record>,
}

impl Model for Candidates {
    ghost use Rattle.std.specs.Prelude.{map};
    ghost use Rattle.fc_check_record.specs.Judged.{Judged};
    ghost use Rattle.fc_check_follow.specs.Following.{AreCandidates};
    ghost use Rattle.fc_check_follow.specs.Ways.{Ways};

    ghost Value = { Ways };

    ghost view = { λ c. record { grain = c.grain; entries = c.entries; ways = map (λ (way : Judged). way.whole) c.ways.items } };

    ghost invariant = { λ c. AreCandidates c.grain c.entries c.ways.items };
}

/// Goes on with all ways behind an entry with the next number, which is below 2^18.
fn follow_all(
    alloc: Global,
    mut ways: Vec<Record>,
    entry: &Entry,
    after: &mut Vec<Record>,
) -> Result<(), NoMemory>
    requires few { entry.now.number < 262144 }
    requires reached { AreReachedAt entry.now.number ways.items }
    requires none { after.old.items ≡ [] }
    ensures { OnOk result (AreFollowing ways.items entry.now after.new.items) }
{
    while let Some(way) = ways.pop() {
        follow_way(alloc, way, entry, after)?;
    }
    Ok(())
}

/// All ways behind an entry after so many, fewer than 2^18: none where its number is another.
fn ways_after(
    alloc: Global,
    ways: Vec<Record>,
    entry: &Entry,
    entries: u64,
) -> Result<Vec<Record>, NoMemory>
    requires few { entries < 262144 }
    requires reached { AreReachedAt entries ways.items }
    ensures { IfOk result (λ after. AreFollowing ways.items entry.now after.items) }
{
    let mut after = Vec::new(alloc);
    if entry.number != entries {
        return Ok(after);
    }
    follow_all(alloc, ways, entry, &mut after)?;
    Ok(after)
}

impl Candidates {
    /// What is told before the first entry, over these disks for new volumes, lane by lane.
    pub fn open(
        alloc: Global,
        grain: GrainSize,
        lanes: &[LaneDisks],
    ) -> Result<Candidates, NoMemory>
        requires { 0 < length lanes.now }
        ensures { IfOk result (λ c. c ≡ record { grain = grain; entries = 0; ways = nameless (opened (pools_told lanes.now)) ∷ [] }) }
    {
        let first = first_way(alloc, grain, lanes)?;
        let mut ways = Vec::new(alloc);
        keep(first, &mut ways)?;
        Ok(Candidates {
            grain,
            entries: 0,
            ways,
        })
    }

    /// Goes on behind an entry: the ways are then all that may be told after it, and none is left exactly where it is no right
    /// step from any of the ways before it. Where memory is wanted and not had, the candidates stand for nothing any more.
    pub fn follow(&mut self, alloc: Global, entry: &Entry) -> Result<(), NoMemory>
        requires { self.old.entries < 262144 }
        ensures after { OnOk result (AreAfter self.old.grain self.old.ways entry.now self.new.ways) }
        ensures grain { OnOk result (self.new.grain ≡ self.old.grain) }
        ensures entries { OnOk result (self.new.entries ≡ self.old.entries + 1) }
    {
        let ways = mem::replace(&mut self.ways, Vec::new(alloc));
        self.ways = ways_after(alloc, ways, entry, self.entries)?;
        self.entries += 1;
        Ok(())
    }

    /// In how many ways all may have been told; 0 behind a wrong entry.
    pub fn len(&self) -> usize
        ensures { result ≡ length self.now.ways }
    {
        self.ways.len()
    }

    /// The first way, if there is one.
    pub fn first(&self) -> Option<&Record>
        ensures { option_map (λ (way : Judged). way.whole) (option_copied result) ≡ slice_get self.now.ways 0 }
    {
        self.ways.first()
    }

    /// Whether nothing may be told: the last entry, or one before it, was wrong.
    pub fn is_empty(&self) -> bool
        ensures { IsTrue result ↔ (self.now.ways ≡ []) }
    {
        self.ways.is_empty()
    }
}
