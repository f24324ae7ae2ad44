//! All runs of a session that the entries so far may be the first of.

ghost use Rattle.std.specs.Prelude.{◌≡◌, ◌↔◌, ◌+◌, ◌<◌, ◌∷◌, ◌++◌, [], List, ℕ, length, map, slice_index_or, IfOk, IsTrue, OnOk};
ghost use Rattle.fc_base.specs.Pools.{Pool};
ghost use Rattle.fc_base.specs.declared.size.GrainSize.{GrainSize};
ghost use Rattle.fc_blocks.specs.Segments.{Segment};
ghost use Rattle.fc_check_answers.specs.Places.{AreAllPlaces, HasEnd};
ghost use Rattle.fc_check_answers.specs.Runs.{AreNext, AreRunsAt, place_at};
ghost use Rattle.fc_check_follow.specs.Ways.{pools_told};
ghost use Rattle.fc_check_lines.specs.Bytes.{segments_in};
ghost use Rattle.fc_entry.specs.declared.entry.Entry.{Entry};
ghost use Rattle.fc_legal.specs.Whole.{opened};

use crate::run::Run;
use crate::telling::Telling;
use fc_base::outcome::NoMemory;
use fc_base::size::GrainSize;
use fc_check_follow::first_way;
use fc_check_lane::push_item;
use fc_check_lines::lines::Lines;
use fc_entry::entry::Entry;
use fc_trace::header::LaneDisks;
use std::alloc::Global;
use std::marker::Model;
use std::mem;

/// All runs of a session that the entries so far may be the first of, mostly one. None is left behind an entry that can't stand there.
#[derive(Drop)]
pub struct Answering<'a> {
    grain: GrainSize,
    entries: u64,
    runs: Vec<Run<'a>>,
}

impl<'a> Model for Answering<'a> {
    ghost use Rattle.std.specs.Prelude.{map};
    ghost use Rattle.fc_check_answers.specs.Places.{Answers};
    ghost use Rattle.fc_check_answers.specs.Runs.{AreRunsAt, place_at};

    ghost Value = { Answers };

    ghost view = { λ a. record { grain = a.grain; entries = a.entries; places = map place_at a.runs.items } };

    ghost invariant = { λ a. AreRunsAt a.grain a.entries a.runs.items };
}

/// Goes on with all runs behind an entry with the next number, which is below 2^18.
fn follow_all<'a>(
    alloc: Global,
    grain: GrainSize,
    mut runs: Vec<Run<'a>>,
    name: &[u8],
    entry: &Entry,
    after: &mut Vec<Run<'a>>,
) -> Result<(), NoMemory>
    requires few { entry.now.number < 262144 }
    requires runs { AreRunsAt grain entry.now.number runs.items }
    requires none { after.old.items ≡ [] }
    ensures places { OnOk result (AreNext grain name.now entry.now (map place_at runs.entry.items) (map place_at after.new.items)) }
    ensures runs { OnOk result (AreRunsAt grain (entry.now.number + 1) after.new.items) }
{
    while let Some(run) = runs.pop() {
        run.follow(alloc, name, entry, after)?;
    }
    Ok(())
}

/// All runs behind an entry after so many, fewer than 2^18: none where its number is another.
fn runs_after<'a>(
    alloc: Global,
    grain: GrainSize,
    runs: Vec<Run<'a>>,
    name: &[u8],
    entry: &Entry,
    entries: u64,
) -> Result<Vec<Run<'a>>, NoMemory>
    requires few { entries < 262144 }
    requires runs { AreRunsAt grain entries runs.items }
    ensures places { IfOk result (λ after. AreNext grain name.now entry.now (map place_at runs.entry.items) (map place_at after.items)) }
    ensures runs { IfOk result (λ after. AreRunsAt grain (entries + 1) after.items) }
{
    let mut after = Vec::new(alloc);
    if entry.number != entries {
        return Ok(after);
    }
    follow_all(alloc, grain, runs, name, entry, &mut after)?;
    Ok(after)
}

impl<'a> Answering<'a> {
    /// The place of these bytes of a session before the first entry, over these disks for new volumes, lane by lane. Refused for want of
    /// memory alone.
    pub fn open(
        alloc: Global,
        grain: GrainSize,
        lanes: &[LaneDisks],
        session: &'a [u8],
    ) -> Result<Answering<'a>, NoMemory>
        requires { 0 < length lanes.now }
        ensures grain { IfOk result (λ answering. answering.grain ≡ grain) }
        ensures entries { IfOk result (λ answering. answering.entries ≡ 0) }
        ensures places { IfOk result (λ answering. (own : List (List ℕ))
            → AreAllPlaces grain (opened (pools_told lanes.now)) (segments_in session.now) own [] answering.places) }
    {
        let way = first_way(alloc, grain, lanes)?;
        let lines = Lines::open(alloc, session, &Telling { way: &way })?;
        let mut runs = Vec::new(alloc);
        push_item(&mut runs, Run { way, lines })?;
        Ok(Answering {
            grain,
            entries: 0,
            runs,
        })
    }

    /// Goes on behind an entry, by the name that its actor has in the printed history: where the places were all that the entries before
    /// it lead to, they are then all that it leads to. None is left exactly where it can't stand there in any run of the session, also
    /// where its number isn't the next. Where it is refused, as `open` is, the places stand for nothing any more.
    pub fn follow(&mut self, alloc: Global, name: &[u8], entry: &Entry) -> Result<(), NoMemory>
        requires { self.old.entries < 262144 }
        ensures grain { OnOk result (self.new.grain ≡ self.old.grain) }
        ensures entries { OnOk result (self.new.entries ≡ self.old.entries + 1) }
        ensures places { OnOk result ((pools : List Pool) (segs : List Segment) (own : List (List ℕ)) (told : List Entry)
            → slice_index_or own entry.now.actor [] ≡ name.now
            → AreAllPlaces self.old.grain (opened pools) segs own told self.old.places
            → AreAllPlaces self.old.grain (opened pools) segs own (told ++ entry.now ∷ []) self.new.places) }
    {
        let runs = mem::replace(&mut self.runs, Vec::new(alloc));
        self.runs = runs_after(alloc, self.grain, runs, name, entry, self.entries)?;
        self.entries += 1;
        Ok(())
    }

    /// Whether no place is left: the last entry, or one before it, can't stand there.
    pub fn is_empty(&self) -> bool
        ensures { IsTrue result ↔ (self.now.places ≡ []) }
    {
        self.runs.is_empty()
    }

    /// Whether nothing is left to be asked at one of the places.
    pub fn is_over(&self) -> bool
        ensures { IsTrue result ↔ HasEnd self.now.places }
    {
        for run in &self.runs {
            if run.lines.is_over() {
                return true;
            }
        }
        false
    }
}
