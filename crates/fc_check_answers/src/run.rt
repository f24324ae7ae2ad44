//! One run of a session, and one entry.

ghost use Rattle.std.specs.Prelude.{◌≡◌, ◌↔◌, ◌+◌, ℕ, map, IfOk, IsTrue, OnOk};
ghost use Rattle.fc_base.specs.declared.size.GrainSize.{GrainSize};
ghost use Rattle.fc_check_answers.specs.Runs.{AreRunsAt, Came, GoesOn, IsWayAt, OneGives, WayLeadsOn, place_at};
ghost use Rattle.fc_check_answers.specs.Small.{AreSmall, IsSmallWay};
ghost use Rattle.fc_check_follow.specs.Following.{AreCandidates, IsOpen};
ghost use Rattle.fc_check_lines.specs.Asked.{IsAskedBy};

use crate::telling::Telling;
use fc_base::outcome::NoMemory;
use fc_base::request::Request;
use fc_check_follow::way::follow_way;
use fc_check_lane::push_item;
use fc_check_lines::lines::Lines;
use fc_check_record::Record;
use fc_entry::entry::Entry;
use std::alloc::Global;

/// A run of the session of which the entries so far are the first.
#[derive(Drop)]
pub(crate) struct Run<'a> {
    /// The way in which things were told.
    pub(crate) way: Record,
    /// The lines that are left.
    pub(crate) lines: Lines<'a>,
}

/// The run goes on this way behind an entry.
fn go_on<'a>(
    alloc: Global,
    way: Record,
    lines: Lines<'a>,
    name: &[u8],
    entry: &Entry,
    after: &mut Vec<Run<'a>>,
) -> Result<(), NoMemory>
    requires { IsSmallWay way }
    ensures places { OnOk result (Came (WayLeadsOn lines.entry name.now entry.now way)
        (map place_at after.old.items) (map place_at after.new.items)) }
    ensures runs { OnOk result ((grain : GrainSize) (entries : ℕ) → IsWayAt grain entries way
        → AreRunsAt grain entries after.old.items → AreRunsAt grain entries after.new.items) }
{
    let lines = lines.follow(alloc, &Telling { way: &way }, name, entry)?;
    push_item(after, Run { way, lines })
}

/// The run goes on these ways behind an entry. Its lines are copied for all ways but the last.
fn go_on_ways<'a>(
    alloc: Global,
    mut ways: Vec<Record>,
    lines: Lines<'a>,
    name: &[u8],
    entry: &Entry,
    after: &mut Vec<Run<'a>>,
) -> Result<(), NoMemory>
    requires { AreSmall ways.items }
    ensures places { OnOk result (Came (OneGives (WayLeadsOn lines.entry name.now entry.now) ways.items)
        (map place_at after.old.items) (map place_at after.new.items)) }
    ensures runs { OnOk result ((grain : GrainSize) (entries : ℕ) → AreCandidates grain entries ways.items
        → AreRunsAt grain entries after.old.items → AreRunsAt grain entries after.new.items) }
{
    let Some(last) = ways.pop() else {
        return Ok(());
    };
    while let Some(way) = ways.pop() {
        go_on(alloc, way, lines.copy(alloc)?, name, entry, after)?;
    }
    go_on(alloc, last, lines, name, entry, after)
}

impl<'a> Run<'a> {
    /// Whether the actor with this name may ask this next.
    fn asks(&self, name: &[u8], request: &Request) -> Result<bool, NoMemory>
        requires { IsSmallWay self.now.way }
        ensures { IfOk result (λ yes. IsTrue yes
            ↔ IsAskedBy self.now.way.grain self.now.lines.agenda (place_at self.now).told name.now request.now) }
    {
        self.lines.asks(&Telling { way: &self.way }, name, request)
    }

    /// Goes on behind an entry of the actor with this name: to the runs after it come just those that it leads to.
    pub(crate) fn follow(
        self,
        alloc: Global,
        name: &[u8],
        entry: &Entry,
        after: &mut Vec<Run<'a>>,
    ) -> Result<(), NoMemory>
        requires way { IsOpen self.way.whole }
        requires number { entry.now.number ≡ self.way.whole.entries }
        ensures places { OnOk result (Came (GoesOn self.entry.way.grain name.now entry.now (place_at self.entry))
            (map place_at after.old.items) (map place_at after.new.items)) }
        ensures runs { OnOk result (AreRunsAt self.entry.way.grain (entry.now.number + 1) after.old.items
            → AreRunsAt self.entry.way.grain (entry.now.number + 1) after.new.items) }
    {
        let asked = self.asks(name, &entry.request)?;
        if !asked {
            return Ok(());
        }
        let Run { way, lines } = self;
        let mut ways = Vec::new(alloc);
        follow_way(alloc, way, entry, &mut ways)?;
        go_on_ways(alloc, ways, lines, name, entry, after)
    }
}
