//! Which grain a worker's turn takes, and which one a mapping's background work comes to next.

ghost use Rattle.std.specs.Prelude.{◌≡◌, ℕ, ◌+◌, ◌*◌, ◌^◌, ◌<◌, cond, length};
ghost use Rattle.fc_base.specs.declared.size.GrainSize.{GrainSize};
ghost use Rattle.fc_base.specs.Sheet.{mapping_place};
ghost use Rattle.fc_legal.specs.Seconds.{Work as MappingWork, next_grain};
ghost use Rattle.fc_legal.specs.Whole.{Whole};
ghost use Rattle.fc_rules.specs.LaneTold.{grains_in, number_at};
ghost use Rattle.fc_rules.specs.LaneTurn.{copied_slot, cleaned_slot, grains_of};
ghost use Rattle.fc_check_lane.specs.Known.{known_of};
ghost use Rattle.fc_check_lane.specs.Turns.{HasFewGrains, has_work, filled_in, least_of, least_in, next_in};
ghost use Rattle.fc_check_lane.specs.declared.turn.Work.TheVariants.{Copying, Cleaning};

use crate::known::Known;
use fc_base::ids::{GrainNo, MapId};
use fc_pick::WorkFlags;

/// What is done in the background.
#[derive(Clone, Copy)]
pub enum Work {
    /// A mapping's slot gets a grain that it lacks.
    Copying,
    /// A grain that others need of a mapping's slot is handed on.
    Cleaning,
}

impl Work {
    /// Cleaning, or copying.
    fn new(cleans: bool) -> Work
        ensures { result ≡ cond cleans Cleaning Copying }
    {
        if cleans {
            Work::Cleaning
        } else {
            Work::Copying
        }
    }

    /// Whether a mapping has such work.
    fn is_of(self, row: WorkFlags) -> bool
        ensures { result ≡ has_work self row }
    {
        match self {
            Work::Copying => row.copies,
            Work::Cleaning => row.cleans,
        }
    }
}

impl Known {
    /// The slot that a copy of a mapping fills at a grain: its live slot, where that lacks the grain.
    fn copied(&self, map: MapId, number: usize) -> Option<usize>
        ensures { result ≡ copied_slot self.now.sheet.slots map.0 number }
    {
        let sheet = self.chains();
        match sheet.mapping_place(map) {
            Some(place)
                if sheet.is_live(place)
                    && number < sheet.grains(place)
                    && !sheet.holds(place, number) => { Some(place) }
            _ => None,
        }
    }

    /// The slot that a cleaning of a mapping fills at a grain: the needer of its slot.
    fn cleaned(&self, map: MapId, number: usize) -> Option<usize>
        ensures { result ≡ cleaned_slot self.now.sheet.slots map.0 number }
    {
        let sheet = self.chains();
        match sheet.mapping_place(map) {
            Some(place) => sheet.needer(place, number),
            None => None,
        }
    }

    /// The slot that such work of a mapping fills at a grain, and None exactly where it isn't possible.
    pub(crate) fn filled(&self, work: Work, map: MapId, number: usize) -> Option<usize>
        ensures { result ≡ filled_in work self.now map.0 number }
    {
        match work {
            Work::Copying => self.copied(map, number),
            Work::Cleaning => self.cleaned(map, number),
        }
    }

    /// How many grains a mapping's slot has; without a slot, none.
    fn grains_of_mapping(&self, map: MapId) -> usize
        ensures { result ≡ grains_of self.now.sheet.slots (mapping_place self.now.sheet.slots map.0) }
    {
        let sheet = self.chains();
        match sheet.mapping_place(map) {
            Some(place) => sheet.grains(place),
            None => 0,
        }
    }

    /// The least grain of one of so many lanes that such work of a mapping could fill.
    fn least_of(&self, work: Work, map: MapId, lane: usize, lanes: usize) -> Option<GrainNo>
        requires lane { lane < lanes }
        requires few { HasFewGrains self.now }
        ensures { result ≡ least_of work self.now (record { lane = lane; lanes = lanes; grain = self.now.grain }) map.0 }
    {
        let grains = grains_in_lane(self.grains_of_mapping(map), lane, lanes);
        for place in 0..grains {
            let number = number_in_lane(place, lane, lanes);
            match self.filled(work, map, number as usize) {
                Some(_) => return Some(GrainNo(number)),
                None => {}
            }
        }
        None
    }

    /// The least grain of a lane that such work of a mapping could fill.
    fn least_grain(&self, work: Work, map: MapId, lane: usize) -> Option<GrainNo>
        requires lane { lane < length self.now.faults }
        requires few { HasFewGrains self.now }
        ensures { result ≡ least_in work self.now lane map.0 }
    {
        self.least_of(work, map, lane, self.lanes())
    }

    /// The least grain of all lanes at which the copies of a mapping, or its cleanings, have something to do, and None exactly
    /// where they have nothing to do.
    pub fn next_grain(&self, map: MapId, cleans: bool) -> Option<GrainNo>
        requires { HasFewGrains self.now }
        ensures { (grain : GrainSize) (w : Whole) (work : MappingWork) → self.now ≡ known_of grain w → work.map ≡ map → work.cleans ≡ cleans → result ≡ next_grain grain w work }
    {
        self.least_of(Work::new(cleans), map, 0, 1)
    }

    /// The first mapping by id that has such work in a lane, and its least grain there.
    pub(crate) fn next_work(&self, work: Work, lane: usize) -> Option<(MapId, GrainNo)>
        requires lane { lane < length self.now.faults }
        requires few { HasFewGrains self.now }
        ensures { result ≡ next_in work self.now lane }
    {
        for row in self.work_flags() {
            if work.is_of(*row) {
                if let Some(grain) = self.least_grain(work, row.map, lane) {
                    return Some((row.map, grain));
                }
            }
        }
        None
    }
}

/// How many of so many grains a lane has.
fn grains_in_lane(grains: usize, lane: usize, lanes: usize) -> usize
    requires { lane < lanes }
    ensures { (grain : GrainSize) → result ≡ grains_in (record { lane = lane; lanes = lanes; grain = grain }) grains }
{
    if grains <= lane {
        return 0;
    }
    (grains - lane - 1) / lanes + 1
}

/// The number of the grain at a place of a lane.
fn number_in_lane(place: usize, lane: usize, lanes: usize) -> u32
    requires { place * lanes + lane < 2 ^ 32 }
    ensures { (grain : GrainSize) → result ≡ number_at (record { lane = lane; lanes = lanes; grain = grain }) place }
{
    (place * lanes + lane) as u32
}
