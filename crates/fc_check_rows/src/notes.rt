//! What entries and events tell of mappings that are followed.

ghost use Rattle.std.specs.Prelude.{◌≡◌, OnOk, Some, None, cond, fold, flat_map, map as map_list};
ghost use Rattle.fc_base.specs.Sheet.{volume_grains};
ghost use Rattle.fc_changed.specs.Row.{after_note};
ghost use Rattle.fc_follow.specs.Following.{beginning, leaving, rows_event, slot_leaves};
ghost use Rattle.fc_check_rows.specs.Marks.{rows_written, rows_torn};

use crate::rows::Rows;
use fc_base::decision::LaneEvent;
use fc_base::ids::MapId;
use fc_base::outcome::NoMemory;
use fc_base::request::{Pair, Side, Torn, WritePart};
use fc_base::size::GrainSize;
use fc_model::PlainSheet;
use fc_plain::grain_at;
use std::alloc::Global;

/// How many grains an incremental mapping has whose target is triggered; None of another one.
fn followed_grains(sheet: &PlainSheet, pair: &Pair) -> Option<usize>
    ensures { result ≡ cond pair.now.incremental (Some (volume_grains sheet.now.slots pair.now.target.0)) None }
{
    if pair.incremental {
        Some(sheet.volume_grains(pair.target))
    } else {
        None
    }
}

impl Rows {
    /// Notes a write of an entry that was done, if one was.
    pub fn follow_write(&mut self, size: GrainSize, write: Option<WritePart>)
        ensures { self.new ≡ rows_written size self.old write }
    {
        match write {
            Some(part) => self.wrote(part.volume, grain_at(size, part.block)),
            None => {}
        }
    }

    /// Notes a torn grain of an entry, if there is one: it spoiled what the volume shows, or only what it held
    /// before it became a target.
    pub fn follow_torn(&mut self, torn: Option<Torn>)
        ensures { self.new ≡ rows_torn self.old torn }
    {
        match torn {
            Some(torn) => match torn.side {
                Side::Now => self.wrote(torn.volume, u64::from(torn.grain.0)),
                Side::Under => {}
            },
            None => {}
        }
    }

    /// The slot at a place leaves its chain, if it is live.
    fn follow_leaving_at(&mut self, sheet: &PlainSheet, place: Option<usize>)
        ensures { self.new ≡ fold after_note self.old (slot_leaves sheet.now.slots place) }
    {
        match place {
            Some(place) => {
                if sheet.is_live(place) {
                    self.left(sheet.volume(place), sheet.held(place));
                }
            }
            None => {}
        }
    }

    /// The slot of a mapping leaves its chain, if it has one and it is live.
    fn follow_leaving(&mut self, sheet: &PlainSheet, map: MapId)
        ensures { self.new ≡ fold after_note self.old (leaving sheet.now.slots map) }
    {
        self.follow_leaving_at(sheet, sheet.mapping_place(map));
    }

    /// The slots of mappings leave their chains.
    fn follow_all_leaving(&mut self, sheet: &PlainSheet, maps: &[MapId])
        ensures { self.new ≡ fold after_note self.old (flat_map (leaving sheet.now.slots) maps.now) }
    {
        for map in maps {
            self.follow_leaving(sheet, *map);
        }
    }

    /// One pair of a trigger.
    fn follow_pair(
        &mut self,
        alloc: Global,
        sheet: &PlainSheet,
        pair: &Pair,
    ) -> Result<(), NoMemory>
        ensures { OnOk result (self.new ≡ after_note self.old (beginning sheet.now.slots pair.now)) }
    {
        let followed = followed_grains(sheet, pair);
        self.began(alloc, pair.map, pair.source, pair.target, followed)
    }

    /// All pairs of a trigger, in order.
    fn follow_pairs(
        &mut self,
        alloc: Global,
        sheet: &PlainSheet,
        pairs: &[Pair],
    ) -> Result<(), NoMemory>
        ensures { OnOk result (self.new ≡ fold after_note self.old (map_list (beginning sheet.now.slots) pairs.now)) }
    {
        for pair in pairs {
            self.follow_pair(alloc, sheet, pair)?;
        }
        Ok(())
    }

    /// Notes what an event of a command tells, which is still to be done to these chains. Refused for want of
    /// memory alone; then a part of it may be noted.
    pub fn follow_event(
        &mut self,
        alloc: Global,
        sheet: &PlainSheet,
        event: &LaneEvent,
    ) -> Result<(), NoMemory>
        ensures { OnOk result (self.new ≡ rows_event sheet.now.slots self.old event.now) }
    {
        match event {
            LaneEvent::Trigger { pairs } => self.follow_pairs(alloc, sheet, pairs.as_slice()),
            LaneEvent::Retire { map } | LaneEvent::Detach { map } | LaneEvent::Split { map } => {
                self.follow_leaving(sheet, *map);
                Ok(())
            }
            LaneEvent::Force { map, dependents } => {
                self.follow_leaving(sheet, *map);
                self.follow_all_leaving(sheet, dependents.as_slice());
                Ok(())
            }
            LaneEvent::Forget { map } => {
                self.forget(*map);
                Ok(())
            }
            LaneEvent::NoteCut { target, .. } => {
                self.cut(*target);
                Ok(())
            }
            _ => Ok(()),
        }
    }
}
