//! The chains of all lanes together, as the lanes tell them.

ghost use Rattle.std.specs.Prelude.{◌≡◌, ℕ, ◌+◌, ◌<◌, ◌≤◌, ◌^◌, ◌↔◌, ◌++◌, IsTrue, IfOk, OnOk, length, fold, filter, map as map_list, slice_index_or};
ghost use Rattle.std.specs.List.{sum_by};
ghost use Rattle.fc_base.specs.Counts.{UsedAt};
ghost use Rattle.fc_base.specs.Pools.{least_of_kind};
ghost use Rattle.fc_base.specs.Room.{used_in as grains_used};
ghost use Rattle.fc_base.specs.Sheet.{shape_of};
ghost use Rattle.fc_base.specs.SheetStep.{triggered};
ghost use Rattle.fc_base.specs.SheetView.{count_true, held_of, needed_of, AreMappings, ReadsMapping, DependsOn, LoopAnswer};
ghost use Rattle.fc_base.specs.declared.volume.Mapping.{Mapping};
ghost use Rattle.fc_changed.specs.Row.{restart_in};
ghost use Rattle.fc_chain.specs.Chains.{IsThere};
ghost use Rattle.fc_grains.specs.Volumes.{rooms_of};
ghost use Rattle.fc_lane.specs.Lane.{LaneView};
ghost use Rattle.fc_sums.specs.Parts.{has_name, common, common_to, unneeded_in};
ghost use Rattle.fc_lane_sheet.specs.LaneSheet.{sheet_of, pools_of, restart_of, all_rooms, HaveSheet, direct_of, readers_in, is_owner_among, AreListed, has_map, with_map, AddsReaders, Reached, view_of, IsAsked};

use crate::kept::kept_in;
use fc_base::disk::DiskKind;
use fc_base::ids::{MapId, SlotId, VolId};
use fc_base::list::List;
use fc_base::outcome::NoMemory;
use fc_base::ranges::Ranges;
use fc_base::request::Pair;
use fc_base::sheet::Sheet;
use fc_base::volume::Mapping;
use fc_lane::lane::Lane;
use fc_mdisk::mdisk::Mdisk;
use std::alloc::Global;
use std::marker::Model;

/// How many grains the lanes hold for the slot of a mapping.
fn sum_held<D: Mdisk>(lanes: &[Lane<D>], map: MapId) -> u32
    requires { sum_by (λ (v : LaneView). count_true (held_of v.chains.sheet.slots map.0)) lanes.now < 2 ^ 32 }
    ensures { result ≡ sum_by (λ (v : LaneView). count_true (held_of v.chains.sheet.slots map.0)) lanes.now }
{
    let mut held: u32 = 0;
    for lane in lanes {
        held += lane.counts(map).0;
    }
    held
}

/// At how many grains of the lanes the slot of a mapping is needed.
fn sum_needed<D: Mdisk>(lanes: &[Lane<D>], map: MapId) -> u32
    requires { sum_by (λ (v : LaneView). needed_of v.chains.sheet.slots map.0) lanes.now < 2 ^ 32 }
    ensures { result ≡ sum_by (λ (v : LaneView). needed_of v.chains.sheet.slots map.0) lanes.now }
{
    let mut needed: u32 = 0;
    for lane in lanes {
        needed += lane.counts(map).1;
    }
    needed
}

/// With how many grains of the lanes a mapping would begin again.
fn sum_restart<D: Mdisk>(lanes: &[Lane<D>], map: MapId) -> u32
    requires { sum_by (λ (v : LaneView). count_true (restart_in map.0 v.changes.rows)) lanes.now < 2 ^ 32 }
    ensures { result ≡ sum_by (λ (v : LaneView). count_true (restart_in map.0 v.changes.rows)) lanes.now }
{
    let mut grains: u32 = 0;
    for lane in lanes {
        grains += lane.restart(map);
    }
    grains
}

/// How many grains of a volume occupy memory in these lanes.
fn sum_room<D: Mdisk>(lanes: &[Lane<D>], volume: VolId) -> u64
    requires { length lanes.now ≤ 2 ^ 8 }
    ensures { result ≡ sum_by (λ (v : LaneView). grains_used (rooms_of v.grains.volumes) volume.0) lanes.now }
{
    let mut grains: u64 = 0;
    for lane in lanes {
        grains += lane.room(volume) as u64;
    }
    grains
}

/// How many grains the slot of a mapping holds; 0 where it has none.
pub(crate) fn held_in<D: Mdisk>(lanes: &[Lane<D>], map: MapId) -> u32
    requires { HaveSheet lanes.now }
    ensures { result ≡ count_true (held_of (sheet_of lanes.now).slots map.0) }
{
    sum_held(lanes, map)
}

/// At how many grains another slot needs the slot of a mapping; 0 where it has none.
pub(crate) fn needed_in<D: Mdisk>(lanes: &[Lane<D>], map: MapId) -> u32
    requires { HaveSheet lanes.now }
    ensures { result ≡ needed_of (sheet_of lanes.now).slots map.0 }
{
    sum_needed(lanes, map)
}

/// With how many grains a mapping would begin again: the size of its restart set.
pub(crate) fn restart_size<D: Mdisk>(lanes: &[Lane<D>], map: MapId) -> u32
    requires { HaveSheet lanes.now }
    ensures { result ≡ count_true (restart_of lanes.now map.0) }
{
    sum_restart(lanes, map)
}

/// A `u8` numbers the lanes, so there are few. Changes nothing: the last one is asked for what is known of it then.
fn few_lanes<D: Mdisk>(lanes: &[Lane<D>])
    requires { HaveSheet lanes.now }
    ensures { length lanes.now ≤ 2 ^ 8 }
{
    let _number = lanes[lanes.len() - 1].number();
}

/// How many grains of a volume occupy memory; 0 where it isn't there.
pub(crate) fn room_in<D: Mdisk>(lanes: &[Lane<D>], volume: VolId) -> u64
    requires { HaveSheet lanes.now }
    ensures { result ≡ grains_used (all_rooms lanes.now) volume.0 }
{
    few_lanes(lanes);
    sum_room(lanes, volume)
}

/// Whether a volume is used as a source.
pub(crate) fn used_in<D: Mdisk>(lanes: &[Lane<D>], volume: VolId) -> bool
    requires { HaveSheet lanes.now }
    ensures { IsTrue result ↔ UsedAt (sheet_of lanes.now).slots volume.0 }
{
    lanes[0].cascade().used(volume)
}

/// The loop of the restore graph after a trigger.
pub(crate) fn loop_in<D: Mdisk>(
    lanes: &[Lane<D>],
    alloc: Global,
    pairs: &[Pair],
) -> Result<Option<List<VolId>>, NoMemory>
    requires { HaveSheet lanes.now }
    ensures { IfOk result (λ found. LoopAnswer (shape_of (triggered pairs.now (sheet_of lanes.now)).slots) found) }
{
    lanes[0].cascade().loop_of(alloc, pairs)
}

/// The least number of disks of the kind that some lane has for new volumes.
pub(crate) fn pool_in<D: Mdisk>(lanes: &[Lane<D>], kind: DiskKind) -> u32
    ensures { result ≡ least_of_kind kind (pools_of lanes.now) }
{
    match lanes.split_first() {
        Some((first, rest)) => {
            let mut least = first.pool(kind);
            for lane in rest {
                least = least.min(lane.pool(kind));
            }
            least
        }
        None => 0,
    }
}

/// Whether a name is among these.
fn is_among(names: &[SlotId], name: SlotId) -> bool
    ensures { result ≡ has_name names.now name }
{
    for other in names {
        if other.0 == name.0 {
            return true;
        }
    }
    false
}

/// The names of the one list that the other has too.
fn common_names(
    alloc: Global,
    names: &[SlotId],
    others: &[SlotId],
) -> Result<List<SlotId>, NoMemory>
    ensures { IfOk result (λ both. both ≡ common names.now others.now) }
{
    let mut both = List::new(alloc);
    for name in names {
        if is_among(others, *name) {
            both.push(*name)?;
        }
    }
    Ok(both)
}

/// The old slots of a lane that no slot needs at any of its grains.
fn unneeded_names<D: Mdisk>(lane: &Lane<D>, alloc: Global) -> Result<List<SlotId>, NoMemory>
    ensures { IfOk result (λ names. names ≡ unneeded_in lane.now.chains.sheet.slots) }
{
    let mut names = List::new(alloc);
    match lane.cascade().unneeded(&mut names) {
        Ok(()) => Ok(names),
        Err(NoMemory) => Err(NoMemory),
    }
}

/// The names of old slots without a need that all lanes have in common.
fn unneeded_by<D: Mdisk>(lanes: &[Lane<D>], alloc: Global) -> Result<List<SlotId>, NoMemory>
    ensures { IfOk result (λ names. names ≡ common_to (map_list (λ (v : LaneView). unneeded_in v.chains.sheet.slots) lanes.now)) }
{
    match lanes.split_first() {
        Some((first, rest)) => {
            let names = unneeded_names(first, alloc)?;
            common_to_all(alloc, names, rest)
        }
        None => Ok(List::new(alloc)),
    }
}

/// The old slots that no slot needs at any grain, in order of their places.
pub(crate) fn unneeded_slots<D: Mdisk>(
    lanes: &[Lane<D>],
    alloc: Global,
) -> Result<List<SlotId>, NoMemory>
    requires { HaveSheet lanes.now }
    ensures { IfOk result (λ names. names ≡ unneeded_in (sheet_of lanes.now).slots) }
{
    unneeded_by(lanes, alloc)
}

/// Those of the names that stand for unneeded slots in each of these lanes.
fn common_to_all<D: Mdisk>(
    alloc: Global,
    first: List<SlotId>,
    lanes: &[Lane<D>],
) -> Result<List<SlotId>, NoMemory>
    ensures { IfOk result (λ names. names ≡ fold common first (map_list (λ (v : LaneView). unneeded_in v.chains.sheet.slots) lanes.now)) }
{
    let mut names = first;
    for lane in lanes {
        let others = unneeded_names(lane, alloc)?;
        names = common_names(alloc, names.as_slice(), others.as_slice())?;
    }
    Ok(names)
}

/// Adds the slots that have the slot with this name as holder at some grain of the lane.
fn add_readers<D: Mdisk>(
    lane: &Lane<D>,
    slot: SlotId,
    names: &mut List<SlotId>,
) -> Result<(), NoMemory>
    requires { IsThere lane.now.chains.sheet.slots slot }
    ensures { OnOk result (names.new ≡ names.old ++ direct_of slot lane.now.chains.sheet) }
{
    lane.cascade().direct(slot, names)
}

/// The slots that have the slot with this name as holder at some grain, lane by lane.
fn readers_of<D: Mdisk>(
    lanes: &[Lane<D>],
    alloc: Global,
    slot: SlotId,
) -> Result<List<SlotId>, NoMemory>
    requires { (i : ℕ) (d : LaneView) → i < length lanes.now → IsThere (slice_index_or lanes.now i d).chains.sheet.slots slot }
    ensures { IfOk result (λ names. names ≡ readers_in lanes.now slot) }
{
    let mut names = List::new(alloc);
    for lane in lanes {
        add_readers(lane, slot, &mut names)?;
    }
    Ok(names)
}

/// Whether the slot of a mapping is among these.
fn owns_one<D: Mdisk>(lane: &Lane<D>, names: &[SlotId], map: MapId) -> bool
    ensures { result ≡ is_owner_among names.now lane.now.chains.sheet map.0 }
{
    match lane.cascade().slot(map) {
        Some(slot) => is_among(names, slot),
        None => false,
    }
}

/// The mappings whose slots are among these, by id.
fn owners<D: Mdisk>(
    lane: &Lane<D>,
    mappings: &[Mapping],
    alloc: Global,
    names: &[SlotId],
) -> Result<List<MapId>, NoMemory>
    ensures { IfOk result (λ maps. maps ≡ map_list (λ (m : Mapping). m.id) (filter (λ (m : Mapping). is_owner_among names.now lane.now.chains.sheet m.id.0) mappings.now)) }
{
    let mut maps = List::new(alloc);
    for mapping in mappings {
        if owns_one(lane, names, mapping.id) {
            maps.push(mapping.id)?;
        }
    }
    Ok(maps)
}

/// The mappings, by id, whose live slots have the mapping's slot as holder at some grain.
pub(crate) fn direct_in<D: Mdisk>(
    lanes: &[Lane<D>],
    mappings: &[Mapping],
    alloc: Global,
    map: MapId,
) -> Result<List<MapId>, NoMemory>
    requires have { HaveSheet lanes.now }
    requires listed { AreListed (sheet_of lanes.now) mappings.now }
    ensures { IfOk result (λ maps. AreMappings (ReadsMapping (sheet_of lanes.now).slots map.0) maps) }
{
    match lanes[0].cascade().slot(map) {
        Some(slot) => match readers_of(lanes, alloc, slot) {
            Ok(names) => owners(&lanes[0], mappings, alloc, names.as_slice()),
            Err(NoMemory) => Err(NoMemory),
        },
        None => Ok(List::new(alloc)),
    }
}

/// Whether a mapping is among these.
fn is_map_among(maps: &[MapId], map: MapId) -> bool
    ensures { result ≡ has_map maps.now map }
{
    for other in maps {
        if map.0 == other.0 {
            return true;
        }
    }
    false
}

/// Adds a mapping, unless it is that one or there.
fn add_map(reached: &mut List<MapId>, but: MapId, map: MapId) -> Result<(), NoMemory>
    ensures { OnOk result (reached.new ≡ with_map but reached.old map) }
{
    if map.0 == but.0 || is_map_among(reached.as_slice(), map) {
        return Ok(());
    }
    reached.push(map)
}

/// Adds those of the mappings that aren't that one or there.
fn add_maps(reached: &mut List<MapId>, but: MapId, maps: &[MapId]) -> Result<(), NoMemory>
    ensures { OnOk result (reached.new ≡ fold (with_map but) reached.old maps.now) }
{
    for map in maps {
        add_map(reached, but, *map)?;
    }
    Ok(())
}

/// Adds the mappings that read from a mapping's slot, but for one.
fn add_more<D: Mdisk>(
    lanes: &[Lane<D>],
    mappings: &[Mapping],
    alloc: Global,
    but: MapId,
    from: MapId,
    reached: &mut List<MapId>,
) -> Result<(), NoMemory>
    requires have { HaveSheet lanes.now }
    requires listed { AreListed (sheet_of lanes.now) mappings.now }
    ensures { OnOk result (AddsReaders (sheet_of lanes.now) but from.0 reached.old reached.new) }
{
    match direct_in(lanes, mappings, alloc, from) {
        Ok(more) => add_maps(reached, but, more.as_slice()),
        Err(NoMemory) => Err(NoMemory),
    }
}

/// The mapping at a place.
fn map_at(maps: &[MapId], place: usize) -> MapId
    requires { place < length maps.now }
    ensures { slice_index_or maps.now place result ≡ result }
{
    maps[place]
}

/// Asks the mapping at a place of those reached, if there is one, who reads from it.
fn ask_one<D: Mdisk>(
    lanes: &[Lane<D>],
    mappings: &[Mapping],
    alloc: Global,
    map: MapId,
    turn: usize,
    reached: &mut List<MapId>,
) -> Result<(), NoMemory>
    requires have { HaveSheet lanes.now }
    requires listed { AreListed (sheet_of lanes.now) mappings.now }
    requires reached { Reached (sheet_of lanes.now) map turn reached.old }
    ensures { OnOk result (Reached (sheet_of lanes.now) map (turn + 1) reached.new) }
{
    if turn >= reached.len() {
        return Ok(());
    }
    let from = map_at(reached.as_slice(), turn);
    add_more(lanes, mappings, alloc, map, from, reached)
}

/// The mappings whose slots are dependents of a mapping's slot, in the order in which they are found.
fn reached_from<D: Mdisk>(
    lanes: &[Lane<D>],
    mappings: &[Mapping],
    alloc: Global,
    map: MapId,
) -> Result<List<MapId>, NoMemory>
    requires have { HaveSheet lanes.now }
    requires listed { AreListed (sheet_of lanes.now) mappings.now }
    ensures { IfOk result (λ reached. Reached (sheet_of lanes.now) map (length mappings.now) reached) }
{
    let mut reached = List::new(alloc);
    add_more(lanes, mappings, alloc, map, map, &mut reached)?;
    for turn in 0..mappings.len() {
        ask_one(lanes, mappings, alloc, map, turn, &mut reached)?;
    }
    Ok(reached)
}

/// The ids of the mappings that are among these.
fn listed_among(
    mappings: &[Mapping],
    alloc: Global,
    among: &[MapId],
) -> Result<List<MapId>, NoMemory>
    ensures { IfOk result (λ maps. maps ≡ map_list (λ (m : Mapping). m.id) (filter (λ (m : Mapping). has_map among.now m.id) mappings.now)) }
{
    let mut maps = List::new(alloc);
    for mapping in mappings {
        if is_map_among(among, mapping.id) {
            maps.push(mapping.id)?;
        }
    }
    Ok(maps)
}

/// The mappings, by id, whose slots are dependents of the mapping's slot.
pub(crate) fn dependents_in<D: Mdisk>(
    lanes: &[Lane<D>],
    mappings: &[Mapping],
    alloc: Global,
    map: MapId,
) -> Result<List<MapId>, NoMemory>
    requires have { HaveSheet lanes.now }
    requires listed { AreListed (sheet_of lanes.now) mappings.now }
    ensures { IfOk result (λ maps. AreMappings (DependsOn (sheet_of lanes.now).slots map.0) maps) }
{
    match reached_from(lanes, mappings, alloc, map) {
        Ok(reached) => listed_among(mappings, alloc, reached.as_slice()),
        Err(NoMemory) => Err(NoMemory),
    }
}

/// The chains of all lanes together, as decisions on commands ask for them, beside the table of mappings.
#[derive(Drop)]
pub struct LaneSheet<'a, D: Mdisk> {
    lanes: &'a [Lane<D>],
    mappings: &'a [Mapping],
}

impl<'a, D: Mdisk> Model for LaneSheet<'a, D> {
    ghost use Rattle.std.specs.Prelude.{List};
    ghost use Rattle.fc_lane.specs.Lane.{LaneView};
    ghost use Rattle.fc_lane_sheet.specs.LaneSheet.{IsAsked};

    ghost Value = { List LaneView };

    ghost view = { λ s. s.lanes.now };

    ghost invariant = { λ s. IsAsked s.lanes.now s.mappings.now };
}

impl<'a, D: Mdisk> LaneSheet<'a, D> {
    /// These lanes, with the table of mappings.
    pub fn new(lanes: &'a [Lane<D>], mappings: &'a [Mapping]) -> Self
        requires { IsAsked lanes.now mappings.now }
        ensures { result ≡ lanes.now }
    {
        LaneSheet { lanes, mappings }
    }
}

impl<'a, D: Mdisk> Sheet for LaneSheet<'a, D> {
    ghost meaning = { view_of };

    fn held(&self, map: MapId) -> u32 {
        held_in(self.lanes, map)
    }

    fn kept(&self, alloc: Global, map: MapId) -> Result<Ranges, NoMemory> {
        kept_in(self.lanes, alloc, map)
    }

    fn direct(&self, alloc: Global, map: MapId) -> Result<List<MapId>, NoMemory> {
        direct_in(self.lanes, self.mappings, alloc, map)
    }

    fn needed(&self, map: MapId) -> u32 {
        needed_in(self.lanes, map)
    }

    fn used(&self, volume: VolId) -> bool {
        used_in(self.lanes, volume)
    }

    fn loop_of(&self, alloc: Global, pairs: &[Pair]) -> Result<Option<List<VolId>>, NoMemory> {
        loop_in(self.lanes, alloc, pairs)
    }

    fn dependents(&self, alloc: Global, map: MapId) -> Result<List<MapId>, NoMemory> {
        dependents_in(self.lanes, self.mappings, alloc, map)
    }

    fn unneeded(&self, alloc: Global) -> Result<List<SlotId>, NoMemory> {
        unneeded_slots(self.lanes, alloc)
    }

    fn pool(&self, kind: DiskKind) -> u32 {
        pool_in(self.lanes, kind)
    }

    fn restart(&self, map: MapId) -> u32 {
        restart_size(self.lanes, map)
    }

    fn room(&self, volume: VolId) -> u64 {
        room_in(self.lanes, volume)
    }
}
