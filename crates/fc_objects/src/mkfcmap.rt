//! Decisions on `mkfcmap`.

ghost use Rattle.std.specs.Prelude.{◌≡◌, ◌<◌, ◌≤◌, ◌==◌, IfOk, IsNone, All, None, unwrap_or, count_by, find, option_map, option_copied};
ghost use Rattle.fc_base.specs.declared.command.Command.{Command};
ghost use Rattle.fc_books.specs.Deciding.{decide, with_work};
ghost use Rattle.fc_books.specs.Making.{make_mapping, new_mapping, group_asked};
ghost use Rattle.fc_books.specs.Refused.{grain_differs, is_over, is_pair};
ghost use Rattle.fc_objects.specs.Answering.{answered_by};
ghost use Rattle.fc_desk.specs.Control.{books_of};
ghost use Rattle.fc_objects.specs.Mappings.{ends_refused, rates_refused, room_refused, asked_refused, full_group, busy_group, pair_refused, mapping_with_name};
ghost use Rattle.fc_desk.specs.Refusing.{or_else};

use fc_base::decision::Decision;
use fc_base::fault::{Kind, Refusal, ValueOf};
use fc_base::ids::{GroupId, MapId};
use fc_base::name::{Name, Ref};
use fc_base::outcome::NoMemory;
use fc_base::request::Reply;
use fc_base::sheet::Sheet;
use fc_base::size::GrainSize;
use fc_base::state::MapState;
use fc_base::volume::{Change, Mapping, Volume};
use fc_desk::{Control, Draft, count_members, has_active, name_or};
use fc_group::group_state;
use fc_pick::WorkFlags;
use std::alloc::Global;

/// The options of a new mapping that are numbers or choices.
#[derive(Clone, Copy)]
pub struct MappingOptions {
    /// The rate of background copying, 50 where none is given.
    pub copy_rate: Option<u32>,
    /// The rate of cleaning, 50 where none is given.
    pub clean_rate: Option<u32>,
    /// The grain size that is asked for.
    pub grain_size: Option<GrainSize>,
    /// Whether a restart copies changed grains alone.
    pub incremental: bool,
    /// Whether it is removed when its copy is complete.
    pub autodelete: bool,
}

/// What is decided of a `mkfcmap`: the first of its refusals, else the mapping is made.
pub fn decide_mkfcmap<S: Sheet>(
    alloc: Global,
    control: &Control,
    sheet: &S,
    source: &Ref,
    target: &Ref,
    name: &Option<Name>,
    group: &Option<Ref>,
    options: MappingOptions,
) -> Result<Decision, NoMemory>
    requires given { All (λ (row : WorkFlags). row.map.0 < control.now.next_mapping) control.now.flags }
    ensures { IfOk result (λ decision. decision ≡ decide (S.meaning sheet.now).restarts control.now.grain (books_of control.now (S.meaning sheet.now)) (Command.Mkfcmap source.now target.now name.now group.now options.copy_rate options.clean_rate options.grain_size options.incremental options.autodelete) None) }
{
    match control.registry().volume(source) {
        None => control.refuse(alloc, sheet, Refusal::NoSuch(Kind::Vdisk)),
        Some(from) => match control.registry().volume(target) {
            None => control.refuse(alloc, sheet, Refusal::NoSuch(Kind::Vdisk)),
            Some(to) => {
                let decision = decide_pair(alloc, control, sheet, from, to, name, group, options)?;
                Ok(decision)
            }
        },
    }
}

/// What is decided of a new mapping between two volumes that are there.
fn decide_pair<S: Sheet>(
    alloc: Global,
    control: &Control,
    sheet: &S,
    source: &Volume,
    target: &Volume,
    name: &Option<Name>,
    group: &Option<Ref>,
    options: MappingOptions,
) -> Result<Decision, NoMemory>
    requires given { All (λ (row : WorkFlags). row.map.0 < control.now.next_mapping) control.now.flags }
    ensures { IfOk result (λ decision. decision ≡ answered_by (S.meaning sheet.now).restarts (books_of control.now (S.meaning sheet.now)) (pair_refused control.now.grain (books_of control.now (S.meaning sheet.now)) source.now target.now name.now group.now options.copy_rate options.clean_rate options.grain_size) (Reply.Made Kind.Fcmap control.now.next_mapping) (make_mapping (new_mapping (books_of control.now (S.meaning sheet.now)) source.now target.now name.now group.now options.copy_rate options.clean_rate options.incremental options.autodelete))) }
{
    let name = name_or(alloc, name, b"fcmap", control.next_mapping())?;
    match pair_refusal(control, source, target, &name, group, options) {
        Some(refusal) => {
            let decision = control.refuse(alloc, sheet, refusal)?;
            Ok(decision)
        }
        None => {
            let decision = make_mapping(
                alloc, control, sheet, source, target, name, group, options,
            )?;
            Ok(decision)
        }
    }
}

/// Why a mapping between two volumes isn't made, if it is refused.
fn pair_refusal(
    control: &Control,
    source: &Volume,
    target: &Volume,
    name: &Name,
    group: &Option<Ref>,
    options: MappingOptions,
) -> Option<Refusal>
    ensures refused { result ≡ or_else (ends_refused control.now.grain control.now.tables.mappings source.now target.now options.grain_size) (or_else (rates_refused control.now.tables group.now options.copy_rate options.clean_rate) (room_refused control.now.tables source.now (group_asked control.now.tables group.now) name.now)) }
    ensures rates { IsNone result → (unwrap_or options.copy_rate 50 ≤ 150) × (unwrap_or options.clean_rate 50 ≤ 150) }
{
    match ends_refusal(control, source, target, options.grain_size) {
        Some(refusal) => Some(refusal),
        None => match rates_refusal(control, group, options.copy_rate, options.clean_rate) {
            Some(refusal) => Some(refusal),
            None => room_refusal(control, source, asked_group(control, group), name),
        },
    }
}

/// SameVolume, SizeDiffers, GrainDiffers or PairTaken.
fn ends_refusal(
    control: &Control,
    source: &Volume,
    target: &Volume,
    grain_size: Option<GrainSize>,
) -> Option<Refusal>
    ensures { result ≡ ends_refused control.now.grain control.now.tables.mappings source.now target.now grain_size }
{
    if source.id.0 == target.id.0 {
        return Some(Refusal::SameVolume);
    }
    if source.grains != target.grains {
        return Some(Refusal::SizeDiffers {
            source: source.grains,
            target: target.grains,
        });
    }
    match grain_refusal(control.grain(), grain_size) {
        Some(refusal) => Some(refusal),
        None => pair_taken(control.registry().all_mappings(), source, target),
    }
}

/// NoSuch for the group, BadValue for a rate, or Limit for 512 mappings.
fn rates_refusal(
    control: &Control,
    group: &Option<Ref>,
    copy_rate: Option<u32>,
    clean_rate: Option<u32>,
) -> Option<Refusal>
    ensures refused { result ≡ rates_refused control.now.tables group.now copy_rate clean_rate }
    ensures rates { IsNone result → (unwrap_or copy_rate 50 ≤ 150) × (unwrap_or clean_rate 50 ≤ 150) }
{
    match asked_refusal(control, group) {
        Some(refusal) => Some(refusal),
        None => {
            if is_over(150, copy_rate) {
                Some(Refusal::BadValue(ValueOf::CopyRate))
            } else if is_over(150, clean_rate) {
                Some(Refusal::BadValue(ValueOf::CleanRate))
            } else if control.registry().mappings() >= 512 {
                Some(Refusal::Limit(512))
            } else {
                None
            }
        }
    }
}

/// NoSuch for a group that is asked for and isn't there.
fn asked_refusal(control: &Control, group: &Option<Ref>) -> Option<Refusal>
    ensures { result ≡ asked_refused control.now.tables group.now }
{
    match group {
        None => None,
        Some(reference) => match control.registry().group(reference) {
            None => Some(Refusal::NoSuch(Kind::Group)),
            Some(_) => None,
        },
    }
}

/// The group that a new mapping is in.
fn asked_group(control: &Control, group: &Option<Ref>) -> Option<GroupId>
    ensures { result ≡ group_asked control.now.tables group.now }
{
    match group {
        None => None,
        Some(reference) => match control.registry().group(reference) {
            None => None,
            Some(found) => Some(found.id),
        },
    }
}

/// Limit for 256 mappings with the source or 64 in the group, NotAllowed for a busy group, or NameTaken.
fn room_refusal(
    control: &Control,
    source: &Volume,
    group: Option<GroupId>,
    name: &Name,
) -> Option<Refusal>
    ensures { result ≡ room_refused control.now.tables source.now group name.now }
{
    if count_copies(control.registry().all_mappings(), source) >= 256 {
        return Some(Refusal::Limit(256));
    }
    match full_group(control, group) {
        Some(refusal) => Some(refusal),
        None => match busy_group(control, group) {
            Some(refusal) => Some(refusal),
            None => match control.registry().check_name(Kind::Fcmap, name) {
                Err(refusal) => Some(refusal),
                Ok(()) => None,
            },
        },
    }
}

/// Limit for 64 mappings in the group.
fn full_group(control: &Control, group: Option<GroupId>) -> Option<Refusal>
    ensures { result ≡ full_group control.now.tables group }
{
    match group {
        Some(group) if count_members(control.registry().all_mappings(), group) >= 64 => {
            Some(Refusal::Limit(64))
        }
        _ => None,
    }
}

/// NotAllowed for a group with an active member.
fn busy_group(control: &Control, group: Option<GroupId>) -> Option<Refusal>
    ensures { result ≡ busy_group control.now.tables group }
{
    match group {
        Some(group) if has_active(control.registry().all_mappings(), group) => {
            Some(Refusal::NotAllowed(group_state(control.registry(), group)))
        }
        _ => None,
    }
}

/// A mapping is made.
fn make_mapping<S: Sheet>(
    alloc: Global,
    control: &Control,
    sheet: &S,
    source: &Volume,
    target: &Volume,
    name: Name,
    group: &Option<Ref>,
    options: MappingOptions,
) -> Result<Decision, NoMemory>
    requires given { All (λ (row : WorkFlags). row.map.0 < control.now.next_mapping) control.now.flags }
    requires copy_rate { unwrap_or options.copy_rate 50 ≤ 150 }
    requires clean_rate { unwrap_or options.clean_rate 50 ≤ 150 }
    ensures { IfOk result (λ decision. decision ≡ with_work (S.meaning sheet.now).restarts (books_of control.now (S.meaning sheet.now)) (Reply.Made Kind.Fcmap control.now.next_mapping) (make_mapping (mapping_with_name control.now.tables control.now.next_mapping source.now target.now name group.now options.copy_rate options.clean_rate options.incremental options.autodelete))) }
{
    let id = control.next_mapping();
    let draft = draft_mapping(alloc, control, source, target, name, group, options)?;
    let reply = Reply::Made {
        kind: Kind::Fcmap,
        id,
    };
    let decision = control.conclude(sheet, draft, reply)?;
    Ok(decision)
}

/// What making a mapping does.
fn draft_mapping(
    alloc: Global,
    control: &Control,
    source: &Volume,
    target: &Volume,
    name: Name,
    group: &Option<Ref>,
    options: MappingOptions,
) -> Result<Draft, NoMemory>
    requires copy_rate { unwrap_or options.copy_rate 50 ≤ 150 }
    requires clean_rate { unwrap_or options.clean_rate 50 ≤ 150 }
    ensures { IfOk result (λ draft. draft ≡ make_mapping (mapping_with_name control.now.tables control.now.next_mapping source.now target.now name group.now options.copy_rate options.clean_rate options.incremental options.autodelete)) }
{
    let mut draft = Draft::new(alloc);
    draft.change(Change::AddMapping(Mapping {
        id: MapId(control.next_mapping()),
        name,
        source: source.id,
        target: target.id,
        group: asked_group(control, group),
        state: MapState::IdleOrCopied,
        copy_rate: options.copy_rate.unwrap_or(50) as u8,
        clean_rate: options.clean_rate.unwrap_or(50) as u8,
        incremental: options.incremental,
        autodelete: options.autodelete,
        restoring: false,
        held_at_leave: 0,
        complete: false,
    }))?;
    Ok(draft)
}

/// GrainDiffers where another grain size than the run's is asked for.
fn grain_refusal(run: GrainSize, asked: Option<GrainSize>) -> Option<Refusal>
    ensures { result ≡ grain_differs run asked }
{
    match (asked, run) {
        (Some(GrainSize::K64), GrainSize::K256) | (Some(GrainSize::K256), GrainSize::K64) => {
            asked.map(|asked| Refusal::GrainDiffers { asked, run })
        }
        _ => None,
    }
}

/// PairTaken by the mapping from this source to this target.
fn pair_taken(mappings: &[Mapping], source: &Volume, target: &Volume) -> Option<Refusal>
    ensures { result ≡ option_map (λ (m : Mapping). Refusal.PairTaken m.id) (find (is_pair source.now target.now) mappings.now) }
{
    match find_pair(mappings, source, target) {
        Some(mapping) => Some(Refusal::PairTaken(mapping.id)),
        None => None,
    }
}

/// The mapping from this source to this target.
fn find_pair<'a>(mappings: &'a [Mapping], source: &Volume, target: &Volume) -> Option<&'a Mapping>
    ensures { option_copied result ≡ find (is_pair source.now target.now) mappings.now }
{
    mappings
        .iter()
        .find(|mapping| is_pair(mapping, source, target))
}

/// Whether the mapping is from this source to this target.
fn is_pair(mapping: &Mapping, source: &Volume, target: &Volume) -> bool
    ensures { result ≡ is_pair source.now target.now mapping.now }
{
    mapping.source.0 == source.id.0 && mapping.target.0 == target.id.0
}

/// Whether a rate is given and above the most.
fn is_over(most: u32, rate: Option<u32>) -> bool
    ensures { result ≡ is_over most rate }
{
    match rate {
        Some(rate) => most < rate,
        None => false,
    }
}

/// How many mappings have the volume as source.
fn count_copies(mappings: &[Mapping], source: &Volume) -> usize
    ensures { result ≡ count_by (λ (m : Mapping). m.source.0 == source.now.id.0) mappings.now }
{
    let mut count: usize = 0;
    for mapping in mappings {
        if mapping.source.0 == source.id.0 {
            count += 1;
        }
    }
    count
}
