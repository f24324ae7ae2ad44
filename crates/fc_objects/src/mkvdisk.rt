//! Decisions on `mkvdisk`.

ghost use Rattle.std.specs.Prelude.{◌≡◌, ◌+◌, ◌/◌, ◌%◌, ◌^◌, ◌<◌, ◌≤◌, ◌||◌, ◌==◌, not, IfOk, None, length, IsSome, IsNone, Contains};
ghost use Rattle.fc_base.specs.Grain.{grain_bytes};
ghost use Rattle.fc_base.specs.Tables.{volume_with};
ghost use Rattle.fc_base.specs.declared.command.Command.{Command};
ghost use Rattle.fc_books.specs.Deciding.{with_work, decide};
ghost use Rattle.fc_books.specs.Making.{make_volume};
ghost use Rattle.fc_desk.specs.Control.{books_of};
ghost use Rattle.fc_objects.specs.Volumes.{volume_refused, size_refused};
ghost use Rattle.fc_entry.specs.Refused.{all_grains, lacks_disk, where_};
ghost use Rattle.fc_entry.specs.Volumes.{unit_bytes, kind_of};

use fc_base::command::Unit;
use fc_base::decision::{Decision, LaneEvent};
use fc_base::disk::DiskKind;
use fc_base::fault::{Kind, Refusal, ValueOf};
use fc_base::ids::VolId;
use fc_base::name::Name;
use fc_base::outcome::NoMemory;
use fc_base::request::{Effect, Reply};
use fc_base::sheet::Sheet;
use fc_base::size::GrainSize;
use fc_base::volume::{Change, Mapping, Volume};
use fc_desk::{Control, Draft, name_or};
use std::alloc::Global;

/// What is decided of a `mkvdisk`: BadValue for a size that is 0 or isn't whole grains; Limit for 512 volumes or
/// more than 8,192 grains in all; NameTaken; NoDisk where a lane has none of the kind; else the volume is made.
pub fn decide_mkvdisk<S: Sheet>(
    alloc: Global,
    control: &Control,
    sheet: &S,
    name: &Option<Name>,
    size: u32,
    unit: Option<Unit>,
    thin: bool,
) -> Result<Decision, NoMemory>
    requires lanes { 0 < length (S.meaning sheet.now).pools }
    requires targets { (m : Mapping) → Contains control.now.tables.mappings m → IsSome (volume_with control.now.tables m.target) }
    ensures { IfOk result (λ decision. decision ≡ decide (S.meaning sheet.now).restarts control.now.grain (books_of control.now (S.meaning sheet.now)) (Command.Mkvdisk name.now size unit thin) None) }
{
    let name = name_or(alloc, name, b"vdisk", control.next_volume())?;
    let bytes = size as u64 * unit_bytes(unit);
    match volume_refusal(control, sheet, &name, bytes, thin) {
        Some(refusal) => {
            let decision = control.refuse(alloc, sheet, refusal)?;
            Ok(decision)
        }
        None => {
            let grains = grains_of(bytes, control.grain()) as u32;
            let decision = make_volume(alloc, control, sheet, name, grains, thin)?;
            Ok(decision)
        }
    }
}

/// Why a volume of so many bytes with this name isn't made, if it is refused.
fn volume_refusal<S: Sheet>(
    control: &Control,
    sheet: &S,
    name: &Name,
    bytes: u64,
    thin: bool,
) -> Option<Refusal>
    requires lanes { 0 < length (S.meaning sheet.now).pools }
    requires bytes { bytes ≤ 2 ^ 62 }
    ensures refused { result ≡ volume_refused control.now.grain (books_of control.now (S.meaning sheet.now)) name.now bytes thin }
    ensures few { IsNone result → bytes / grain_bytes control.now.grain ≤ 8192 }
{
    match size_refusal(control, bytes) {
        Some(refusal) => Some(refusal),
        None => match control.registry().check_name(Kind::Vdisk, name) {
            Err(refusal) => Some(refusal),
            Ok(()) => disk_refusal(sheet, thin),
        },
    }
}

/// Why a volume of so many bytes isn't made, if it is refused for its size.
fn size_refusal(control: &Control, bytes: u64) -> Option<Refusal>
    requires { bytes ≤ 2 ^ 62 }
    ensures refused { result ≡ size_refused control.now.grain control.now.tables bytes }
    ensures few { IsNone result → bytes / grain_bytes control.now.grain ≤ 8192 }
{
    let volumes = control.registry().all_volumes();
    if is_no_size(bytes, control.grain()) {
        Some(Refusal::BadValue(ValueOf::Size))
    } else if volumes.len() >= 512 {
        Some(Refusal::Limit(512))
    } else if all_grains(volumes) + grains_of(bytes, control.grain()) > 8192 {
        Some(Refusal::Limit(8192))
    } else {
        None
    }
}

/// A volume is made.
fn make_volume<S: Sheet>(
    alloc: Global,
    control: &Control,
    sheet: &S,
    name: Name,
    grains: u32,
    thin: bool,
) -> Result<Decision, NoMemory>
    requires { (m : Mapping) → Contains control.now.tables.mappings m → IsSome (volume_with control.now.tables m.target) }
    ensures { IfOk result (λ decision. decision ≡ with_work (S.meaning sheet.now).restarts (books_of control.now (S.meaning sheet.now)) (Reply.Made Kind.Vdisk control.now.next_volume) (make_volume record { id = record { 0 = control.now.next_volume }; name = name; grains = grains; kind = kind_of thin })) }
{
    let id = control.next_volume();
    let draft = draft_volume(
        alloc,
        Volume {
            id: VolId(id),
            name,
            grains,
            kind: kind_of(thin),
        },
    )?;
    let reply = Reply::Made {
        kind: Kind::Vdisk,
        id,
    };
    let decision = control.conclude(sheet, draft, reply)?;
    Ok(decision)
}

/// What making a volume does.
fn draft_volume(alloc: Global, volume: Volume) -> Result<Draft, NoMemory>
    ensures { IfOk result (λ draft. draft ≡ make_volume volume) }
{
    let mut draft = Draft::new(alloc);
    draft.affect(Effect::Make {
        volume: volume.id,
        grains: volume.grains,
    })?;
    draft.tell(LaneEvent::Make {
        volume: volume.id,
        grains: volume.grains,
        kind: volume.kind,
    })?;
    draft.change(Change::AddVolume(volume))?;
    Ok(draft)
}

/// NoDisk where some lane has no disk of the kind.
fn disk_refusal<S: Sheet>(sheet: &S, thin: bool) -> Option<Refusal>
    requires { 0 < length (S.meaning sheet.now).pools }
    ensures { result ≡ where_ (lacks_disk (kind_of thin) (S.meaning sheet.now).pools) Refusal.NoDisk }
{
    if sheet.pool(kind_of(thin)) == 0 {
        Some(Refusal::NoDisk)
    } else {
        None
    }
}

/// How many grains there are in so many bytes.
fn grains_of(bytes: u64, grain: GrainSize) -> u64
    ensures grains { result ≡ bytes / grain_bytes grain }
    ensures few { result ≤ bytes }
{
    match grain {
        GrainSize::K64 => bytes / 65_536,
        GrainSize::K256 => bytes / 262_144,
    }
}

/// Whether so many bytes are none, or not whole grains.
fn is_no_size(bytes: u64, grain: GrainSize) -> bool
    ensures { result ≡ ((bytes == 0) || not (bytes % grain_bytes grain == 0)) }
{
    match grain {
        GrainSize::K64 => bytes == 0 || bytes % 65_536 != 0,
        GrainSize::K256 => bytes == 0 || bytes % 262_144 != 0,
    }
}

/// How many bytes one of the unit has; an mb where none is given.
fn unit_bytes(unit: Option<Unit>) -> u64
    ensures bytes { result ≡ unit_bytes unit }
    ensures few { result ≤ 2 ^ 30 }
{
    match unit {
        Some(Unit::Kb) => 1_024,
        None | Some(Unit::Mb) => 1_048_576,
        Some(Unit::Gb) => 1_073_741_824,
    }
}

/// The kind of disks of a volume.
fn kind_of(thin: bool) -> DiskKind
    ensures { result ≡ kind_of thin }
{
    if thin { DiskKind::Thin } else { DiskKind::Flat }
}

/// The grains of all volumes.
fn all_grains(volumes: &[Volume]) -> u64
    requires { length volumes.now < 512 }
    ensures grains { result ≡ all_grains volumes.now }
    ensures few { result ≤ 2 ^ 41 }
{
    let mut sum: u64 = 0;
    for volume in volumes {
        sum += volume.grains as u64;
    }
    sum
}
