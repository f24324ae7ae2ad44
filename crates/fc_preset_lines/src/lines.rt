//! The lines of a preset, made of their parts.

ghost use Rattle.std.specs.Prelude.{◌≡◌, ◌*◌, ℕ, List, Option, Some, None, IfOk, IfSome};
ghost use Rattle.fc_base.specs.declared.name.Ref.{Ref};
ghost use Rattle.fc_base.specs.Grain.{grain_kib};
ghost use Rattle.fc_legal.specs.Presets.{is_thin, volume_line, mapping_line, start_line, unmap_line, unmake_line};

use fc_base::command::{Command, Preset, Unit};
use fc_base::name::{Name, Ref};
use fc_base::outcome::NoMemory;
use fc_base::size::GrainSize;
use fc_base::volume::Volume;
use fc_copies::copy::copy_some_name;
use std::alloc::Global;

/// Whether the copy is thin: that of a snapshot.
fn is_thin(preset: Preset) -> bool
    ensures { result ≡ is_thin preset }
{
    match preset {
        Preset::Snapshot => true,
        Preset::Clone | Preset::Backup => false,
    }
}

/// How large a volume is in kb. None where that is 2^32 or more.
fn kib_of(grain: GrainSize, volume: &Volume) -> Option<u32>
    ensures { IfSome result (λ kib. kib ≡ volume.now.grains * grain_kib grain) }
{
    volume.grains.checked_mul(grain.kib())
}

/// `mkvdisk`: a volume as large as the source, in kb. Refused for want of memory, or where the
/// source has 2^32 kb or more, as no volume of a session has.
pub fn volume_line(
    alloc: Global,
    grain: GrainSize,
    preset: Preset,
    name: &Option<Name>,
    source: &Volume,
) -> Result<Command, NoMemory>
    ensures { IfOk result (λ line. line ≡ volume_line grain preset name.now source.now) }
{
    let Some(size) = kib_of(grain, source) else {
        return Err(NoMemory);
    };
    let name = copy_some_name(alloc, name)?;
    Ok(Command::Mkvdisk {
        name,
        size,
        unit: Some(Unit::Kb),
        thin: is_thin(preset),
    })
}

/// What a preset's mapping is made with.
#[derive(Clone, Copy)]
struct Options {
    /// The rate of background copying.
    copy_rate: u32,
    /// The rate of cleaning, where one is given.
    clean_rate: Option<u32>,
    /// Whether a later start copies changed grains alone.
    incremental: bool,
    /// Whether it is removed when its copy is complete.
    autodelete: bool,
}

/// The options of a preset's mapping. A snapshot isn't copied in the background; a clone's mapping
/// goes when it is complete; a backup's copies changed grains alone when it is started again.
fn options_of(preset: Preset) -> Options
    ensures { (source : Ref) (name : Option (List ℕ)) (volume : ℕ) →
        mapping_line source preset name volume
        ≡ Command.Mkfcmap source (Ref.Id volume) name None (Some result.copy_rate) result.clean_rate
        None result.incremental result.autodelete }
{
    match preset {
        Preset::Snapshot => Options {
            copy_rate: 0,
            clean_rate: Some(0),
            incremental: false,
            autodelete: false,
        },
        Preset::Clone => Options {
            copy_rate: 50,
            clean_rate: None,
            incremental: false,
            autodelete: true,
        },
        Preset::Backup => Options {
            copy_rate: 50,
            clean_rate: None,
            incremental: true,
            autodelete: false,
        },
    }
}

/// `mkfcmap`: from the source to the new volume, with the options of the preset.
pub fn mapping_line(source: Ref, preset: Preset, name: Option<Name>, volume: u32) -> Command
    ensures { result ≡ mapping_line source preset name volume }
{
    let options = options_of(preset);
    Command::Mkfcmap {
        source,
        target: Ref::Id(volume),
        name,
        group: None,
        copy_rate: Some(options.copy_rate),
        clean_rate: options.clean_rate,
        grain_size: None,
        incremental: options.incremental,
        autodelete: options.autodelete,
    }
}

/// `startfcmap -prep` of the new mapping.
pub fn start_line(map: u32) -> Command
    ensures { result ≡ start_line map }
{
    Command::Startfcmap {
        map: Ref::Id(map),
        prep: true,
        restore: false,
    }
}

/// `rmfcmap` of the new mapping.
pub fn unmap_line(map: u32) -> Command
    ensures { result ≡ unmap_line map }
{
    Command::Rmfcmap {
        map: Ref::Id(map),
        force: false,
    }
}

/// `rmvdisk` of the new volume.
pub fn unmake_line(volume: u32) -> Command
    ensures { result ≡ unmake_line volume }
{
    Command::Rmvdisk {
        volume: Ref::Id(volume),
    }
}
