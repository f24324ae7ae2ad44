//! A session that is drawn by a number: every third line is a preset.
//!
//! Four small volumes, one that no copy has room for, and three mappings come first, of which one is stopped, so that its target is
//! offline. The names of mappings and copies are eight, so most are taken soon; some volumes get a default name that is still to come.

use crate::draws::Draws;
use crate::presets::preset::{Kind, Preset};
use std::alloc::{AllocError, Global};

/// A line of a session.
#[derive(Drop)]
pub enum Line {
    /// A preset.
    Preset(Preset),
    /// Any other line.
    Plain(String),
}

/// The lines that are drawn.
const LINES: u32 = 60;

/// The lines that every session begins with.
const FIRST_LINES: &[&str] = &[
    "mkvdisk -name V0 -size 256 -unit kb",
    "mkvdisk -name V1 -size 128 -unit kb -thin",
    "mkvdisk -name V2 -size 256 -unit kb",
    "mkvdisk -name V3 -size 128 -unit kb",
    "mkvdisk -name big -size 300 -thin",
    "mkfcmap -source V0 -target V2 -name n0 -incremental",
    "mkfcmap -source V2 -target V0 -name n1 -copyrate 0",
    "mkfcmap -source V1 -target V3 -name off -copyrate 30",
    "startfcmap -prep off",
    "stopfcmap off",
];

/// A name that volumes and mappings may have.
fn drawn_name(draws: &mut Draws) -> &'static str {
    match draws.below(8) {
        0 => "n0",
        1 => "n1",
        2 => "n2",
        3 => "n3",
        4 => "n4",
        5 => "n5",
        6 => "n6",
        _ => "n7",
    }
}

/// A volume: one of the first four, the one that no copy has room for, or one that may be there, by its name or id.
fn drawn_volume(draws: &mut Draws, alloc: Global) -> Result<String, AllocError> {
    match draws.below(10) {
        0..=5 => {
            let volume = draws.below(4);
            format!(in alloc; "V{volume}")
        }
        6..=7 => String::from_str(alloc, drawn_name(draws)),
        8 => {
            let id = draws.below(30);
            format!(in alloc; "{id}")
        }
        _ => String::from_str(alloc, "big"),
    }
}

/// A mapping that may be there, by its name or id.
fn drawn_mapping(draws: &mut Draws, alloc: Global) -> Result<String, AllocError> {
    if draws.below(2) == 0 {
        return String::from_str(alloc, drawn_name(draws));
    }
    let id = draws.below(20);
    format!(in alloc; "{id}")
}

/// A preset, mostly with a name.
fn drawn_preset(draws: &mut Draws, alloc: Global) -> Result<Preset, AllocError> {
    let source = drawn_volume(draws, alloc)?;
    let kind = match draws.below(3) {
        0 => Kind::Snapshot,
        1 => Kind::Clone,
        _ => Kind::Backup,
    };
    let name = if draws.below(3) == 0 {
        None
    } else {
        Some(drawn_name(draws))
    };
    Ok(Preset { source, kind, name })
}

/// A write or a read of some blocks, which may be past the volume's end.
fn drawn_access(draws: &mut Draws, alloc: Global) -> Result<String, AllocError> {
    let volume = drawn_volume(draws, alloc)?;
    let volume = volume.as_str();
    let first = draws.below(500);
    let count = draws.below(12).saturating_add(1);
    if draws.below(3) == 0 {
        return format!(in alloc; "read {volume} {first} {count}");
    }
    let byte = draws.below(256);
    format!(in alloc; "write {volume} {first} {count} {byte:02x}")
}

/// A command on a mapping.
fn drawn_command(draws: &mut Draws, alloc: Global) -> Result<String, AllocError> {
    let mapping = drawn_mapping(draws, alloc)?;
    let mapping = mapping.as_str();
    match draws.below(6) {
        0..=1 => format!(in alloc; "startfcmap -prep -restore {mapping}"),
        2 => format!(in alloc; "stopfcmap {mapping}"),
        3 => format!(in alloc; "stopfcmap -force {mapping}"),
        4 => format!(in alloc; "stopfcmap -split {mapping}"),
        _ => format!(in alloc; "rmfcmap -force {mapping}"),
    }
}

/// A line that makes or removes a volume or a mapping by itself.
fn drawn_object(draws: &mut Draws, alloc: Global) -> Result<String, AllocError> {
    let number = draws.below(30);
    match draws.below(4) {
        0 => format!(in alloc; "mkvdisk -name vdisk{number} -size 64 -unit kb"),
        1 => format!(in alloc;
            "mkfcmap -source V0 -target V{} -name fcmap{number}",
            draws.below(4)
        ),
        2 => format!(in alloc; "mkfcmap -source V3 -target V1 -name {}", drawn_name(draws)),
        _ => format!(in alloc; "rmvdisk {}", drawn_name(draws)),
    }
}

/// A line that is no preset.
fn drawn_plain(draws: &mut Draws, alloc: Global) -> Result<String, AllocError> {
    match draws.below(10) {
        0..=3 => drawn_access(draws, alloc),
        4..=6 => drawn_command(draws, alloc),
        7 => drawn_object(draws, alloc),
        8 => String::from_str(alloc, "advance -seconds 1"),
        _ => String::from_str(alloc, "lsfcmap -delim :"),
    }
}

/// The session of a number.
pub fn drawn_session(alloc: Global, number: u64) -> Result<Vec<Line>, AllocError> {
    let mut draws = Draws::of(number);
    let mut lines = Vec::new(alloc);
    for line in FIRST_LINES {
        let line = String::from_str(alloc, line)?;
        lines.push(Line::Plain(line))?;
    }
    for place in 0..LINES {
        let line = if place % 3 == 2 {
            Line::Preset(drawn_preset(&mut draws, alloc)?)
        } else {
            Line::Plain(drawn_plain(&mut draws, alloc)?)
        };
        lines.push(line)?;
    }
    Ok(lines)
}

/// The text of a session.
pub fn text_of(alloc: Global, lines: &[Line]) -> Result<String, AllocError> {
    let mut text = String::new(alloc);
    for line in lines {
        match line {
            Line::Preset(preset) => {
                let line = preset.line(alloc)?;
                text.push_str(line.as_str())?;
            }
            Line::Plain(line) => text.push_str(line.as_str())?,
        }
        text.push_str("\n")?;
    }
    Ok(text)
}
