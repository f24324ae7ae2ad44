//! The lines that are asked in place of a preset, as text.

use crate::made::Made;
use fc_base::command::{Command, Preset};
use fc_base::name::{Name, Ref};
use fc_base::outcome::NoMemory;
use std::alloc::Global;

/// The canonical text of a line, made word by word.
#[derive(Drop)]
pub(crate) struct LineText {
    alloc: Global,
    bytes: Vec<u8>,
}

impl LineText {
    /// A line that begins with these words.
    fn of(alloc: Global, words: &str) -> Result<LineText, NoMemory> {
        match Vec::from_slice(alloc, words.as_bytes()) {
            Ok(bytes) => Ok(LineText { alloc, bytes }),
            Err(_) => Err(NoMemory),
        }
    }

    /// The same line with these words behind it.
    fn with(mut self, words: &[u8]) -> Result<LineText, NoMemory> {
        if self.bytes.push(b' ').is_err() || self.bytes.extend_from_slice(words).is_err() {
            return Err(NoMemory);
        }
        Ok(self)
    }

    /// The same line with a number behind it.
    fn with_number(self, number: u64) -> Result<LineText, NoMemory> {
        let alloc = self.alloc;
        match format!(in alloc; "{number}") {
            Ok(digits) => self.with(digits.as_bytes()),
            Err(_) => Err(NoMemory),
        }
    }

    /// The same line with what names an object behind it.
    fn with_ref(self, object: &Ref) -> Result<LineText, NoMemory> {
        match object {
            Ref::Id(id) => self.with_number(u64::from(*id)),
            Ref::Name(name) => self.with(name.as_bytes()),
        }
    }

    /// The same line with the name that is given, if one is.
    fn with_name(self, name: &Option<Name>) -> Result<LineText, NoMemory> {
        match name {
            Some(name) => self.with(b"-name")?.with(name.as_bytes()),
            None => Ok(self),
        }
    }

    /// The text.
    pub(crate) fn as_bytes(&self) -> &[u8] {
        self.bytes.as_slice()
    }
}

/// A preset of a volume that is there.
#[derive(Clone, Copy)]
pub(crate) struct PresetOf<'a> {
    source: &'a Ref,
    preset: Preset,
    name: &'a Option<Name>,
    /// How large the source is, in kb.
    kib: u64,
}

impl<'a> PresetOf<'a> {
    /// The preset that a command asks for, where its source names a volume.
    pub(crate) fn by(made: &Made, command: &'a Command) -> Option<PresetOf<'a>> {
        match command {
            Command::Mkpreset {
                source,
                preset,
                name,
            } => Some(PresetOf {
                source,
                preset: *preset,
                name,
                kib: made.kib_of(source)?,
            }),
            _ => None,
        }
    }

    /// Makes a volume as large as the source, which is thin for a snapshot.
    pub(crate) fn volume_line(self, alloc: Global) -> Result<LineText, NoMemory> {
        let line = LineText::of(alloc, "mkvdisk")?
            .with_name(self.name)?
            .with(b"-size")?
            .with_number(self.kib)?
            .with(b"-unit kb")?;
        match self.preset {
            Preset::Snapshot => line.with(b"-thin"),
            Preset::Clone | Preset::Backup => Ok(line),
        }
    }

    /// Makes a mapping from the source to the volume with this id.
    pub(crate) fn mapping_line(self, alloc: Global, volume: u32) -> Result<LineText, NoMemory> {
        let line = LineText::of(alloc, "mkfcmap -source")?
            .with_ref(self.source)?
            .with(b"-target")?
            .with_number(u64::from(volume))?
            .with_name(self.name)?;
        match self.preset {
            Preset::Snapshot => line.with(b"-copyrate 0 -cleanrate 0"),
            Preset::Clone => line.with(b"-copyrate 50 -autodelete"),
            Preset::Backup => line.with(b"-copyrate 50 -incremental"),
        }
    }
}

/// A line of these words on the mapping or the volume with this id.
pub(crate) fn line_on(alloc: Global, words: &str, id: u32) -> Result<LineText, NoMemory> {
    LineText::of(alloc, words)?.with_number(u64::from(id))
}
