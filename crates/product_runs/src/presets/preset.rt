//! A preset as its line says it, and the lines that it stands for.

use std::alloc::{AllocError, Global};

/// What a copy is for.
#[derive(Clone, Copy)]
pub enum Kind {
    /// `snapshot`
    Snapshot,
    /// `clone`
    Clone,
    /// `backup`
    Backup,
}

/// A preset, as its line says it.
#[derive(Drop)]
pub struct Preset {
    /// The source, by its name or its id.
    pub source: String,
    /// What the copy is for.
    pub kind: Kind,
    /// The name that its volume and its mapping get.
    pub name: Option<&'static str>,
}

impl Kind {
    /// The word that names it.
    fn word(self) -> &'static str {
        match self {
            Kind::Snapshot => "snapshot",
            Kind::Clone => "clone",
            Kind::Backup => "backup",
        }
    }

    /// The last options of its volume.
    fn volume_options(self) -> &'static str {
        match self {
            Kind::Snapshot => " -thin",
            Kind::Clone | Kind::Backup => "",
        }
    }

    /// The last options of its mapping.
    fn mapping_options(self) -> &'static str {
        match self {
            Kind::Snapshot => " -copyrate 0 -cleanrate 0",
            Kind::Clone => " -copyrate 50 -autodelete",
            Kind::Backup => " -copyrate 50 -incremental",
        }
    }
}

impl Preset {
    /// The option of its name, if it has one.
    fn name_option(&self, alloc: Global) -> Result<String, AllocError> {
        match self.name {
            Some(name) => format!(in alloc; " -name {name}"),
            None => Ok(String::new(alloc)),
        }
    }

    /// The line itself.
    pub fn line(&self, alloc: Global) -> Result<String, AllocError> {
        let source = self.source.as_str();
        let kind = self.kind.word();
        let name = self.name_option(alloc)?;
        let name = name.as_str();
        format!(in alloc; "mkpreset -source {source} -preset {kind}{name}")
    }

    /// The line that makes its volume, of so many KiB.
    pub fn volume_line(&self, alloc: Global, kib: u64) -> Result<String, AllocError> {
        let options = self.kind.volume_options();
        let name = self.name_option(alloc)?;
        let name = name.as_str();
        format!(in alloc; "mkvdisk{name} -size {kib} -unit kb{options}")
    }

    /// The line that makes its mapping to the volume with this id.
    pub fn mapping_line(&self, alloc: Global, volume: u32) -> Result<String, AllocError> {
        let source = self.source.as_str();
        let options = self.kind.mapping_options();
        let name = self.name_option(alloc)?;
        let name = name.as_str();
        format!(in alloc; "mkfcmap -source {source} -target {volume}{name}{options}")
    }
}
