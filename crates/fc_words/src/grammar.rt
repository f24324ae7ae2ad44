//! The table of lines: how each is spelled, where it may stand, and its options and operands.

ghost use Rattle.std.specs.Prelude.{◌≡◌};
ghost use Rattle.fc_words.specs.Grammar.{all_verbs, verb_spelling, verb_of, family_of, scope_has, options_of, option_spelling, option_of, operands_of};

use fc_base::command::Scope;

/// What a line does, told by its first word.
#[derive(Clone, Copy)]
pub enum Verb {
    /// `mkvdisk`
    MakeVolume,
    /// `rmvdisk`
    RemoveVolume,
    /// `write`
    WriteBlocks,
    /// `read`
    ReadBlocks,
    /// `armfault`
    ArmFault,
    /// `advance`
    PassTime,
    /// `mkfcmap`
    MakeMapping,
    /// `prestartfcmap`
    PrepareMapping,
    /// `startfcmap`
    StartMapping,
    /// `stopfcmap`
    StopMapping,
    /// `rmfcmap`
    RemoveMapping,
    /// `mkfcconsistgrp`
    MakeGroup,
    /// `prestartfcconsistgrp`
    PrepareGroup,
    /// `startfcconsistgrp`
    StartGroup,
    /// `stopfcconsistgrp`
    StopGroup,
    /// `rmfcconsistgrp`
    RemoveGroup,
    /// `lsfcmap`
    ListMappings,
    /// `lsfcconsistgrp`
    ListGroups,
    /// `lsvdisk`
    ListVolumes,
    /// `lsfcmapprogress`
    ShowProgress,
    /// `lsfcmapdependentmaps`
    ListDependents,
    /// `mkpreset`
    MakeCopy,
    /// `lsvdiskroom`
    ListRoom,
    /// `together`
    BeginBlock,
    /// `actor`
    BeginActor,
    /// `end`
    EndBlock,
}

/// The kinds of lines that scopes have.
#[derive(Clone, Copy, PartialEq, Eq)]
pub enum Family {
    /// Volumes, the room that they take, presets, faults, time and blocks: outside blocks alone.
    Storage,
    /// Reads and writes.
    Access,
    /// Mappings, groups and the other reports.
    CopyServices,
    /// The lines of a block itself.
    Block,
}

/// An option without a value.
#[derive(Clone, Copy)]
pub enum Flag {
    /// `-thin`
    Thin,
    /// `-incremental`
    Incremental,
    /// `-autodelete`
    Autodelete,
    /// `-restore`
    Restore,
    /// `-prep`
    Prep,
    /// `-force`
    Force,
    /// `-split`
    Split,
}

/// An option with a value.
#[derive(Clone, Copy)]
pub enum Setting {
    /// `-name`
    Name,
    /// `-size`
    Size,
    /// `-unit`
    Unit,
    /// `-source`
    Source,
    /// `-target`
    Target,
    /// `-consistgrp`
    Group,
    /// `-copyrate`
    CopyRate,
    /// `-cleanrate`
    CleanRate,
    /// `-grainsize`
    GrainSize,
    /// `-seconds`
    Seconds,
    /// `-delim`
    Delim,
    /// `-preset`
    Preset,
}

/// An option of a line.
#[derive(Clone, Copy)]
pub enum LineOption {
    /// It stands alone.
    Flag(Flag),
    /// The next word is its value.
    Setting(Setting),
}

/// A word of a line that is no option.
#[derive(Clone, Copy)]
pub enum Operand {
    /// The volume, mapping or group that the line speaks of.
    Object,
    /// The first block.
    Block,
    /// How many blocks.
    Count,
    /// The byte that is written.
    Byte,
    /// The grain of the disk that is armed.
    Grain,
    /// How many calls of that disk are done before one fails.
    Calls,
    /// The name of an actor.
    Actor,
    /// The role of an actor.
    Role,
    /// How many turns a copier or cleaner takes.
    Turns,
}

impl Verb {
    /// All lines, in the manual's order.
    pub fn all() -> &'static [Verb]
        ensures { result.now ≡ all_verbs }
    {
        &[
            Verb::MakeVolume,
            Verb::RemoveVolume,
            Verb::WriteBlocks,
            Verb::ReadBlocks,
            Verb::ArmFault,
            Verb::PassTime,
            Verb::MakeMapping,
            Verb::PrepareMapping,
            Verb::StartMapping,
            Verb::StopMapping,
            Verb::RemoveMapping,
            Verb::MakeGroup,
            Verb::PrepareGroup,
            Verb::StartGroup,
            Verb::StopGroup,
            Verb::RemoveGroup,
            Verb::ListMappings,
            Verb::ListGroups,
            Verb::ListVolumes,
            Verb::ShowProgress,
            Verb::ListDependents,
            Verb::MakeCopy,
            Verb::ListRoom,
            Verb::BeginBlock,
            Verb::BeginActor,
            Verb::EndBlock,
        ]
    }

    /// The first word of the line.
    pub fn spelling(self) -> &'static [u8]
        ensures { result.now ≡ verb_spelling self }
    {
        match self {
            Verb::MakeVolume => b"mkvdisk",
            Verb::RemoveVolume => b"rmvdisk",
            Verb::WriteBlocks => b"write",
            Verb::ReadBlocks => b"read",
            Verb::ArmFault => b"armfault",
            Verb::PassTime => b"advance",
            Verb::MakeMapping => b"mkfcmap",
            Verb::PrepareMapping => b"prestartfcmap",
            Verb::StartMapping => b"startfcmap",
            Verb::StopMapping => b"stopfcmap",
            Verb::RemoveMapping => b"rmfcmap",
            Verb::MakeGroup => b"mkfcconsistgrp",
            Verb::PrepareGroup => b"prestartfcconsistgrp",
            Verb::StartGroup => b"startfcconsistgrp",
            Verb::StopGroup => b"stopfcconsistgrp",
            Verb::RemoveGroup => b"rmfcconsistgrp",
            Verb::ListMappings => b"lsfcmap",
            Verb::ListGroups => b"lsfcconsistgrp",
            Verb::ListVolumes => b"lsvdisk",
            Verb::ShowProgress => b"lsfcmapprogress",
            Verb::ListDependents => b"lsfcmapdependentmaps",
            Verb::MakeCopy => b"mkpreset",
            Verb::ListRoom => b"lsvdiskroom",
            Verb::BeginBlock => b"together",
            Verb::BeginActor => b"actor",
            Verb::EndBlock => b"end",
        }
    }

    /// The line whose first word this is.
    pub fn of(word: &[u8]) -> Option<Verb>
        ensures { result ≡ verb_of word.now }
    {
        Verb::all()
            .iter()
            .copied()
            .find(|verb| verb.spelling() == word)
    }

    /// What kind of line it is.
    pub fn family(self) -> Family
        ensures { result ≡ family_of self }
    {
        match self {
            Verb::MakeVolume
            | Verb::RemoveVolume
            | Verb::ArmFault
            | Verb::PassTime
            | Verb::MakeCopy
            | Verb::ListRoom
            | Verb::BeginBlock => Family::Storage,
            Verb::WriteBlocks | Verb::ReadBlocks => Family::Access,
            Verb::BeginActor | Verb::EndBlock => Family::Block,
            _ => Family::CopyServices,
        }
    }

    /// Whether the scope has the line.
    pub fn is_in(self, scope: Scope) -> bool
        ensures { result ≡ scope_has scope (family_of self) }
    {
        let family = self.family();
        match scope {
            Scope::Free => family != Family::Block,
            Scope::Host => family == Family::Block || family == Family::Access,
            Scope::Admin => family == Family::Block || family == Family::CopyServices,
            Scope::Worker | Scope::NoActor => family == Family::Block,
        }
    }

    /// The options of the line, in canonical order.
    pub fn options(self) -> &'static [LineOption]
        ensures { result.now ≡ options_of self }
    {
        match self {
            Verb::MakeVolume => &[
                LineOption::Setting(Setting::Name),
                LineOption::Setting(Setting::Size),
                LineOption::Setting(Setting::Unit),
                LineOption::Flag(Flag::Thin),
            ],
            Verb::PassTime => &[LineOption::Setting(Setting::Seconds)],
            Verb::MakeMapping => &[
                LineOption::Setting(Setting::Source),
                LineOption::Setting(Setting::Target),
                LineOption::Setting(Setting::Name),
                LineOption::Setting(Setting::Group),
                LineOption::Setting(Setting::CopyRate),
                LineOption::Setting(Setting::CleanRate),
                LineOption::Setting(Setting::GrainSize),
                LineOption::Flag(Flag::Incremental),
                LineOption::Flag(Flag::Autodelete),
            ],
            Verb::MakeGroup => &[LineOption::Setting(Setting::Name)],
            Verb::MakeCopy => &[
                LineOption::Setting(Setting::Source),
                LineOption::Setting(Setting::Preset),
                LineOption::Setting(Setting::Name),
            ],
            Verb::PrepareMapping | Verb::PrepareGroup => &[LineOption::Flag(Flag::Restore)],
            Verb::StartMapping | Verb::StartGroup => &[
                LineOption::Flag(Flag::Prep),
                LineOption::Flag(Flag::Restore),
            ],
            Verb::StopMapping | Verb::StopGroup => &[
                LineOption::Flag(Flag::Force),
                LineOption::Flag(Flag::Split),
            ],
            Verb::RemoveMapping | Verb::RemoveGroup => &[LineOption::Flag(Flag::Force)],
            Verb::ListMappings
            | Verb::ListGroups
            | Verb::ListVolumes
            | Verb::ShowProgress
            | Verb::ListDependents
            | Verb::ListRoom => &[LineOption::Setting(Setting::Delim)],
            _ => &[],
        }
    }

    /// The option of the line that this word names.
    pub fn option(self, word: &[u8]) -> Option<LineOption>
        ensures { result ≡ option_of self word.now }
    {
        self.options()
            .iter()
            .copied()
            .find(|option| option.spelling() == word)
    }

    /// The operands of the line, in order.
    pub fn operands(self) -> &'static [Operand]
        ensures { result.now ≡ operands_of self }
    {
        match self {
            Verb::WriteBlocks => &[
                Operand::Object,
                Operand::Block,
                Operand::Count,
                Operand::Byte,
            ],
            Verb::ReadBlocks => &[Operand::Object, Operand::Block, Operand::Count],
            Verb::ArmFault => &[Operand::Object, Operand::Grain, Operand::Calls],
            Verb::BeginActor => &[Operand::Actor, Operand::Role, Operand::Turns],
            Verb::MakeVolume
            | Verb::PassTime
            | Verb::MakeMapping
            | Verb::MakeGroup
            | Verb::ListVolumes
            | Verb::MakeCopy
            | Verb::ListRoom
            | Verb::BeginBlock
            | Verb::EndBlock => &[],
            _ => &[Operand::Object],
        }
    }
}

impl Setting {
    /// The word that names the option.
    pub fn spelling(self) -> &'static [u8]
        ensures { result.now ≡ option_spelling (LineOption.Setting self) }
    {
        match self {
            Setting::Name => b"-name",
            Setting::Size => b"-size",
            Setting::Unit => b"-unit",
            Setting::Source => b"-source",
            Setting::Target => b"-target",
            Setting::Group => b"-consistgrp",
            Setting::CopyRate => b"-copyrate",
            Setting::CleanRate => b"-cleanrate",
            Setting::GrainSize => b"-grainsize",
            Setting::Seconds => b"-seconds",
            Setting::Delim => b"-delim",
            Setting::Preset => b"-preset",
        }
    }
}

impl Flag {
    /// The word that names the option.
    pub fn spelling(self) -> &'static [u8]
        ensures { result.now ≡ option_spelling (LineOption.Flag self) }
    {
        match self {
            Flag::Thin => b"-thin",
            Flag::Incremental => b"-incremental",
            Flag::Autodelete => b"-autodelete",
            Flag::Restore => b"-restore",
            Flag::Prep => b"-prep",
            Flag::Force => b"-force",
            Flag::Split => b"-split",
        }
    }
}

impl LineOption {
    /// The word that names the option.
    pub fn spelling(self) -> &'static [u8]
        ensures { result.now ≡ option_spelling self }
    {
        match self {
            LineOption::Setting(setting) => setting.spelling(),
            LineOption::Flag(flag) => flag.spelling(),
        }
    }
}
