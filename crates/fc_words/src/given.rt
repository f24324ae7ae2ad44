//! What the words of a line have given so far.

ghost use Rattle.std.specs.Prelude.{◌≡◌, MatchResult, IsOk, Some, Err};
ghost use Rattle.fc_words.specs.Answers.{Leaves};
ghost use Rattle.fc_words.specs.Values.{on_read};
ghost use Rattle.fc_words.specs.Given.{no_settings, no_flags, no_operands, nothing_given, set, has_setting, raise, is_raised, is_given, is_wanted, take};

use crate::grammar::{Flag, LineOption, Operand, Setting};
use crate::refused::WordRefused;
use crate::values::{
    read_byte, read_delim, read_grain_size, read_name, read_number, read_preset, read_ref,
    read_role, read_turns, read_unit,
};
use fc_base::command::{Preset, Unit};
use fc_base::fault::WordFault;
use fc_base::name::{Name, Ref};
use fc_base::size::GrainSize;
use std::alloc::Global;

/// The role of an actor, as it is written.
#[derive(Clone, Copy)]
pub enum RoleWord {
    /// `host`
    Host,
    /// `admin`
    Admin,
    /// `copier`, and its turns behind it.
    Copier,
    /// `cleaner`, and its turns behind it.
    Cleaner,
}

/// The values of the options so far.
#[derive(Drop)]
pub struct Settings {
    pub name: Option<Name>,
    pub size: Option<u32>,
    pub unit: Option<Unit>,
    pub source: Option<Ref>,
    pub target: Option<Ref>,
    pub group: Option<Ref>,
    pub copy_rate: Option<u32>,
    pub clean_rate: Option<u32>,
    pub grain_size: Option<GrainSize>,
    pub seconds: Option<u32>,
    pub delim: Option<u8>,
    pub preset: Option<Preset>,
}

/// The options without values so far.
#[derive(Clone, Copy)]
pub struct Flags {
    pub thin: bool,
    pub incremental: bool,
    pub autodelete: bool,
    pub restore: bool,
    pub prep: bool,
    pub force: bool,
    pub split: bool,
}

/// The operands so far.
#[derive(Drop)]
pub struct Operands {
    pub object: Option<Ref>,
    pub block: Option<u32>,
    pub count: Option<u32>,
    pub byte: Option<u8>,
    pub grain: Option<u32>,
    pub calls: Option<u32>,
    pub actor: Option<Name>,
    pub role: Option<RoleWord>,
    pub turns: Option<u32>,
}

/// What the words of a line have given so far.
pub struct Given {
    /// The option whose value is the next word.
    pub waiting: Option<Setting>,
    pub settings: Settings,
    pub flags: Flags,
    pub operands: Operands,
}

impl Drop for Given {
    // Written out, so that a function that drops it has one call for all of it in its proof.
    fn drop(self) {
        let Given {
            waiting: _,
            settings: _,
            flags: _,
            operands: _,
        } = self;
    }
}

/// Puts a value that was read in its place.
fn put<T: Drop>(place: &mut Option<T>, read: Result<T, WordFault>) -> Result<(), WordRefused>
    ensures { Leaves result place.new (on_read Some read) }
{
    *place = Some(read?);
    Ok(())
}

/// Puts a name or an object that was read in its place.
fn put_object<T: Drop>(
    place: &mut Option<T>,
    read: Result<T, WordRefused>,
) -> Result<(), WordRefused>
    ensures { MatchResult read (λ value. IsOk result × (place.new ≡ Some value)) (λ refused. result ≡ Err refused) }
{
    *place = Some(read?);
    Ok(())
}

impl Settings {
    /// No option has a value.
    pub fn none() -> Settings
        ensures { result ≡ no_settings }
    {
        Settings {
            name: None,
            size: None,
            unit: None,
            source: None,
            target: None,
            group: None,
            copy_rate: None,
            clean_rate: None,
            grain_size: None,
            seconds: None,
            delim: None,
            preset: None,
        }
    }

    /// Whether the option has its value.
    pub fn has(&self, setting: Setting) -> bool
        ensures { result ≡ has_setting setting self.now }
    {
        match setting {
            Setting::Name => self.name.is_some(),
            Setting::Size => self.size.is_some(),
            Setting::Unit => self.unit.is_some(),
            Setting::Source => self.source.is_some(),
            Setting::Target => self.target.is_some(),
            Setting::Group => self.group.is_some(),
            Setting::CopyRate => self.copy_rate.is_some(),
            Setting::CleanRate => self.clean_rate.is_some(),
            Setting::GrainSize => self.grain_size.is_some(),
            Setting::Seconds => self.seconds.is_some(),
            Setting::Delim => self.delim.is_some(),
            Setting::Preset => self.preset.is_some(),
        }
    }

    /// Gives the option the value that the word says.
    pub fn set(
        &mut self,
        alloc: Global,
        setting: Setting,
        word: &[u8],
        at: u32,
    ) -> Result<(), WordRefused>
        ensures { Leaves result self.new (set setting at word.now self.old) }
    {
        match setting {
            Setting::Name => put_object(&mut self.name, read_name(alloc, word, at)),
            Setting::Size => put(&mut self.size, read_number(word, at)),
            Setting::Unit => put(&mut self.unit, read_unit(word, at)),
            Setting::Source => put_object(&mut self.source, read_ref(alloc, word, at)),
            Setting::Target => put_object(&mut self.target, read_ref(alloc, word, at)),
            Setting::Group => put_object(&mut self.group, read_ref(alloc, word, at)),
            Setting::CopyRate => put(&mut self.copy_rate, read_number(word, at)),
            Setting::CleanRate => put(&mut self.clean_rate, read_number(word, at)),
            Setting::GrainSize => put(&mut self.grain_size, read_grain_size(word, at)),
            Setting::Seconds => put(&mut self.seconds, read_number(word, at)),
            Setting::Delim => put(&mut self.delim, read_delim(word, at)),
            Setting::Preset => put(&mut self.preset, read_preset(word, at)),
        }
    }
}

impl Flags {
    /// No option without a value.
    pub fn none() -> Flags
        ensures { result ≡ no_flags }
    {
        Flags {
            thin: false,
            incremental: false,
            autodelete: false,
            restore: false,
            prep: false,
            force: false,
            split: false,
        }
    }

    /// Whether the option was given, or the other of `-force` and `-split`.
    pub fn has(&self, flag: Flag) -> bool
        ensures { result ≡ is_raised flag self.now }
    {
        match flag {
            Flag::Thin => self.thin,
            Flag::Incremental => self.incremental,
            Flag::Autodelete => self.autodelete,
            Flag::Restore => self.restore,
            Flag::Prep => self.prep,
            Flag::Force | Flag::Split => self.force || self.split,
        }
    }

    /// Adds the option.
    pub fn raise(&mut self, flag: Flag)
        ensures { self.new ≡ raise flag self.old }
    {
        match flag {
            Flag::Thin => self.thin = true,
            Flag::Incremental => self.incremental = true,
            Flag::Autodelete => self.autodelete = true,
            Flag::Restore => self.restore = true,
            Flag::Prep => self.prep = true,
            Flag::Force => self.force = true,
            Flag::Split => self.split = true,
        }
    }
}

impl Operands {
    /// No operand.
    pub fn none() -> Operands
        ensures { result ≡ no_operands }
    {
        Operands {
            object: None,
            block: None,
            count: None,
            byte: None,
            grain: None,
            calls: None,
            actor: None,
            role: None,
            turns: None,
        }
    }

    /// Whether the operand isn't there yet. Turns are wanted behind a role that takes them alone.
    pub fn wants(&self, operand: Operand) -> bool
        ensures { result ≡ is_wanted self.now operand }
    {
        match operand {
            Operand::Object => self.object.is_none(),
            Operand::Block => self.block.is_none(),
            Operand::Count => self.count.is_none(),
            Operand::Byte => self.byte.is_none(),
            Operand::Grain => self.grain.is_none(),
            Operand::Calls => self.calls.is_none(),
            Operand::Actor => self.actor.is_none(),
            Operand::Role => self.role.is_none(),
            Operand::Turns => {
                matches!(self.role, Some(RoleWord::Copier | RoleWord::Cleaner))
                    && self.turns.is_none()
            }
        }
    }

    /// Adds the operand that the word says.
    pub fn take(
        &mut self,
        alloc: Global,
        operand: Operand,
        word: &[u8],
        at: u32,
    ) -> Result<(), WordRefused>
        ensures { Leaves result self.new (take operand at word.now self.old) }
    {
        match operand {
            Operand::Object => put_object(&mut self.object, read_ref(alloc, word, at)),
            Operand::Block => put(&mut self.block, read_number(word, at)),
            Operand::Count => put(&mut self.count, read_number(word, at)),
            Operand::Byte => put(&mut self.byte, read_byte(word, at)),
            Operand::Grain => put(&mut self.grain, read_number(word, at)),
            Operand::Calls => put(&mut self.calls, read_number(word, at)),
            Operand::Actor => put_object(&mut self.actor, read_name(alloc, word, at)),
            Operand::Role => put(&mut self.role, read_role(word, at)),
            Operand::Turns => put(&mut self.turns, read_turns(word, at)),
        }
    }
}

impl Given {
    /// Nothing yet.
    pub fn nothing() -> Given
        ensures { result ≡ nothing_given }
    {
        Given {
            waiting: None,
            settings: Settings::none(),
            flags: Flags::none(),
            operands: Operands::none(),
        }
    }

    /// Whether the option was given already, or the other of `-force` and `-split`.
    pub fn has(&self, option: LineOption) -> bool
        ensures { result ≡ is_given option self.now }
    {
        match option {
            LineOption::Setting(setting) => self.settings.has(setting),
            LineOption::Flag(flag) => self.flags.has(flag),
        }
    }
}
