//! The phrases of word faults and refusals.

ghost use Rattle.std.specs.Prelude.{◌≡◌};
ghost use Rattle.fc_entry.specs.Phrase.{phrase_text};
ghost use Rattle.fc_entry.specs.Text.{fault_text, kind_text, option_text, refusal_text, state_text, value_text};

use crate::phrase::Phrase;
use fc_base::fault::{Kind, Refusal, RequiredOption, ValueOf, WordFault};
use fc_base::state::MapState;

/// A kind of object, as a refusal names it.
fn kind_word(kind: Kind) -> &'static [u8]
    ensures { result.now ≡ kind_text kind }
{
    match kind {
        Kind::Vdisk => b"vdisk",
        Kind::Fcmap => b"fcmap",
        Kind::Group => b"group",
    }
}

/// The state of a mapping or a group, as replies and refusals name it.
pub fn state_word(state: MapState) -> &'static [u8]
    ensures { result.now ≡ state_text state }
{
    match state {
        MapState::Empty => b"empty",
        MapState::IdleOrCopied => b"idle_or_copied",
        MapState::Preparing => b"preparing",
        MapState::Prepared => b"prepared",
        MapState::Copying => b"copying",
        MapState::Stopping => b"stopping",
        MapState::Stopped => b"stopped",
    }
}

/// An option that its line can't do without.
fn option_word(option: RequiredOption) -> &'static [u8]
    ensures { result.now ≡ option_text option }
{
    match option {
        RequiredOption::Size => b"-size",
        RequiredOption::Seconds => b"-seconds",
        RequiredOption::Source => b"-source",
        RequiredOption::Target => b"-target",
        RequiredOption::Preset => b"-preset",
    }
}

/// A value that may be out of its range.
fn value_word(value: ValueOf) -> &'static [u8]
    ensures { result.now ≡ value_text value }
{
    match value {
        ValueOf::Size => b"size",
        ValueOf::CopyRate => b"copyrate",
        ValueOf::CleanRate => b"cleanrate",
        ValueOf::Seconds => b"seconds",
        ValueOf::Blocks => b"blocks",
        ValueOf::Grain => b"grain",
    }
}

/// What is wrong with the words of a line.
fn fault_phrase(fault: WordFault) -> Phrase<'static>
    ensures { phrase_text result ≡ fault_text fault }
{
    match fault {
        WordFault::UnknownCommand => Phrase::Text(b"unknown command"),
        WordFault::UnknownOption(word) => Phrase::Number(b"unknown option at word ", word),
        WordFault::MissingOption(option) => Phrase::Word(b"missing option ", option_word(option)),
        WordFault::MissingWord(word) => Phrase::Number(b"missing word ", word),
        WordFault::RepeatedOption(word) => Phrase::Number(b"option repeated at word ", word),
        WordFault::BadNumber(word) => Phrase::Number(b"bad number at word ", word),
        WordFault::BadName(word) => Phrase::Number(b"bad name at word ", word),
        WordFault::LongLine => Phrase::Text(b"long line"),
        WordFault::NoActor => Phrase::Text(b"no actor"),
        WordFault::NotInBlock => Phrase::Text(b"not in a block"),
        WordFault::Limit(count) => Phrase::Number(b"limit ", count),
    }
}

/// Why a command was refused.
pub(crate) fn refusal_phrase(refusal: &Refusal) -> Phrase<'_>
    ensures { phrase_text result ≡ refusal_text refusal.now }
{
    match refusal {
        Refusal::Words(fault) => fault_phrase(*fault),
        Refusal::NoSuch(kind) => Phrase::Word(b"no such ", kind_word(*kind)),
        Refusal::NameTaken(id) => Phrase::Number(b"name taken ", *id),
        Refusal::Limit(count) => Phrase::Number(b"limit ", *count),
        Refusal::NoDisk => Phrase::Text(b"no disk"),
        Refusal::BadValue(value) => Phrase::Word(b"bad value of ", value_word(*value)),
        Refusal::InUse(volume) => Phrase::Number(b"in use ", volume.0),
        Refusal::NotPrepared => Phrase::Text(b"not prepared"),
        Refusal::NotAllowed(state) => Phrase::Word(b"not allowed in ", state_word(*state)),
        Refusal::InGroup(group) => Phrase::Number(b"in group ", group.0),
        Refusal::Empty => Phrase::Text(b"empty group"),
        Refusal::TargetTwice(volume) => Phrase::Number(b"target twice ", volume.0),
        Refusal::SourceIsTarget(volume) => Phrase::Number(b"source is target ", volume.0),
        Refusal::SourceNotReady(volume) => Phrase::Number(b"source not ready ", volume.0),
        Refusal::TargetActive(map) => Phrase::Number(b"target active ", map.0),
        Refusal::TargetIsSource(volume) => Phrase::Number(b"target is source ", volume.0),
        Refusal::RestoreLoop(volumes) => Phrase::Volumes(b"restore loop", volumes.as_slice()),
        Refusal::NotComplete { held, total } => Phrase::Numbers(b"not complete ", *held, *total),
        Refusal::NeedsForce => Phrase::Text(b"needs force"),
        Refusal::SizeDiffers { source, target } => {
            Phrase::Numbers(b"size differs ", *source, *target)
        }
        Refusal::GrainDiffers { asked, run } => {
            Phrase::Numbers(b"grain differs ", asked.kib(), run.kib())
        }
        Refusal::SameVolume => Phrase::Text(b"same volume"),
        Refusal::PairTaken(map) => Phrase::Number(b"pair taken ", map.0),
    }
}
