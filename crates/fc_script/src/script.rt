//! What a line still asks.

ghost use Rattle.std.specs.Prelude.{◌≡◌, Ok, Some, None, cond, [], ◌∷◌, option_copied, IfOk, IfSome, IfNone, OnOk};
ghost use Rattle.std.specs.Option.{option_map};
ghost use Rattle.fc_base.specs.Tables.{Tables, volume_named};
ghost use Rattle.fc_base.specs.declared.volume.Volume.{Volume};
ghost use Rattle.fc_books.specs.Books.{Books};
ghost use Rattle.fc_books.specs.Refused.{access_refused};
ghost use Rattle.fc_entry.specs.Refused.{blocks_refusal};
ghost use Rattle.fc_base.specs.declared.size.GrainSize.{GrainSize};
ghost use Rattle.fc_legal.specs.Agenda.{Own, Seconds as SecondsAgenda, Session, behind_command, behind_last, line_read};
ghost use Rattle.fc_legal.specs.Asked.{command_asked};
ghost use Rattle.fc_legal.specs.Presets.{asked_behind};
ghost use Rattle.fc_legal.specs.Seconds.{all_work, seconds_begun};
ghost use Rattle.fc_legal.specs.Whole.{Whole};
ghost use Rattle.fc_lanes.specs.Asking.{command_of};
ghost use Rattle.fc_script.specs.Asking.{AsksItself, CanBeAsked, Fits, HasNextFill, IsAnswer, IsLeft, IsNextOf, fill_asked, request_of, work_of};
ghost use Rattle.fc_script.specs.Passage.{GoesOn};
ghost use Rattle.fc_script.specs.Script.{agenda_of, seconds_of};
ghost use Rattle.fc_stands.specs.Apart.{IsRefusalOf};
ghost use Rattle.fc_stands.specs.Phase.{IsDecided};
ghost use Rattle.fc_stands.specs.Store.{StandsFor};

use crate::asking::Asked;
use crate::passage::Passage;
use fc_apart::log::{has_moved, is_done};
use fc_base::behind::Behind;
use fc_base::command::{Command, Line, Preset};
use fc_base::fault::{Kind, Refusal, WordFault};
use fc_base::ids::{GrainNo, VolId};
use fc_base::name::{Name, Ref};
use fc_base::outcome::NoMemory;
use fc_base::request::Request;
use fc_copies::copy::copy_command;
use fc_entry::entry::Entry;
use fc_lanes::access::Access;
use fc_lanes::touched::touched_grains;
use fc_lanes::work::Work;
use fc_mdisk::mdisk::Mdisk;
use fc_preset_lines::{Coming, asked_behind, volume_line};
use fc_store::store::Store;
use std::alloc::Global;
use std::collections::VecDeque;
use std::mem;

/// What a line still asks.
#[derive(Drop)]
pub enum Script {
    /// Nothing.
    Over,
    /// It is a line with this fault in its words, which is told.
    Unread(WordFault),
    /// This command, as it is: it is decided, or refused. Behind an `advance` that is done its seconds pass.
    Command(Command),
    /// An access of so many blocks of a volume from this one on, in each grain that they touch, from the next one on to the last.
    Parts {
        access: Access,
        volume: VolId,
        block: u32,
        count: u32,
        next: u32,
        last: u32,
    },
    /// The seconds of an `advance` that was done.
    Seconds(Passage),
    /// These commands, one after the other, and what is asked behind the last of them: lines that stand in place of a preset.
    Lines {
        commands: VecDeque<Command>,
        behind: Behind,
    },
}

/// How many seconds a command lets pass if it is done.
fn seconds_of(command: &Command) -> u32
    ensures { result ≡ seconds_of command.now }
{
    match command {
        Command::Advance { seconds } => *seconds,
        _ => 0,
    }
}

/// Why an access is refused; none, where it isn't.
fn refusal_of_access<D: Mdisk>(
    store: &Store<D>,
    volume: &Ref,
    block: u32,
    count: u32,
) -> Option<Refusal>
    ensures refused { IfSome result (λ refusal. (b : Books) → b.tables ≡ store.now.control.tables → access_refused store.now.control.grain b volume.now block count ≡ Some refusal) }
    ensures taken { IfNone result ((v : Volume) × (volume_named store.now.control.tables volume.now ≡ Some v) × (blocks_refusal store.now.control.grain v block count ≡ None)) }
{
    match store.taken(volume, block, count) {
        Ok(_) => None,
        Err(refusal) => Some(refusal),
    }
}

/// Why a command that asks for itself is refused; none, where it is decided.
fn refusal_of<D: Mdisk>(store: &Store<D>, command: &Command) -> Option<Refusal>
    requires stands { (w : Whole) × StandsFor store.now w }
    requires itself { AsksItself store.now.control.grain store.now.control.tables command.now }
    ensures refused { IfSome result (λ refusal. CanBeAsked store.now (Asked.Refused (Request.Command command.now) refusal)) }
    ensures decided { IfNone result (IsDecided command.now) }
{
    match command {
        Command::Read {
            volume,
            block,
            count,
        } => refusal_of_access(store, volume, *block, *count),
        Command::Write {
            volume,
            block,
            count,
            ..
        } => refusal_of_access(store, volume, *block, *count),
        Command::Mkpreset { source, .. } => match store.registry().volume(source) {
            Some(_) => None,
            None => Some(Refusal::NoSuch(Kind::Vdisk)),
        },
        _ => None,
    }
}

/// A command that asks for itself, as it is asked: decided, or refused.
fn ask_command<D: Mdisk>(store: &Store<D>, command: &Command) -> Result<Asked, NoMemory>
    requires stands { (w : Whole) × StandsFor store.now w }
    requires itself { AsksItself store.now.control.grain store.now.control.tables command.now }
    ensures request { IfOk result (λ asked. request_of store.now.control.grain asked ≡ Request.Command command.now) }
    ensures can { IfOk result (λ asked. CanBeAsked store.now asked) }
    ensures no_fill { IfOk result (λ asked. (w : Whole) → HasNextFill store.now.control.grain w None asked) }
{
    let copy = match copy_command(store.alloc(), command) {
        Ok(copy) => copy,
        Err(NoMemory) => return Err(NoMemory),
    };
    match refusal_of(store, command) {
        Some(refusal) => Ok(Asked::Refused(Request::Command(copy), refusal)),
        None => Ok(Asked::Command(copy)),
    }
}

/// The fill of a grain by the work at hand, if one is.
fn ask_fill(passage: &Passage, grain: GrainNo) -> Option<Asked>
    ensures { result ≡ option_map (fill_asked grain) passage.now.at_hand }
{
    match passage.work() {
        Some(work) => Some(Asked::Fill {
            map: work.map(),
            cleans: work.cleans(),
            grain,
        }),
        None => None,
    }
}

/// What is left behind a command that lets so many seconds pass if it is done: they, or nothing.
fn behind_command<D: Mdisk>(store: &Store<D>, seconds: u32, done: bool) -> Result<Script, NoMemory>
    ensures goes { IfOk result (λ script. (w : Whole) → StandsFor store.now w →
        GoesOn store.now.control.grain w (cond done (SecondsAgenda (seconds_begun seconds (all_work w.books)) []) (Session [])) (agenda_of store.now.control.grain script)) }
    ensures fits { IfOk result (λ script. (grain : GrainSize) (t : Tables) → Fits grain t script) }
{
    if !done {
        return Ok(Script::Over);
    }
    if seconds == 0 {
        return Ok(Script::Over);
    }
    match store.background_work() {
        Ok(works) => Ok(Script::Seconds(Passage::begin(store.alloc(), works, seconds))),
        Err(NoMemory) => Err(NoMemory),
    }
}

/// What is left behind an answer, where these are asked behind it in place of a preset.
fn lines_behind<D: Mdisk>(
    store: &Store<D>,
    behind: Behind,
    entry: &Entry,
) -> Result<Script, NoMemory>
    ensures agenda { IfOk result (λ script. agenda_of store.now.control.grain script ≡ Own (asked_behind behind entry.now.reply).0 (asked_behind behind entry.now.reply).1 []) }
    ensures fits { IfOk result (λ script. (grain : GrainSize) (t : Tables) → Fits grain t script) }
{
    match asked_behind(store.alloc(), behind, &entry.reply) {
        Ok(Coming { commands, behind }) => Ok(Script::Lines {
            commands: VecDeque::from(commands),
            behind,
        }),
        Err(NoMemory) => Err(NoMemory),
    }
}

/// What is left behind an answer of the last request of a line: its seconds, or other lines of a preset.
fn behind_last<D: Mdisk>(
    store: &Store<D>,
    behind: Behind,
    entry: &Entry,
) -> Result<Script, NoMemory>
    ensures goes { IfOk result (λ script. (w : Whole) → StandsFor store.now w →
        GoesOn store.now.control.grain w (behind_last w entry.now.reply behind []) (agenda_of store.now.control.grain script)) }
    ensures fits { IfOk result (λ script. (grain : GrainSize) (t : Tables) → Fits grain t script) }
{
    match behind {
        Behind::Passing(seconds) => behind_command(store, seconds, is_done(entry)),
        other => lines_behind(store, other, entry),
    }
}

/// An access in all grains that it touches; or itself, where it is refused.
fn of_access<D: Mdisk>(
    store: &Store<D>,
    access: Access,
    volume: Ref,
    block: u32,
    count: u32,
) -> Script
    requires stands { (w : Whole) × StandsFor store.now w }
    ensures agenda { (w : Whole) → StandsFor store.now w →
        agenda_of store.now.control.grain result ≡ Own (command_asked store.now.control.grain w.books (command_of access volume block count)) (Behind.Passing 0) [] }
    ensures fits { Fits store.now.control.grain store.now.control.tables result }
{
    match store.taken(&volume, block, count) {
        Ok(volume) => {
            let (next, last) = touched_grains(store.grain(), block, count);
            Script::Parts {
                access,
                volume,
                block,
                count,
                next,
                last,
            }
        }
        Err(_) => Script::Command(access.command(volume, block, count)),
    }
}

/// This command, and this behind it.
fn one_line(alloc: Global, command: Command, behind: Behind) -> Result<Script, NoMemory>
    requires decided { IsDecided command }
    ensures agenda { IfOk result (λ script. (grain : GrainSize) → agenda_of grain script ≡ Own (Request.Command command ∷ []) behind []) }
    ensures fits { IfOk result (λ script. (grain : GrainSize) (t : Tables) → Fits grain t script) }
{
    let mut commands = VecDeque::new(alloc);
    match commands.push_back(command) {
        Ok(()) => Ok(Script::Lines { commands, behind }),
        Err(_) => Err(NoMemory),
    }
}

/// A preset: a volume as large as its source first, and then the rest; or itself, where its source names no volume, which refuses it.
fn of_preset<D: Mdisk>(
    store: &Store<D>,
    source: Ref,
    preset: Preset,
    name: Option<Name>,
) -> Result<Script, NoMemory>
    requires stands { (w : Whole) × StandsFor store.now w }
    ensures agenda { IfOk result (λ script. (w : Whole) → StandsFor store.now w →
        agenda_of store.now.control.grain script
        ≡ Own (command_asked store.now.control.grain w.books (Command.Mkpreset source preset name)) (behind_command w.books (Command.Mkpreset source preset name)) []) }
    ensures fits { IfOk result (λ script. Fits store.now.control.grain store.now.control.tables script) }
{
    let Some(volume) = store.registry().volume(&source) else {
        return Ok(Script::Command(Command::Mkpreset {
            source,
            preset,
            name,
        }));
    };
    match volume_line(store.alloc(), store.grain(), preset, &name, volume) {
        Ok(line) => one_line(
            store.alloc(),
            line,
            Behind::Mapping {
                source,
                preset,
                name,
            },
        ),
        Err(NoMemory) => Err(NoMemory),
    }
}

/// A command: an access in its grains, a preset by its lines, and any other as it is.
fn of_command<D: Mdisk>(store: &Store<D>, command: Command) -> Result<Script, NoMemory>
    requires stands { (w : Whole) × StandsFor store.now w }
    ensures agenda { IfOk result (λ script. (w : Whole) → StandsFor store.now w →
        agenda_of store.now.control.grain script ≡ Own (command_asked store.now.control.grain w.books command) (behind_command w.books command) []) }
    ensures fits { IfOk result (λ script. Fits store.now.control.grain store.now.control.tables script) }
{
    match command {
        Command::Read {
            volume,
            block,
            count,
        } => Ok(of_access(store, Access::Read, volume, block, count)),
        Command::Write {
            volume,
            block,
            count,
            byte,
        } => Ok(of_access(store, Access::Write(byte), volume, block, count)),
        Command::Mkpreset {
            source,
            preset,
            name,
        } => of_preset(store, source, preset, name),
        other => Ok(Script::Command(other)),
    }
}

impl Script {
    /// All that a line asks, as it was read: nothing of a blank one, an access in its grains, a preset the lines that stand in its
    /// place, any other command itself. A line that belongs to a block of actors is an unknown command.
    ///
    /// `NoMemory` where memory was wanted for the lines of a preset.
    pub fn of_line<D: Mdisk>(store: &Store<D>, line: Line) -> Result<Script, NoMemory>
        requires stands { (w : Whole) × StandsFor store.now w }
        ensures agenda { IfOk result (λ script. (w : Whole) → StandsFor store.now w →
            GoesOn store.now.control.grain w (line_read store.now.control.grain w (Ok line) []) (agenda_of store.now.control.grain script)) }
        ensures fits { IfOk result (λ script. Fits store.now.control.grain store.now.control.tables script) }
    {
        match line {
            Line::Blank => Ok(Script::Over),
            Line::Command(command) => of_command(store, command),
            Line::Together | Line::Actor { .. } | Line::End => {
                Ok(Script::Unread(WordFault::UnknownCommand))
            }
        }
    }

    /// What is asked next, by `main`; none, exactly where nothing is left. What passes without an entry is gone through first: a work
    /// whose credit isn't worth a grain, or that has nothing to do, and a second that is over. `NoMemory` where memory was wanted;
    /// then nothing is said of the script.
    pub fn next<D: Mdisk>(&mut self, store: &Store<D>) -> Result<Option<Asked>, NoMemory>
        requires stands { (w : Whole) × StandsFor store.now w }
        requires fits { Fits store.now.control.grain store.now.control.tables self.old }
        ensures { IfOk result (λ asked. IsNextOf store.now self.old self.new asked) }
    {
        match self {
            Script::Over => Ok(None),
            Script::Unread(fault) => Ok(Some(Asked::Refused(
                Request::Unread(*fault),
                Refusal::Words(*fault),
            ))),
            Script::Command(command) => Ok(Some(ask_command(store, command)?)),
            Script::Parts {
                access,
                volume,
                block,
                count,
                next,
                ..
            } => Ok(Some(Asked::Part {
                access: *access,
                volume: *volume,
                block: *block,
                count: *count,
                grain: *next,
            })),
            Script::Seconds(passage) => match passage.pass(store) {
                Ok(Some(grain)) => Ok(ask_fill(passage, grain)),
                Ok(None) => {
                    *self = Script::Over;
                    Ok(None)
                }
                Err(NoMemory) => Err(NoMemory),
            },
            Script::Lines { commands, .. } => match commands.front() {
                Some(command) => Ok(Some(ask_command(store, command)?)),
                None => {
                    *self = Script::Over;
                    Ok(None)
                }
            },
        }
    }

    /// Goes on behind the entry that answered what was asked last; the store is as it is after it. A grain that was read, written,
    /// copied or cleaned is behind it; a fill that moved nothing ends the second of its work; behind an `advance` that is done its
    /// seconds begin, with the background work of the store; and behind a line of a preset those are left that follow its answer.
    /// `NoMemory` where memory was wanted for that; then nothing is said of the script.
    pub fn answered<D: Mdisk>(&mut self, store: &Store<D>, entry: &Entry) -> Result<(), NoMemory>
        requires stands { (w : Whole) × StandsFor store.now w }
        ensures { OnOk result ((w : Whole) (next : Whole) → IsAnswer store.now.control.grain self.old w entry.now next → StandsFor store.now next →
            IsLeft store.now.control.grain self.old w entry.now next self.new) }
    {
        match self {
            Script::Over | Script::Unread(_) => {
                *self = Script::Over;
                Ok(())
            }
            Script::Command(command) => {
                let behind = Behind::Passing(seconds_of(command));
                *self = behind_last(store, behind, entry)?;
                Ok(())
            }
            Script::Parts { next, last, .. } => {
                if *next < *last {
                    *next += 1;
                    return Ok(());
                }
                *self = Script::Over;
                Ok(())
            }
            Script::Seconds(passage) => passage.follow(store, has_moved(entry)),
            Script::Lines { commands, behind } => {
                let _answered = commands.pop_front();
                if !commands.is_empty() {
                    return Ok(());
                }
                let behind = mem::replace(behind, Behind::Passing(0));
                *self = behind_last(store, behind, entry)?;
                Ok(())
            }
        }
    }

    /// The work whose fill is asked, where one is.
    pub fn work(&self) -> Option<&Work>
        ensures { option_copied result ≡ work_of self.now }
    {
        match self {
            Script::Seconds(passage) => passage.work(),
            _ => None,
        }
    }
}
