//! A preset, and any single line.

ghost use Rattle.std.specs.Prelude.{◌≡◌, ◌≤◌, ◌∷◌, [], ℕ, List, Ok, IfOk, length};
ghost use Rattle.std.specs.Option.{option_map};
ghost use Rattle.fc_base.specs.Tables.{volume_named};
ghost use Rattle.fc_blocks.specs.Segments.{single};
ghost use Rattle.fc_lanes.specs.Dealing.{disks_in};
ghost use Rattle.fc_legal.specs.Added.{Answered, IsTold, StaysUp, TellsSome};
ghost use Rattle.fc_legal.specs.Agenda.{Session, Reading, session_rules};
ghost use Rattle.fc_legal.specs.Presets.{volume_line};
ghost use Rattle.fc_legal.specs.Whole.{Whole};
ghost use Rattle.fc_stands.specs.Quiet.{QuietBy};
ghost use Rattle.fc_stands.specs.Store.{StandsFor};

use crate::stages::make_volume;
use fc_base::command::{Command, Line, Preset};
use fc_base::limits::MAX_ENTRIES;
use fc_base::name::{Name, Ref};
use fc_base::outcome::NoMemory;
use fc_entry::history::History;
use fc_entry::stop::Stop;
use fc_mdisk::mdisk::Mdisk;
use fc_preset_lines::volume_line;
use fc_store::store::Store;

/// The line that asks for a volume as large as the source; none, where the source names no volume.
/// Refused for want of memory alone.
fn first_line<D: Mdisk>(
    store: &Store<D>,
    source: &Ref,
    preset: Preset,
    name: &Option<Name>,
) -> Result<Option<Command>, NoMemory>
    ensures { IfOk result (λ line. line
        ≡ option_map (volume_line store.now.control.grain preset name.now)
        (volume_named store.now.control.tables source.now)) }
{
    match store.registry().volume(source) {
        Some(volume) => {
            match volume_line(store.alloc(), store.grain(), preset, name, volume) {
                Ok(line) => Ok(Some(line)),
                Err(NoMemory) => Err(NoMemory),
            }
        }
        None => Ok(None),
    }
}

/// Answers a preset: the entries of the lines that stand in its place, and of those that undo them
/// where one is refused; or its own refusal, where its source names no volume. Stopped, the first
/// of them are there; but for want of memory the store goes on to stand for what is told.
pub fn run_preset<D: Mdisk>(
    store: &mut Store<D>,
    source: Ref,
    preset: Preset,
    name: Option<Name>,
    history: &mut History,
) -> Result<(), Stop>
    requires stands { TellsSome (StandsFor store.old) history.old }
    requires room { length history.old.entries ≤ MAX_ENTRIES }
    ensures answered { (read : Reading) (bytes : List ℕ) (w : Whole) →
        read w.books bytes ≡ Ok (Line.Command (Command.Mkpreset source preset name)) →
        IsTold (StandsFor store.old) history.old w →
        Answered result (StandsFor store.new) (session_rules store.old.control.grain read)
        (Session (single bytes ∷ [])) w history.old history.new }
    ensures grain { store.new.control.grain ≡ store.old.control.grain }
    ensures disks { disks_in store.new.lanes ≡ disks_in store.old.lanes }
    ensures quiet { QuietBy history.old.entries store.old
        → StaysUp result (QuietBy history.new.entries store.new) }
    ensures limit { length history.new.entries ≤ MAX_ENTRIES }
{
    match first_line(store, &source, preset, &name) {
        Ok(Some(line)) => make_volume(store, line, source, preset, name, history),
        Ok(None) => {
            let command = Command::Mkpreset {
                source,
                preset,
                name,
            };
            store.run_line(Line::Command(command), history)
        }
        Err(NoMemory) => Err(Stop::NoMemory),
    }
}

/// Answers a single line, as it was read: its entries at the history's end, or none for a blank
/// one. A preset is answered by the lines that stand in its place, and any other line by the store.
/// Stopped, the first of the entries are there; but for want of memory the store goes on to stand
/// for what is told.
pub fn answer_line<D: Mdisk>(
    store: &mut Store<D>,
    line: Line,
    history: &mut History,
) -> Result<(), Stop>
    requires stands { TellsSome (StandsFor store.old) history.old }
    requires room { length history.old.entries ≤ MAX_ENTRIES }
    ensures answered { (read : Reading) (bytes : List ℕ) (w : Whole) →
        read w.books bytes ≡ Ok line →
        IsTold (StandsFor store.old) history.old w →
        Answered result (StandsFor store.new) (session_rules store.old.control.grain read)
        (Session (single bytes ∷ [])) w history.old history.new }
    ensures grain { store.new.control.grain ≡ store.old.control.grain }
    ensures disks { disks_in store.new.lanes ≡ disks_in store.old.lanes }
    ensures quiet { QuietBy history.old.entries store.old
        → StaysUp result (QuietBy history.new.entries store.new) }
    ensures limit { length history.new.entries ≤ MAX_ENTRIES }
{
    match line {
        Line::Command(
            Command::Mkpreset {
                source,
                preset,
                name,
            },
        ) => run_preset(store, source, preset, name, history),
        other => store.run_line(other, history),
    }
}
