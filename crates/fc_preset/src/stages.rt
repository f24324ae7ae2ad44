//! The stages of a preset: the volume, the mapping, its start, and what undoes them.

ghost use Rattle.std.specs.Prelude.{◌≤◌, ◌∷◌, [], length};
ghost use Rattle.fc_legal.specs.Added.{TellsSome};
ghost use Rattle.fc_legal.specs.Presets.{mapping_line, start_line, unmake_line, unmap_line};
ghost use Rattle.fc_preset.specs.Stages.{AnswersOwn};
ghost use Rattle.fc_stands.specs.Phase.{IsDecided};
ghost use Rattle.fc_stands.specs.Store.{StandsFor};

use crate::asking::ask_made;
use fc_base::behind::Behind;
use fc_base::command::{Command, Preset};
use fc_base::limits::MAX_ENTRIES;
use fc_base::name::{Name, Ref};
use fc_base::request::Request;
use fc_entry::history::History;
use fc_entry::stop::Stop;
use fc_mdisk::mdisk::Mdisk;
use fc_preset_lines::{mapping_line, start_line, unmake_line, unmap_line};
use fc_store::store::Store;

/// Removes the volume again. Whatever is answered, the line ends.
fn unmake_volume<D: Mdisk>(
    store: &mut Store<D>,
    volume: u32,
    history: &mut History,
) -> Result<(), Stop>
    requires stands { TellsSome (StandsFor store.old) history.old }
    requires room { length history.old.entries ≤ MAX_ENTRIES }
    ensures { AnswersOwn result (Request.Command (unmake_line volume) ∷ []) (Behind.Passing 0)
        store.old store.new history.old history.new }
{
    match store.run_command(unmake_line(volume), history) {
        Ok(_) => Ok(()),
        Err(stop) => Err(stop),
    }
}

/// Removes the mapping again, and then the volume, whatever was answered of the mapping.
fn unmake_both<D: Mdisk>(
    store: &mut Store<D>,
    map: u32,
    volume: u32,
    history: &mut History,
) -> Result<(), Stop>
    requires stands { TellsSome (StandsFor store.old) history.old }
    requires room { length history.old.entries ≤ MAX_ENTRIES }
    ensures { AnswersOwn result
        (Request.Command (unmap_line map) ∷ Request.Command (unmake_line volume) ∷ [])
        (Behind.Passing 0) store.old store.new history.old history.new }
{
    match store.run_command(unmap_line(map), history) {
        Ok(_) => unmake_volume(store, volume, history),
        Err(stop) => Err(stop),
    }
}

/// Starts the mapping. Where that isn't done, the mapping and the volume go.
fn start_mapping<D: Mdisk>(
    store: &mut Store<D>,
    map: u32,
    volume: u32,
    history: &mut History,
) -> Result<(), Stop>
    requires stands { TellsSome (StandsFor store.old) history.old }
    requires room { length history.old.entries ≤ MAX_ENTRIES }
    ensures { AnswersOwn result (Request.Command (start_line map) ∷ []) (Behind.Undo map volume)
        store.old store.new history.old history.new }
{
    match store.run_command(start_line(map), history) {
        Ok(true) => Ok(()),
        Ok(false) => unmake_both(store, map, volume, history),
        Err(stop) => Err(stop),
    }
}

/// Makes the mapping, and then starts it. Where it isn't made, the volume goes.
fn make_mapping<D: Mdisk>(
    store: &mut Store<D>,
    source: Ref,
    preset: Preset,
    name: Option<Name>,
    volume: u32,
    history: &mut History,
) -> Result<(), Stop>
    requires stands { TellsSome (StandsFor store.old) history.old }
    requires room { length history.old.entries ≤ MAX_ENTRIES }
    ensures { AnswersOwn result
        (Request.Command (mapping_line source preset name volume) ∷ []) (Behind.Start volume)
        store.old store.new history.old history.new }
{
    match ask_made(store, mapping_line(source, preset, name, volume), history) {
        Ok(Some(map)) => start_mapping(store, map, volume, history),
        Ok(None) => unmake_volume(store, volume, history),
        Err(stop) => Err(stop),
    }
}

/// Makes the volume, by this line, and then the mapping to it. Where it isn't made, the line ends.
pub(crate) fn make_volume<D: Mdisk>(
    store: &mut Store<D>,
    line: Command,
    source: Ref,
    preset: Preset,
    name: Option<Name>,
    history: &mut History,
) -> Result<(), Stop>
    requires stands { TellsSome (StandsFor store.old) history.old }
    requires room { length history.old.entries ≤ MAX_ENTRIES }
    requires decided { IsDecided line }
    ensures { AnswersOwn result (Request.Command line ∷ []) (Behind.Mapping source preset name)
        store.old store.new history.old history.new }
{
    match ask_made(store, line, history) {
        Ok(Some(volume)) => make_mapping(store, source, preset, name, volume, history),
        Ok(None) => Ok(()),
        Err(stop) => Err(stop),
    }
}
