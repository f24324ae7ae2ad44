//! Whether the effects of an entry are those of what it asks.

use crate::made::Made;
use crate::verdict::{Halt, Why};
use fc_base::command::Command;
use fc_base::ids::VolId;
use fc_base::request::{Effect, Pair, Reply, Request};
use fc_entry::entry::Entry;

/// The command of an entry that was done, or made something.
fn done_command(entry: &Entry) -> Option<&Command> {
    match (&entry.request, &entry.reply) {
        (Request::Command(command), Reply::Done | Reply::Made { .. }) => Some(command),
        _ => None,
    }
}

/// Whether the command has an effect of its own beside states, cuts and mappings that go: it makes or removes a volume, or
/// starts copies.
fn has_own_effect(command: &Command) -> bool {
    match command {
        Command::Mkvdisk { .. }
        | Command::Rmvdisk { .. }
        | Command::Startfcmap { .. }
        | Command::Startfcconsistgrp { .. } => true,
        _ => false,
    }
}

/// Whether the entry starts copies, and is done.
fn is_start(entry: &Entry) -> bool {
    match done_command(entry) {
        Some(Command::Startfcmap { .. } | Command::Startfcconsistgrp { .. }) => true,
        _ => false,
    }
}

/// Whether a volume of so many grains is made by the entry.
fn makes(made: &Made, entry: &Entry, volume: VolId, grains: u32) -> bool {
    match done_command(entry) {
        Some(Command::Mkvdisk { size, unit, .. }) => {
            volume.0 == made.volumes.next() && grains == made.grains_of(*size, *unit)
        }
        _ => false,
    }
}

/// Whether the volume is removed by the entry.
fn removes(made: &Made, entry: &Entry, volume: VolId) -> bool {
    match done_command(entry) {
        Some(Command::Rmvdisk { volume: named }) => match made.volumes.named(named) {
            Some(found) => found.id == volume.0,
            None => false,
        },
        _ => false,
    }
}

/// Whether the pairs are those of the mappings that the entry starts.
fn triggers(made: &Made, entry: &Entry, pairs: &[Pair]) -> bool {
    let Some(command) = done_command(entry) else {
        return false;
    };
    match made.started_by(command) {
        Some(started) => made.are_pairs_of(started, pairs),
        None => false,
    }
}

/// Whether an effect that is a command's own may stand in the entry.
fn is_own(made: &Made, entry: &Entry, effect: &Effect) -> Result<bool, Halt> {
    match effect {
        Effect::Make { volume, grains } if makes(made, entry, *volume, *grains) => Ok(true),
        Effect::Remove { volume } if removes(made, entry, *volume) => Ok(true),
        Effect::Trigger { pairs } if triggers(made, entry, pairs.as_slice()) => Ok(true),
        Effect::Trigger { .. } => Err(Halt::Wrong(Why::Trigger)),
        Effect::Make { .. } | Effect::Remove { .. } => Err(Halt::Wrong(Why::Effect)),
        Effect::Cut { .. } | Effect::State { .. } | Effect::Gone { .. } => Ok(false),
    }
}

/// A mapping that went is known no more.
fn forget_gone(made: &mut Made, effect: &Effect) -> Result<(), Halt> {
    match effect {
        Effect::Gone { map } => {
            if made.mappings.with_id(map.0).is_none() {
                return Err(Halt::Wrong(Why::Effect));
            }
            made.mappings.remove(map.0);
            Ok(())
        }
        _ => Ok(()),
    }
}

/// Whether a removed mapping is gone, if the entry removes one: its id is `removed`.
fn went(made: &Made, removed: Option<u32>) -> Result<(), Halt> {
    match removed {
        Some(id) if made.mappings.with_id(id).is_some() => Err(Halt::Wrong(Why::Effect)),
        _ => Ok(()),
    }
}

/// The mapping that the entry removes, if it does.
fn removed_by(made: &Made, entry: &Entry) -> Option<u32> {
    match done_command(entry) {
        Some(Command::Rmfcmap { map, .. }) => match made.mappings.named(map) {
            Some(mapping) => Some(mapping.id),
            None => None,
        },
        _ => None,
    }
}

/// Whether all effects of an entry are its own: a volume made or removed, or copies started, exactly once where its command does
/// so, and else none of these. Mappings that went are known no more then.
pub(crate) fn effects_fit(made: &mut Made, entry: &Entry) -> Result<(), Halt> {
    let removed = removed_by(made, entry);
    let mut own = 0u32;
    for effect in entry.effects.as_slice() {
        if is_own(made, entry, effect)? {
            own = own.saturating_add(1);
        }
        forget_gone(made, effect)?;
    }
    let wanted = match done_command(entry) {
        Some(command) => u32::from(has_own_effect(command)),
        None => 0,
    };
    if own == wanted {
        went(made, removed)
    } else if is_start(entry) {
        Err(Halt::Wrong(Why::Trigger))
    } else {
        Err(Halt::Wrong(Why::Effect))
    }
}
