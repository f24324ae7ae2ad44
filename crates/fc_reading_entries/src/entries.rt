//! An entry of a trace.

ghost use Rattle.std.specs.Prelude.{◌≡◌, ◌≤◌, ◌<◌, ◌^◌, length, IfOk, IfErr, OnErr, OnOk};
ghost use Rattle.fc_reading.specs.Stops.{StopsAt};
ghost use Rattle.fc_reading_notes.specs.Told.{IfMalformed};
ghost use Rattle.fc_reading_entries.specs.Entries.{IsEntryText, ReadNext, calls_or_none, entry_of, with_entry};
ghost use Rattle.fc_reading_notes.specs.declared.notes.NotTold.TheVariants.{NoMemory};

use crate::parts::{Parts, take_parts, turn_of};
use fc_base::size::GrainSize;
use fc_entry::entry::Entry;
use fc_entry::history::History;
use fc_reading_notes::lines::LaneCalls;
use fc_reading_notes::notes::NotTold;
use fc_reading_notes::stop::ReadStop;
use std::alloc::Global;

/// The calls and faults of an entry of a lane, or zeros.
fn calls_or_none(calls: Option<LaneCalls>) -> LaneCalls
    ensures { result ≡ calls_or_none calls }
{
    match calls {
        Some(calls) => calls,
        None => LaneCalls {
            calls: 0,
            faults_before: 0,
            faults_after: 0,
        },
    }
}

/// The entry of these parts, with this number and of this actor.
fn entry_of(size: GrainSize, number: u64, actor: u32, parts: Parts) -> Entry
    ensures { result ≡ entry_of size number actor parts }
{
    let place = turn_of(size, &parts.request);
    let calls = calls_or_none(parts.calls);
    Entry {
        number,
        actor,
        place,
        request: parts.request,
        reply: parts.reply,
        moves: parts.notes.moves,
        effects: parts.notes.effects,
        torn: parts.notes.torn,
        faults_before: calls.faults_before,
        faults_after: calls.faults_after,
        calls: calls.calls,
    }
}

/// Puts an entry behind a history, of an actor with this name. Refused for want of memory, the history is as it
/// was.
fn add(alloc: Global, size: GrainSize, parts: Parts, history: &mut History) -> Result<(), NotTold>
    requires { length history.old.actors < 2 ^ 32 }
    ensures ok { OnOk result (history.new ≡ with_entry size parts history.old) }
    ensures err { OnErr result (history.new ≡ history.old) }
    ensures memory { IfErr result (λ stop. stop ≡ NoMemory) }
{
    let known = history.actors();
    let Ok(actor) = history.actor(alloc, &parts.name) else {
        return Err(NotTold::NoMemory);
    };
    let number = history.len() as u64;
    match history.push(entry_of(size, number, actor, parts)) {
        Ok(()) => Ok(()),
        Err(_) => {
            history.keep_actors(known);
            Err(NotTold::NoMemory)
        }
    }
}

/// Reads the next entry of a history from the front of the bytes, of a store of this size of grains, and puts
/// it behind the others: its length. An actor that isn't known yet gets the next number. Refused with the place
/// of the first byte with which no entry of that number goes on, or the end where the bytes end too early, or
/// for want of memory; then the history is as it was.
pub fn read_entry(
    alloc: Global,
    size: GrainSize,
    history: &mut History,
    bytes: &[u8],
) -> Result<usize, NotTold>
    requires { length history.old.actors < 2 ^ 32 }
    ensures within { IfOk result (λ count. count ≤ length bytes.now) }
    ensures found { IfOk result (λ count. ReadNext size history.old bytes.now count history.new) }
    ensures malformed { IfErr result (λ stop. IfMalformed stop (StopsAt (IsEntryText size (length history.old.entries)) bytes.now)) }
    ensures kept { OnErr result (history.new ≡ history.old) }
{
    match take_parts(alloc, size, history.len() as u64, bytes) {
        Ok((parts, rest)) => match add(alloc, size, parts, history) {
            Ok(()) => Ok(bytes.len() - rest.len()),
            Err(stop) => Err(stop),
        },
        Err(ReadStop::Malformed(stopped)) => Err(NotTold::Malformed(bytes.len() - stopped.left)),
        Err(ReadStop::NoMemory) => Err(NotTold::NoMemory),
    }
}
