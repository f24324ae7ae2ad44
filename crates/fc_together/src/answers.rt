//! What actors were answered, told: why they stopped, and their entries at the history's end.

ghost use Rattle.std.specs.Prelude.{◌≡◌, ◌+◌, ◌≤◌, ◌++◌, List, length, map, vec_len, vec_capacity};
ghost use Rattle.std.specs.Prelude.{IfOk};
ghost use Rattle.fc_entry.specs.declared.entry.Entry.{Entry};
ghost use Rattle.law_together.specs.Making.{AreDrawn, AreMakings, all_made, own_of, with_number};
ghost use Rattle.fc_together.specs.Answers.{AnswersTold, making_of, makings_of};
ghost use Rattle.fc_together.specs.Answers.{one_stops, stops_for, why_stopped};

use fc_actors::script::ActorScript;
use fc_base::outcome::NoMemory;
use fc_entry::entry::Entry;
use fc_entry::history::History;
use fc_entry::stop::Stop;
use fc_mdisk::mdisk::Mdisk;
use fc_merge::merging::merge;
use fc_merge::own::OwnEntries;
use fc_tasks::actor::Answered;
use std::alloc::Global;
use std::collections::VecDeque;

/// Whether an actor stopped for this reason.
fn has_stopped<E, S>(answered: &Answered<E, S>, stop: Stop) -> bool
    ensures { result ≡ stops_for stop answered.now.stop }
{
    match (stop, answered.stop) {
        (Stop::LogFull, Some(Stop::LogFull)) => true,
        (Stop::NoMemory, Some(Stop::NoMemory)) => true,
        _ => false,
    }
}

/// Whether one of the actors stopped for this reason.
fn one_stopped<E, S>(answers: &[Answered<E, S>], stop: Stop) -> bool
    ensures { result ≡ one_stops stop answers.now }
{
    answers.iter().any(|answered| has_stopped(answered, stop))
}

/// Why actors stopped before the ends of their scripts, if one did.
fn why_stopped<E, S>(answers: &[Answered<E, S>]) -> Option<Stop>
    ensures { result ≡ why_stopped answers.now }
{
    if one_stopped(answers, Stop::NoMemory) {
        Some(Stop::NoMemory)
    } else if one_stopped(answers, Stop::LogFull) {
        Some(Stop::LogFull)
    } else {
        None
    }
}

/// Moves entries, each with the number that was drawn for it, to the end of a list that has room
/// for them.
fn move_numbered(made: &mut Vec<(u64, Entry)>, entries: &mut Vec<Entry>)
    requires { vec_len entries.old + vec_len made.old ≤ vec_capacity entries.old }
    ensures { entries.new.items ≡ entries.old.items ++ map with_number made.old.items }
{
    for (number, entry) in made.drain(..) {
        entries.push_reserved(Entry { number, ..entry });
    }
}

/// What an actor was answered, with the numbers that were drawn for it. Refused for want of memory
/// alone.
fn own_entries<D: Mdisk>(
    alloc: Global,
    answered: Answered<Entry, ActorScript<D>>,
) -> Result<OwnEntries, NoMemory>
    ensures { IfOk result (λ own. own ≡ own_of (making_of answered)) }
{
    let Answered { mut made, left, .. } = answered;
    let Ok(mut entries) = Vec::with_capacity(alloc, made.len()) else {
        return Err(NoMemory);
    };
    move_numbered(&mut made, &mut entries);
    Ok(OwnEntries {
        actor: left.number(),
        entries: VecDeque::from(entries),
    })
}

/// What each actor was answered, in order. Refused for want of memory alone.
fn own_lists<D: Mdisk>(
    alloc: Global,
    mut answers: Vec<Answered<Entry, ActorScript<D>>>,
) -> Result<Vec<OwnEntries>, NoMemory>
    ensures { IfOk result (λ lists. lists.items ≡ map own_of (makings_of answers.items)) }
{
    let Ok(mut lists) = Vec::with_capacity(alloc, answers.len()) else {
        return Err(NoMemory);
    };
    for answered in answers.drain(..) {
        match own_entries(alloc, answered) {
            Ok(own) => lists.push_reserved(own),
            Err(NoMemory) => return Err(NoMemory),
        }
    }
    Ok(lists)
}

/// Puts what actors were answered at the history's end, by number, and says why they stopped
/// before the ends of their scripts: `NoMemory` if one did for want of memory, and else `LogFull` if
/// one did at the limit. `NoMemory` also where memory is wanted here: then the first of the entries
/// stand there, or none.
pub(crate) fn tell_answers<D: Mdisk>(
    alloc: Global,
    answers: Vec<Answered<Entry, ActorScript<D>>>,
    history: &mut History,
) -> Result<(), Stop>
    requires made { AreMakings (makings_of answers.items) }
    requires drawn { (entries : List Entry)
        × AreDrawn (length history.old.entries) entries (all_made (makings_of answers.items)) }
    ensures told { AnswersTold result answers.items history.old history.new }
{
    let why = why_stopped(answers.as_slice());
    let mut lists = match own_lists(alloc, answers) {
        Ok(lists) => lists,
        Err(NoMemory) => return Err(Stop::NoMemory),
    };
    match merge(&mut lists, history) {
        Ok(()) => match why {
            Some(stop) => Err(stop),
            None => Ok(()),
        },
        Err(NoMemory) => Err(Stop::NoMemory),
    }
}
