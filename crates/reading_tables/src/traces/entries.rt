//! Entries, one behind the other, from number 0 on.
//!
//! Behind their length, or the place at which they stop, stands how many actors the history knows by then, and under whose turns
//! each of its entries is made: `82 by 1: lane 1, every`. Where it knows none, nothing stands there.

use crate::traces::printed::print_entries;
use crate::traces::reading::Reading;
use fc_base::request::Place;
use fc_base::size::GrainSize;
use fc_entry::history::History;
use fc_reading_entries::entries::read_entry;
use fc_reading_notes::notes::NotTold;
use std::alloc::{AllocError, Global};

/// The greatest number of actors of a text.
const ACTORS: usize = 100;

/// Adds under whose turns an entry is made.
fn add_place(answer: &mut String, alloc: Global, place: Place) -> Result<(), AllocError> {
    match place {
        Place::Every => answer.push_str("every"),
        Place::Control => answer.push_str("control"),
        Place::Lane(lane) => answer.push_str(format!(in alloc; "lane {lane}")?.as_str()),
    }
}

/// Adds what the text doesn't say by itself: how many actors there are, and the places of all entries.
fn add_places(answer: &mut String, alloc: Global, history: &History) -> Result<(), AllocError> {
    let actors = history.actors();
    answer.push_str(format!(in alloc; " by {actors}")?.as_str())?;
    for index in 0..history.len() {
        answer.push_str(if index == 0 { ": " } else { ", " })?;
        add_place(answer, alloc, history.entry(index).place)?;
    }
    Ok(())
}

/// What came of reading entries.
#[derive(Drop)]
struct EntriesRead {
    /// The entries.
    history: History,
    /// How many bytes they have.
    length: usize,
    /// Why no more were read; none where no bytes were left.
    stop: Option<NotTold>,
}

/// Reads one entry and all that stand behind it.
fn read_all(alloc: Global, size: GrainSize, text: &[u8]) -> EntriesRead {
    let mut history = History::new(alloc);
    let mut rest = text;
    let mut stop = None;
    for _ in 0..=text.len() {
        if history.actors() > ACTORS {
            break;
        }
        match read_entry(alloc, size, &mut history, rest) {
            Ok(count) => rest = &rest[count..],
            Err(why) => {
                stop = Some(why);
                break;
            }
        }
        if rest.is_empty() {
            break;
        }
    }
    let length = text.len().saturating_sub(rest.len());
    EntriesRead {
        history,
        length,
        stop,
    }
}

/// Reads one entry and all that stand behind it.
pub fn read_entries(alloc: Global, size: GrainSize, text: &[u8]) -> Result<Reading, AllocError> {
    let EntriesRead {
        history,
        length,
        stop,
    } = read_all(alloc, size, text);
    let mut answer = match stop {
        None => format!(in alloc; "{length}")?,
        Some(NotTold::Malformed(place)) => {
            let place = length.saturating_add(place);
            format!(in alloc; "stops {place}")?
        }
        Some(NotTold::NoMemory) => return Err(AllocError),
    };
    if history.actors() > 0 {
        add_places(&mut answer, alloc, &history)?;
    }
    let printed = print_entries(alloc, &history)?;
    Ok(Reading {
        answer,
        length,
        printed,
    })
}
