//! All that an entry did.

ghost use Rattle.std.specs.Prelude.{◌≡◌, ◌≤◌, IfErr, IfOk, OnErr, OnOk, false, length, take, true};
ghost use Rattle.fc_reading.specs.Pieces.{Reads};
ghost use Rattle.fc_reading.specs.Readers.{one_of_at};
ghost use Rattle.fc_reading.specs.Stops.{StopsAt};
ghost use Rattle.fc_reading_notes.specs.Answers.{ReadsOr};
ghost use Rattle.fc_reading_notes.specs.Lists.{starts_with};
ghost use Rattle.fc_reading_notes.specs.Notes.{any_note_at, no_notes, note_at, note_words, notes_at, still_moving, with_note};
ghost use Rattle.fc_reading_notes.specs.Told.{IfMalformed, IsDone, IsTold, head_at, told_at, told_text};

use crate::lines::{LaneCalls, take_calls, take_effect, take_move, take_torn};
use crate::stop::ReadStop;
use fc_base::list::List;
use fc_base::outcome::NoMemory;
use fc_base::request::{Effect, Move, Torn};
use fc_reading::pieces::{Malformed, one_of, word};
use std::alloc::Global;

/// A line of what an entry did.
#[derive(Drop)]
pub enum Note {
    /// A slot got its own copy of a grain.
    Moved(Move),
    /// A failed write spoiled a grain.
    Spoiled(Torn),
    /// A command changed something.
    Changed(Effect),
}

/// What an entry moved, spoiled and changed.
#[derive(Drop)]
pub struct Notes {
    /// The grains that were moved, in order.
    pub moves: List<Move>,
    /// The grain that a failed write may have left with any bytes.
    pub torn: Option<Torn>,
    /// What was changed, in order.
    pub effects: List<Effect>,
}

/// All that an entry did.
#[derive(Drop)]
pub struct Told {
    /// What it cost in its lane. None where it is no entry of a lane.
    pub calls: Option<LaneCalls>,
    /// What it moved, spoiled and changed.
    pub notes: Notes,
}

/// Takes the line of an effect, as it may stand behind all moves.
fn take_late_note(alloc: Global, bytes: &[u8]) -> Result<(Note, &[u8]), ReadStop>
    ensures { ReadsOr (λ found. (found.0, found.1.now)) result (note_at false bytes.now) }
{
    let words: [&[u8]; 7] = [
        b"+ make ",
        b"+ remove ",
        b"+ trigger\n",
        b"+ trigger ",
        b"+ cut ",
        b"+ state ",
        b"+ gone ",
    ];
    let (index, rest) = one_of(&words, bytes)?;
    match take_effect(alloc, index, rest) {
        Ok((effect, rest)) => Ok((Note::Changed(effect), rest)),
        Err(stop) => Err(stop),
    }
}

/// Takes the word that begins a line of any kind, by its number.
fn take_any_word(bytes: &[u8]) -> Result<(usize, &[u8]), Malformed>
    ensures { Reads (λ found. (found.0, found.1.now)) result (one_of_at note_words bytes.now) }
{
    let words: [&[u8]; 9] = [
        b"+ move ",
        b"+ torn ",
        b"+ make ",
        b"+ remove ",
        b"+ trigger\n",
        b"+ trigger ",
        b"+ cut ",
        b"+ state ",
        b"+ gone ",
    ];
    one_of(&words, bytes)
}

/// Takes what stands behind the word of a line of any kind, which is told by its number.
fn take_behind_word(alloc: Global, word: usize, bytes: &[u8]) -> Result<(Note, &[u8]), ReadStop>
    ensures { ReadsOr (λ found. (found.0, found.1.now)) result (any_note_at word bytes.now) }
{
    match word {
        0 => {
            let (made, rest) = take_move(bytes)?;
            Ok((Note::Moved(made), rest))
        }
        1 => {
            let (torn, rest) = take_torn(bytes)?;
            Ok((Note::Spoiled(torn), rest))
        }
        _ => match take_effect(alloc, word - 2, bytes) {
            Ok((effect, rest)) => Ok((Note::Changed(effect), rest)),
            Err(stop) => Err(stop),
        },
    }
}

/// Takes a line of any kind, as it may stand behind moves alone.
fn take_any_note(alloc: Global, bytes: &[u8]) -> Result<(Note, &[u8]), ReadStop>
    ensures { ReadsOr (λ found. (found.0, found.1.now)) result (note_at true bytes.now) }
{
    let (word, rest) = take_any_word(bytes)?;
    take_behind_word(alloc, word, rest)
}

/// Takes a line: of any kind as long as moves may stand there, else of an effect.
fn take_note(alloc: Global, moving: bool, bytes: &[u8]) -> Result<(Note, &[u8]), ReadStop>
    ensures { ReadsOr (λ found. (found.0, found.1.now)) result (note_at moving bytes.now) }
{
    if moving {
        take_any_note(alloc, bytes)
    } else {
        take_late_note(alloc, bytes)
    }
}

impl Note {
    /// Whether moves may stand behind this line: where they might before it, behind a move.
    fn still_moving(&self, moving: bool) -> bool
        ensures { result ≡ still_moving moving self.now }
    {
        moving && matches!(self, Note::Moved(_))
    }
}

impl Notes {
    /// Nothing. Takes no memory.
    fn new(alloc: Global) -> Self
        ensures { result ≡ no_notes }
    {
        Notes {
            moves: List::new(alloc),
            torn: None,
            effects: List::new(alloc),
        }
    }

    /// Puts what one more line says behind the others. Refused for want of memory, it is as it was.
    fn add(&mut self, note: Note) -> Result<(), NoMemory>
        ensures ok { OnOk result (self.new ≡ with_note self.old note) }
        ensures err { OnErr result (self.new ≡ self.old) }
    {
        match note {
            Note::Moved(made) => self.moves.push(made),
            Note::Spoiled(torn) => {
                self.torn = Some(torn);
                Ok(())
            }
            Note::Changed(effect) => self.effects.push(effect),
        }
    }
}

/// Whether a line of what an entry did begins here.
fn begins_line(bytes: &[u8]) -> bool
    ensures { result ≡ starts_with 43 bytes.now }
{
    !bytes.is_empty() && bytes[0] == b'+'
}

/// Takes all lines of what an entry moved, spoiled and changed.
pub fn take_notes(alloc: Global, bytes: &[u8]) -> Result<(Notes, &[u8]), ReadStop>
    ensures { ReadsOr (λ found. (found.0, found.1.now)) result (notes_at bytes.now) }
{
    let mut notes = Notes::new(alloc);
    let mut moving = true;
    let mut rest = bytes;
    for _ in 0..bytes.len() {
        if !begins_line(rest) {
            return Ok((notes, rest));
        }
        match take_note(alloc, moving, rest) {
            Ok((note, behind)) => {
                moving = note.still_moving(moving);
                notes.add(note)?;
                rest = behind;
            }
            Err(stop) => return Err(stop),
        }
    }
    if begins_line(rest) {
        Err(ReadStop::Malformed(Malformed { left: rest.len() }))
    } else {
        Ok((notes, rest))
    }
}

/// Takes the calls and faults of an entry of a lane, and nothing of another.
pub fn take_head(in_lane: bool, bytes: &[u8]) -> Result<(Option<LaneCalls>, &[u8]), Malformed>
    ensures { Reads (λ found. (found.0, found.1.now)) result (head_at in_lane bytes.now) }
{
    if in_lane {
        let (calls, rest) = take_calls(bytes)?;
        Ok((Some(calls), rest))
    } else {
        Ok((None, bytes))
    }
}

/// Takes all that an entry did, and the line that ends it.
fn take_told(alloc: Global, in_lane: bool, bytes: &[u8]) -> Result<(Told, &[u8]), ReadStop>
    ensures { ReadsOr (λ found. (found.0, found.1.now)) result (told_at in_lane bytes.now) }
{
    let (calls, rest) = take_head(in_lane, bytes)?;
    match take_notes(alloc, rest) {
        Ok((notes, rest)) => {
            let rest = word(b".\n", rest)?;
            Ok((Told { calls, notes }, rest))
        }
        Err(stop) => Err(stop),
    }
}

/// Why the lines of what an entry did aren't read.
#[derive(Clone, Copy)]
pub enum NotTold {
    /// The byte at this place, or the end there, can't go on what was begun.
    Malformed(usize),
    /// Memory was wanted and not had.
    NoMemory,
}

/// Reads from the front of the bytes what an entry without a report did, as far as its line `.`: what the lines
/// say, and their length. An entry of a lane has a line of calls and faults. Refused with the place of the
/// first byte with which no such lines go on, or the end where the bytes end too early; or for want of memory.
pub fn read_told(alloc: Global, in_lane: bool, bytes: &[u8]) -> Result<(Told, usize), NotTold>
    ensures within { IfOk result (λ found. found.1 ≤ length bytes.now) }
    ensures found { IfOk result (λ found. take found.1 bytes.now ≡ told_text found.0) }
    ensures fits { IfOk result (λ found. IsDone in_lane found.0) }
    ensures malformed { IfErr result (λ stop. IfMalformed stop (StopsAt (IsTold in_lane) bytes.now)) }
{
    match take_told(alloc, in_lane, bytes) {
        Ok((told, rest)) => Ok((told, bytes.len() - rest.len())),
        Err(ReadStop::Malformed(stopped)) => Err(NotTold::Malformed(bytes.len() - stopped.left)),
        Err(ReadStop::NoMemory) => Err(NotTold::NoMemory),
    }
}
