//! From a source to answered lines, and their answers to a sink.

ghost use Rattle.std.specs.Prelude.{◌≡◌, ◌≤◌, ◌<◌, ℕ, List, [], length, IfOk};
ghost use Rattle.fc_entry.specs.Text.{HasNames};
ghost use Rattle.fc_run.specs.Output.{IsPut};
ghost use Rattle.fc_run.specs.Progress.{CanFeed, Progress};
ghost use Rattle.fc_run.specs.ReadTo.{Turned, TurnWithin, ReadTo, PastLimit, is_write_fault};
ghost use Rattle.fc_run.specs.Runs.{GrowsTo};
ghost use Rattle.fc_run.specs.Taking.{GaveAny, TurnGave};

use crate::answers::Answers;
use crate::lines::feed;
use crate::output::Output;
use fc_base::outcome::NoMemory;
use fc_entry::history::History;
use fc_entry::stop::Stop;
use fc_io::sink::Sink;
use fc_io::source::Source;
use std::alloc::Global;

/// How one turn of reading ends.
#[derive(Clone, Copy)]
pub enum Turn {
    /// So many bytes were taken, and the lines that ended in them answered.
    More(usize),
    /// The input is at its end.
    End,
    /// The source failed.
    Fault,
    /// So many bytes were taken, and answering stopped in the midst of them.
    Stopped(usize, Stop),
}

/// How reading ends.
#[derive(Clone, Copy)]
pub enum Ending {
    /// The input is at its end.
    End,
    /// The input is at its end, inside something that it opened. Reading pieces never ends so: it is known when the last line
    /// was answered.
    Unended,
    /// The source failed.
    ReadFault,
    /// A byte past the greatest input was taken.
    TooLong,
    /// The sink failed, and no more was taken.
    WriteFault,
    /// Answering stopped.
    Stopped(Stop),
}

/// Takes one piece into the buffer, and answers the lines that end in it.
fn take_turn<S: Source, A: Answers>(
    source: &mut S,
    buffer: &mut [u8],
    line: &mut Vec<u8>,
    answers: &mut A,
    history: &mut History,
) -> Turn
    requires some { 0 < length buffer.old }
    requires can { CanFeed (A.runs answers.old) line.old.items history.old }
    ensures turned { (start : A.Start) (bytes : List ℕ) → Progress (A.runs answers.old start) bytes line.old.items history.old
        → Turned result (length buffer.old) (S.meaning source.old) (S.meaning source.new)
        (A.runs answers.new start) bytes line.new.items history.new }
    ensures within { TurnWithin result (length buffer.old) }
    ensures took { TurnGave result (S.meaning source.old) (S.meaning source.new) }
    ensures faults { (S.meaning source.old).faults ≤ (S.meaning source.new).faults }
    ensures named { HasNames history.old → HasNames history.new }
    ensures grows { GrowsTo history.old history.new }
    ensures limit { length history.new.entries ≤ 262144 }
{
    match source.take(buffer) {
        Ok(0) => Turn::End,
        Ok(n) => match feed(&buffer[..n], line, answers, history) {
            Ok(()) => Turn::More(n),
            Err(stop) => Turn::Stopped(n, stop),
        },
        Err(_) => Turn::Fault,
    }
}

/// The greatest number of bytes of a piece.
pub const PIECE_BYTES: usize = 65_536;

/// The greatest input.
const INPUT_BYTES: usize = 67_108_864;

/// Asks for the byte past the greatest input.
fn ask_past_limit<S: Source>(source: &mut S, one: &mut [u8]) -> Ending
    requires { length one.old ≡ 1 }
    ensures ends { PastLimit result (S.meaning source.old) (S.meaning source.new) }
    ensures took { GaveAny (S.meaning source.old) (S.meaning source.new) }
    ensures faults { (S.meaning source.old).faults ≤ (S.meaning source.new).faults }
{
    match source.take(one) {
        Ok(0) => Ending::End,
        Ok(_) => Ending::TooLong,
        Err(_) => Ending::ReadFault,
    }
}

/// Reads a source from its first byte on, piece by piece through the buffer, and answers the lines that end. Before each
/// further call of the source the answers are written; where they can't be, none is made.
pub fn read_pieces<S: Source, K: Sink, A: Answers>(
    source: &mut S,
    output: &mut Output,
    sink: &mut K,
    buffer: &mut [u8],
    line: &mut Vec<u8>,
    answers: &mut A,
    history: &mut History,
) -> Ending
    requires some { 0 < length buffer.old }
    requires fresh { (start : A.Start) × (A.runs answers.old start).Whole [] history.old }
    requires first_entry { history.old.entries ≡ [] }
    requires first_line { line.old.items ≡ [] }
    requires first_put { output.old.put ≡ 0 }
    ensures read { (start : A.Start) → (A.runs answers.old start).Whole [] history.old
        → ReadTo result (S.meaning source.old) (S.meaning source.new) (A.runs answers.new start) line.new.items history.new }
    ensures form { output.new.form ≡ output.old.form }
    ensures within { output.new.put ≤ length history.new.entries }
    ensures put { IsPut (K.meaning sink.old) output.old.form output.new.put history.new (is_write_fault result) (K.meaning sink.new) }
    ensures named { HasNames history.new }
    ensures limit { length history.new.entries ≤ 262144 }
{
    let mut taken = 0;
    while taken < INPUT_BYTES {
        let most = buffer.len().min(INPUT_BYTES - taken);
        match take_turn(source, &mut buffer[..most], line, answers, history) {
            Turn::More(n) => taken += n,
            Turn::End => return Ending::End,
            Turn::Fault => return Ending::ReadFault,
            Turn::Stopped(_, stop) => return Ending::Stopped(stop),
        }
        if output.write_new(history, sink).is_err() {
            return Ending::WriteFault;
        }
    }
    ask_past_limit(source, &mut buffer[..1])
}

/// So many zeros.
pub fn zeros(alloc: Global, count: usize) -> Result<Vec<u8>, NoMemory>
    ensures { IfOk result (λ bytes. length bytes.items ≡ count) }
{
    match vec![in alloc; 0u8; count] {
        Ok(bytes) => Ok(bytes),
        Err(_) => Err(NoMemory),
    }
}
