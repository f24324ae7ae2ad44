//! A whole session.

ghost use Rattle.std.specs.Prelude.{◌≡◌, ◌≤◌, [], length};
ghost use Rattle.fc_entry.specs.Text.{HasNames};
ghost use Rattle.fc_run.specs.Headline.{SessionEnds};
ghost use Rattle.fc_run.specs.Output.{IsPut};
ghost use Rattle.fc_run.specs.ReadTo.{SessionRead, is_write_fault};
ghost use Rattle.fc_run.specs.Takes.{EachGave};

use crate::answers::Answers;
use crate::ended::Ended;
use crate::ending::ended_by;
use crate::form::Form;
use crate::lines::answer_last;
use crate::output::Output;
use crate::reading::{Ending, PIECE_BYTES, read_pieces, zeros};
use fc_entry::history::History;
use fc_entry::stop::Stop;
use fc_io::sink::Sink;
use fc_io::source::Source;
use std::alloc::Global;

/// Reads a source to its end, answers its lines, and writes the answers to those that ended before more was taken.
fn read_session<S: Source, K: Sink, A: Answers>(
    alloc: Global,
    source: &mut S,
    output: &mut Output,
    sink: &mut K,
    answers: &mut A,
    history: &mut History,
) -> Ending
    requires fresh { (start : A.Start) × (A.runs answers.old start).Whole [] history.old }
    requires first_entry { history.old.entries ≡ [] }
    requires first_put { output.old.put ≡ 0 }
    ensures read { (start : A.Start) → (A.runs answers.old start).Whole [] history.old
        → SessionRead result (S.meaning source.old) (S.meaning source.new) (A.runs answers.new start) history.new }
    ensures form { output.new.form ≡ output.old.form }
    ensures within { output.new.put ≤ length history.new.entries }
    ensures put { IsPut (K.meaning sink.old) output.old.form output.new.put history.new (is_write_fault result) (K.meaning sink.new) }
    ensures named { HasNames history.new }
    ensures limit { length history.new.entries ≤ 262144 }
{
    let mut buffer = match zeros(alloc, PIECE_BYTES) {
        Ok(buffer) => buffer,
        Err(_) => return Ending::Stopped(Stop::NoMemory),
    };
    let mut line = Vec::new(alloc);
    let ending = read_pieces(
        source,
        output,
        sink,
        &mut buffer,
        &mut line,
        answers,
        history,
    );
    match ending {
        Ending::End => match answer_last(line.as_slice(), answers, history) {
            Ok(()) => {
                if answers.is_open() {
                    Ending::Unended
                } else {
                    Ending::End
                }
            }
            Err(stop) => Ending::Stopped(stop),
        },
        other => other,
    }
}

/// Runs a session of which nothing is answered yet: reads it to its end, answers its lines and writes the history in this
/// form. The first line of a trace is put before anything is taken; the text of each answer, or its trace, is put and sent on
/// before more input is taken, a summary at the end; where the sink fails before the end of input, nothing more is taken and
/// nothing more is put.
pub fn run_session<S: Source, K: Sink, A: Answers>(
    alloc: Global,
    form: Form,
    source: &mut S,
    sink: &mut K,
    answers: &mut A,
    history: &mut History,
) -> Ended
    requires fresh { (start : A.Start) × (A.runs answers.old start).Whole [] history.old }
    requires first_entry { history.old.entries ≡ [] }
    ensures ends { (start : A.Start) → (A.runs answers.old start).Whole [] history.old → SessionEnds
        (record {
          ended = result;
          form = form;
          source = S.meaning source.old;
          source' = S.meaning source.new;
          sink = K.meaning sink.old;
          sink' = K.meaning sink.new;
          history = history.new;
        }) (A.runs answers.new start) }
    ensures takes { EachGave (S.meaning source.old) (S.meaning source.new) }
    ensures named { HasNames history.new }
    ensures limit { length history.new.entries ≤ 262144 }
{
    let mut output = Output::new(form);
    match output.begin(sink) {
        Ok(()) => {
            let ending = read_session(alloc, source, &mut output, sink, answers, history);
            match ending {
                Ending::WriteFault => Ended::WriteFault,
                _ => ended_by(ending, &output.write_rest(history, sink)),
            }
        }
        Err(_) => Ended::WriteFault,
    }
}
