//! The top call.

ghost use Rattle.std.specs.Prelude.{◌≡◌, ◌<◌, ◌^◌, ℕ, true, Some, map, vec_len};
ghost use Rattle.std.specs.List.{All};
ghost use Rattle.fc_args.specs.Grammar.{asked_by, is_offered};
ghost use Rattle.fc_call.specs.Call.{empty};
ghost use Rattle.fc_mdisk.specs.Disk.{IsFresh};
ghost use Rattle.fc_top.specs.Theorem.{Theorem};

use crate::drill::run_drill;
use crate::gate::Gate;
use crate::plain::run_plain;
use crate::status::Status;
use crate::traced::run_form;
use fc_args::asked::Asked;
use fc_args::reading::read_words;
use fc_base::outcome::NoMemory;
use fc_entry::history::History;
use fc_io::sink::Sink;
use fc_io::source::Source;
use fc_mdisk::mdisk::Mdisk;
use fc_stopped::run_until;
use fc_verdict::check::run_check;
use std::alloc::Global;
use std::sync::Wait;
use std::thread::Threads;

/// Runs what is asked for, over any disks. What isn't built isn't asked for.
fn run_asked<R: Threads + Wait + Sync, S: Source, K: Sink, D: Mdisk + Send, G: Gate>(
    rt: &R,
    alloc: Global,
    asked: Asked,
    source: &mut S,
    sink: &mut K,
    disks: &mut Vec<D>,
    gate: &G,
    history: &mut History,
) -> Status
    requires built { is_offered asked ≡ true }
    requires counted { (call : ℕ) → asked ≡ Asked.Stop call → 0 < call }
    requires empty { history.old ≡ empty }
    requires few { vec_len disks.old < 2 ^ 30 }
    requires fresh { All IsFresh (map D.meaning disks.old.items) }
    ensures theorem { Theorem (Some asked)
        (record {
          status = result;
          source = S.meaning source.old;
          source' = S.meaning source.new;
          sink = K.meaning sink.old;
          sink' = K.meaning sink.new;
          disks = map D.meaning disks.old.items;
          disks' = map D.meaning disks.new.items;
          history = history.new;
        }) }
{
    match asked {
        Asked::Run(options) => {
            let form = run_form(options, disks.as_slice());
            run_plain(
                rt,
                alloc,
                form,
                options.grain,
                source,
                sink,
                disks,
                gate,
                history,
            )
        }
        Asked::Drill(number) => run_drill(rt, alloc, number, sink, disks, gate, history),
        Asked::Check => run_check(alloc, source, sink),
        Asked::Stop(call) => run_until(alloc, call, source, sink, disks, history),
    }
}

/// `flashcopy` over any disks.
pub fn flashcopy_over<R: Threads + Wait + Sync, S: Source, K: Sink, G: Gate, D: Mdisk + Send>(
    rt: &R,
    alloc: Global,
    words: &[&str],
    source: &mut S,
    sink: &mut K,
    disks: &mut Vec<D>,
    gate: &G,
    history: &mut History,
) -> Status
    requires empty { history.old ≡ empty }
    requires few { vec_len disks.old < 2 ^ 30 }
    requires fresh { All IsFresh (map D.meaning disks.old.items) }
    ensures theorem { Theorem (asked_by (map (λ word. word.now) words.now))
        (record {
          status = result;
          source = S.meaning source.old;
          source' = S.meaning source.new;
          sink = K.meaning sink.old;
          sink' = K.meaning sink.new;
          disks = map D.meaning disks.old.items;
          disks' = map D.meaning disks.new.items;
          history = history.new;
        }) }
{
    match read_words(alloc, words) {
        Ok(Some(asked)) => run_asked(rt, alloc, asked, source, sink, disks, gate, history),
        Ok(None) => Status::Usage,
        Err(NoMemory) => Status::NoMemory,
    }
}

/// The disks as the program has them: of any kind, each in a box of its own.
pub type BoxedDisk = Box<dyn Mdisk + Send>;

/// Runs a session: reads it from the source to its end, answers its lines over the disks, and writes the text of each answer to the
/// sink before more input is taken; or its trace, behind a first line that says what the store is made of. For a drill the session
/// is the generated one of a number, the source isn't touched, and the summary of the history is written. For a check a trace is taken
/// from the source, with the session behind it, if there is one, and judged; the line of its verdict is written, and the history stays
/// empty. For a stop the session is run with its metadata on a disk that fails at a call, and the entries that were answered, how far it
/// came and what is recovered are written.
///
/// The words are those of docs/MANUAL.md (fc_args' specs/Grammar). Where they aren't in the grammar the answer is Usage, or NoMemory
/// where memory was wanted before that was known, and nothing is done. The history has to be empty, and the disks fresh: no calls,
/// no faults, nothing armed, and fewer than 2^30 of them. Each answer stands in docs/MANUAL.md ("Statuses").
///
/// The main theorem (specs/Theorem) is all that is promised, for each answer: the history that is left is legal and has the
/// actors that are told; by the answer it is known which bytes were taken, which of their lines the history answers, and what was
/// written and sent on (specs/PlainEnds, and fc_run's specs/Headline; of a check fc_verdict's specs/CheckEnds, of a stop fc_stopped's
/// specs/Stopped); the disks come back as
/// specs/DisksBack says; where no call failed and there is room it is done, and where no disk failed its accesses are answered, but
/// for want of memory (specs/Complete). Two calls that ask for the same, and in which nothing failed, write the same, but for the
/// faults that a trace tells (`law_outcome`). Each call of the source but the last gives a byte or more (fc_run's specs/Takes). The
/// actors of a block are threads of the runtime, and the gate only delays them: it is reached by each actor at each of its requests.
/// A call over a session with blocks may wait.
pub fn flashcopy<R: Threads + Wait + Sync, S: Source, K: Sink, G: Gate>(
    rt: &R,
    alloc: Global,
    words: &[&str],
    source: &mut S,
    sink: &mut K,
    disks: &mut Vec<BoxedDisk>,
    gate: &G,
    history: &mut History,
) -> Status
    requires empty { history.old ≡ empty }
    requires few { vec_len disks.old < 2 ^ 30 }
    requires fresh { All IsFresh (map ⟦<BoxedDisk as Mdisk>⟧.meaning disks.old.items) }
    ensures theorem { Theorem (asked_by (map (λ word. word.now) words.now))
        (record {
          status = result;
          source = S.meaning source.old;
          source' = S.meaning source.new;
          sink = K.meaning sink.old;
          sink' = K.meaning sink.new;
          disks = map ⟦<BoxedDisk as Mdisk>⟧.meaning disks.old.items;
          disks' = map ⟦<BoxedDisk as Mdisk>⟧.meaning disks.new.items;
          history = history.new;
        }) }
{
    flashcopy_over(rt, alloc, words, source, sink, disks, gate, history)
}
