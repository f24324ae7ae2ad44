//! The entries of a trace, judged by the session that stands behind it.

ghost use Rattle.std.specs.Prelude.{◌≡◌, ◌≤◌, ◌<◌, ◌++◌, List, ℕ, length, take, slice_index, IfErr, IfOk};
ghost use Rattle.fc_check.specs.Progress.{AnswerSoFar, Follows, HaveNames, IsJudged, IsSaidWith, IsSessionLine};
ghost use Rattle.fc_check.specs.Traces.{IsTraceOf, session_line};
ghost use Rattle.fc_reading.specs.Stops.{StopsAt};
ghost use Rattle.fc_trace.specs.declared.header.Header.{Header};

use crate::verdict::Verdict;
use fc_base::outcome::NoMemory;
use fc_check_answers::Answering;
use fc_entry::history::History;
use fc_entry::stop::Stop;
use fc_reading::pieces::word;
use fc_trace::header::Header;
use std::alloc::Global;

/// Takes the line of a session from the front of the bytes: what stands behind it. Refused, with the place of the first byte with which
/// the line doesn't go on, or the end where the bytes end too early.
pub fn take_line(bytes: &[u8]) -> Result<&[u8], usize>
    ensures behind { IfOk result (λ session. bytes.now ≡ session_line ++ session.now) }
    ensures malformed { IfErr result (λ place. StopsAt IsSessionLine bytes.now place) }
{
    match word(b"session\n", bytes) {
        Ok(session) => Ok(session),
        Err(stopped) => Err(bytes.len() - stopped.left),
    }
}

/// Goes on behind the entry with this number, and answers whether the session asks for it there, and it is right. Where memory is
/// wanted, the answers may stand for anything.
fn follow_entry(
    alloc: Global,
    history: &History,
    number: usize,
    answering: &mut Answering,
) -> Result<bool, NoMemory>
    requires there { number < length history.now.entries }
    requires room { length history.now.entries ≤ 262144 }
    requires names { HaveNames history.now }
    requires counted { answering.old.entries ≡ number }
    ensures { IfOk result (λ stands. (header : Header) (session : List ℕ) → AnswerSoFar header history.now session number answering.old
        → Follows stands header history.now session number answering.new) }
{
    let entry = history.entry(number);
    match answering.follow(alloc, history.actor_name(entry.actor).as_bytes(), entry) {
        Ok(()) => Ok(!answering.is_empty()),
        Err(refused) => Err(refused),
    }
}

/// What is said of the entries of a history with the session behind its trace.
fn judge_history(
    alloc: Global,
    header: &Header,
    history: &History,
    session: &[u8],
) -> Result<Verdict, NoMemory>
    requires room { length history.now.entries ≤ 262144 }
    requires names { HaveNames history.now }
    ensures { IfOk result (λ verdict. IsSaidWith verdict header.now history.now session.now) }
{
    let mut answering = match Answering::open(alloc, header.grain, &header.lanes, session) {
        Ok(answering) => answering,
        Err(refused) => return Err(refused),
    };
    for number in 0..history.len() {
        match follow_entry(alloc, history, number, &mut answering) {
            Ok(true) => {}
            Ok(false) => return Ok(Verdict::No(number as u64)),
            Err(refused) => return Err(refused),
        }
    }
    let count = history.len() as u64;
    if answering.is_over() {
        return Ok(Verdict::Yes(count));
    }
    Ok(Verdict::No(count))
}

/// Judges bytes that are a trace up to this place, where an `s` stands: the line of a session must, and its bytes behind it.
pub(crate) fn judge_session(
    alloc: Global,
    header: &Header,
    history: &History,
    place: usize,
    bytes: &[u8],
) -> Result<Verdict, Stop>
    requires there { place < length bytes.now }
    requires letter { slice_index bytes.now place ≡ 115 }
    requires trace { IsTraceOf header.now history.now (take place bytes.now) }
    requires room { length history.now.entries ≤ 262144 }
    ensures { IsJudged result bytes.now }
{
    match take_line(&bytes[place..]) {
        Ok(session) => match judge_history(alloc, header, history, session) {
            Ok(verdict) => Ok(verdict),
            Err(NoMemory) => Err(Stop::NoMemory),
        },
        Err(stopped) => Ok(Verdict::Malformed((place + stopped) as u64)),
    }
}
