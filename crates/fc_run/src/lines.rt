//! From bytes to lines.

ghost use Rattle.std.specs.Prelude.{◌≡◌, ◌≤◌, ℕ, List, [], ◌∷◌, length};
ghost use Rattle.fc_entry.specs.Lines.{all_lines, without_return};
ghost use Rattle.fc_entry.specs.Text.{HasNames};
ghost use Rattle.fc_run.specs.Progress.{CanFeed, Feeds, LinesEnd, Progress};
ghost use Rattle.fc_run.specs.Runs.{GrowsTo};

use crate::answers::Answers;
use fc_entry::history::History;
use fc_entry::stop::Stop;

/// Takes the carriage return off a line's end, if it has one.
fn take_return(line: &mut Vec<u8>)
    ensures { line.new.items ≡ without_return line.old.items }
{
    let len = line.len();
    if len > 0 && line[len - 1] == b'\r' {
        line.truncate(len - 1);
    }
}

/// Feeds one byte: a newline ends the line at hand, which is answered; any other byte joins it.
fn feed_byte<A: Answers>(
    byte: u8,
    line: &mut Vec<u8>,
    answers: &mut A,
    history: &mut History,
) -> Result<(), Stop>
    requires { CanFeed (A.runs answers.old) line.old.items history.old }
    ensures fed { Feeds result (A.runs answers.old) (A.runs answers.new) (byte ∷ []) line.old.items line.new.items history.old history.new }
    ensures named { HasNames history.old → HasNames history.new }
    ensures grows { GrowsTo history.old history.new }
    ensures limit { length history.new.entries ≤ 262144 }
{
    if byte != b'\n' {
        return match line.push(byte) {
            Ok(()) => Ok(()),
            Err(_) => Err(Stop::NoMemory),
        };
    }
    take_return(line);
    match answers.line(line.as_slice(), history) {
        Ok(()) => {
            line.clear();
            Ok(())
        }
        Err(stop) => Err(stop),
    }
}

/// Feeds bytes, one after the other, up to the first stop.
pub fn feed<A: Answers>(
    piece: &[u8],
    line: &mut Vec<u8>,
    answers: &mut A,
    history: &mut History,
) -> Result<(), Stop>
    requires { CanFeed (A.runs answers.old) line.old.items history.old }
    ensures fed { Feeds result (A.runs answers.old) (A.runs answers.new) piece.now line.old.items line.new.items history.old history.new }
    ensures named { HasNames history.old → HasNames history.new }
    ensures grows { GrowsTo history.old history.new }
    ensures limit { length history.new.entries ≤ 262144 }
{
    for byte in piece {
        match feed_byte(*byte, line, answers, history) {
            Ok(()) => {}
            Err(stop) => return Err(stop),
        }
    }
    Ok(())
}

/// Answers the line that the end of input ends, if any byte of it is there.
pub fn answer_last<A: Answers>(
    line: &[u8],
    answers: &mut A,
    history: &mut History,
) -> Result<(), Stop>
    requires stands { (start : A.Start) × (bytes : List ℕ) × Progress (A.runs answers.old start) bytes line.now history.old }
    requires room { length history.old.entries ≤ 262144 }
    ensures ends { (start : A.Start) (bytes : List ℕ) → Progress (A.runs answers.old start) bytes line.now history.old
        → LinesEnd result (A.runs answers.new start) (all_lines bytes) history.new }
    ensures named { HasNames history.old → HasNames history.new }
    ensures grows { GrowsTo history.old history.new }
    ensures limit { length history.new.entries ≤ 262144 }
{
    if line.is_empty() {
        return Ok(());
    }
    answers.line(line, history)
}
