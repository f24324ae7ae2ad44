//! A line of a session, read.

ghost use Rattle.std.specs.Prelude.{◌≡◌, Ok};
ghost use Rattle.fc_base.specs.CommandText.{command_text};
ghost use Rattle.fc_base.specs.declared.command.Command.{Command};
ghost use Rattle.fc_words.specs.Answers.{Answers};
ghost use Rattle.fc_words.specs.Canonical.{IsCommand};
ghost use Rattle.fc_words.specs.Lines.{is_prefix, line_of};

use crate::reader::{begins_with_byte, read_named};
use crate::refused::WordRefused;
use crate::words::split_word;
use fc_base::command::{Line, Scope};
use fc_base::fault::WordFault;
use fc_base::limits::MAX_LINE_BYTES;
use std::alloc::Global;

/// Whether the word is `svctask` or `svcinfo`, which are passed over in front of a line.
fn is_prefix_word(word: &[u8]) -> bool
    ensures { result ≡ is_prefix word.now }
{
    word == b"svctask".as_slice() || word == b"svcinfo".as_slice()
}

/// Reads a line that stands in the scope. The line is given without its newline, and without a carriage
/// return directly before that. Answers the line, or its first fault with its word's number. (docs/MANUAL.md,
/// "Lines".)
pub fn read_line(alloc: Global, line: &[u8], scope: Scope) -> Result<Line, WordRefused>
    ensures value { Answers result (line_of scope line.now) }

    // The canonical line of a command is read as the command.
    ensures reads_back { (command : Command) → IsCommand command → line.now ≡ command_text command
        → scope ≡ Scope.Free → Answers result (Ok (Line.Command command)) }
{
    read_in(alloc, line, scope)
}

/// Reads a line that stands in the scope.
fn read_in(alloc: Global, line: &[u8], scope: Scope) -> Result<Line, WordRefused>
    ensures { Answers result (line_of scope line.now) }
{
    if line.len() > MAX_LINE_BYTES {
        return Err(WordRefused::Fault(WordFault::LongLine));
    }
    let Some((first, words)) = split_word(line) else {
        return Ok(Line::Blank);
    };
    if begins_with_byte(b'#', first) {
        return Ok(Line::Blank);
    }
    if is_prefix_word(first) {
        match split_word(words) {
            Some((name, words)) => read_named(alloc, scope, name, 3, words),
            None => Err(WordRefused::Fault(WordFault::UnknownCommand)),
        }
    } else {
        read_named(alloc, scope, first, 2, words)
    }
}
