//! A command, printed and read again.

ghost use Rattle.fc_words.specs.Answers.{Answers};
ghost use Rattle.fc_words.specs.Canonical.{IsCommand};
ghost use Rattle.law_lines.specs.Law.{command_in};

use fc_base::command::{Command, Line, Scope};
use fc_base::outcome::Failed;
use fc_entry::command_text::put_command;
use fc_io::mem_sink::MemSink;
use fc_words::line::read_line;
use fc_words::refused::WordRefused;
use std::alloc::Global;

/// Prints the command's canonical line into memory, and reads it in the scope. A command whose parts are in range is answered
/// again where the scope has lines of its kind; elsewhere the answer is the scope's fault: there is no actor yet, or the line does
/// not stand in a block. Where memory is wanted and not had, the answer is `NoMemory`.
pub fn read_back(alloc: Global, command: &Command, scope: Scope) -> Result<Line, WordRefused>
    ensures { IsCommand command.now → Answers result (command_in scope command.now) }
{
    let mut sink = MemSink::new(alloc, Vec::new(alloc));
    match put_command(command, &mut sink) {
        Ok(()) => read_line(alloc, sink.bytes(), scope),
        Err(Failed) => Err(WordRefused::NoMemory),
    }
}
