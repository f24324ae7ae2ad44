//! Roles, faults and commands in words.

use fc_base::command::{Command, Role};
use fc_base::fault::{RequiredOption, WordFault};
use fc_entry::command_text::put_command;
use fc_io::mem_sink::MemSink;
use std::alloc::{AllocError, Global};

/// The canonical form of a command.
pub fn command_text(alloc: Global, command: &Command) -> Result<Vec<u8>, AllocError> {
    let mut sink = MemSink::new(alloc, Vec::new(alloc));
    match put_command(command, &mut sink) {
        Ok(()) => Vec::from_slice(alloc, sink.bytes()),
        Err(_) => Err(AllocError),
    }
}

/// A role, as a line of an actor says it.
pub fn role_text(alloc: Global, role: Role) -> Result<String, AllocError> {
    match role {
        Role::Host => format!(in alloc; "host"),
        Role::Admin => format!(in alloc; "admin"),
        Role::Copier(turns) => format!(in alloc; "copier {turns}"),
        Role::Cleaner(turns) => format!(in alloc; "cleaner {turns}"),
    }
}

/// A fault in the manual's words.
pub fn fault_text(alloc: Global, fault: WordFault) -> Result<String, AllocError> {
    match fault {
        WordFault::UnknownCommand => format!(in alloc; "unknown command"),
        WordFault::UnknownOption(word) => format!(in alloc; "unknown option at word {word}"),
        WordFault::MissingOption(option) => {
            let name = option_name(option);
            format!(in alloc; "missing option {name}")
        }
        WordFault::MissingWord(word) => format!(in alloc; "missing word {word}"),
        WordFault::RepeatedOption(word) => format!(in alloc; "option repeated at word {word}"),
        WordFault::BadNumber(word) => format!(in alloc; "bad number at word {word}"),
        WordFault::BadName(word) => format!(in alloc; "bad name at word {word}"),
        WordFault::LongLine => format!(in alloc; "long line"),
        WordFault::NoActor => format!(in alloc; "no actor"),
        WordFault::NotInBlock => format!(in alloc; "not in a block"),
        WordFault::Limit(limit) => format!(in alloc; "limit {limit}"),
    }
}

/// The name of a required option.
fn option_name(option: RequiredOption) -> &'static str {
    match option {
        RequiredOption::Size => "-size",
        RequiredOption::Seconds => "-seconds",
        RequiredOption::Source => "-source",
        RequiredOption::Target => "-target",
        RequiredOption::Preset => "-preset",
    }
}
