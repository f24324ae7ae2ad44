//! What a line is read as: `blank`, a command or another line in its canonical form, or the fault as the manual words
//! it.

use fc_base::command::{Line, Role, Scope};
use fc_base::name::Name;
use fc_words::line::read_line;
use fc_words::refused::WordRefused;
use std::alloc::{AllocError, Global};
use tables::wording::{command_text, fault_text, role_text};

/// What a line in the scope is read as.
pub fn answer_of(alloc: Global, scope: Scope, line: &[u8]) -> Result<Vec<u8>, AllocError> {
    match read_line(alloc, line, scope) {
        Ok(line) => line_text(alloc, line),
        Err(WordRefused::Fault(fault)) => Ok(fault_text(alloc, fault)?.into_bytes()),
        Err(WordRefused::NoMemory) => Err(AllocError),
    }
}

/// Whether the canonical form of a line outside a block is read as itself, if it is one of a command.
pub fn is_read_back(alloc: Global, canonical: &[u8]) -> Result<bool, AllocError> {
    match read_line(alloc, canonical, Scope::Free) {
        Ok(Line::Command(command)) => {
            let text = command_text(alloc, &command)?;
            Ok(text.as_slice() == canonical)
        }
        _ => Ok(true),
    }
}

/// A line in its canonical form.
fn line_text(alloc: Global, line: Line) -> Result<Vec<u8>, AllocError> {
    match line {
        Line::Blank => Vec::from_slice(alloc, b"blank"),
        Line::Command(command) => command_text(alloc, &command),
        Line::Together => Vec::from_slice(alloc, b"together"),
        Line::Actor { name, role } => actor_text(alloc, &name, role),
        Line::End => Vec::from_slice(alloc, b"end"),
    }
}

/// The canonical form of an `actor` line.
fn actor_text(alloc: Global, name: &Name, role: Role) -> Result<Vec<u8>, AllocError> {
    let mut text = Vec::from_slice(alloc, b"actor ")?;
    text.extend_from_slice(name.as_bytes())?;
    text.push(b' ')?;
    text.extend_from_slice(role_text(alloc, role)?.as_bytes())?;
    Ok(text)
}
