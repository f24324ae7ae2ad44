//! The rows of the table: `scope | line | answer`.
//!
//! Blanks around each part aren't part of it. A line and an answer are written as `tables` says.

use crate::words::answers::{answer_of, is_read_back};
use fc_base::command::Scope;
use std::alloc::{AllocError, Global};
use tables::rows::{TableRow, three_parts};
use tables::written::bytes_of;

/// A row of the table.
#[derive(Drop)]
pub struct Row {
    /// Where the line stands.
    scope: Scope,
    /// The bytes of the line, without its end.
    line: Vec<u8>,
    /// What the line is read as.
    answer: Vec<u8>,
}

/// The scope of this name.
fn scope_of(name: &str) -> Option<Scope> {
    match name {
        "free" => Some(Scope::Free),
        "host" => Some(Scope::Host),
        "admin" => Some(Scope::Admin),
        "worker" => Some(Scope::Worker),
        "noactor" => Some(Scope::NoActor),
        _ => None,
    }
}

impl TableRow for Row {
    fn of(alloc: Global, text: &str) -> Result<Option<Row>, AllocError> {
        let Some((scope, line, answer)) = three_parts(text) else {
            return Ok(None);
        };
        let (Some(scope), Some(line), Some(answer)) = (
            scope_of(scope.trim()),
            bytes_of(alloc, line)?,
            bytes_of(alloc, answer)?,
        ) else {
            return Ok(None);
        };
        Ok(Some(Row {
            scope,
            line,
            answer,
        }))
    }

    fn differing(&self, alloc: Global) -> Result<Option<String>, AllocError> {
        let answer = answer_of(alloc, self.scope, self.line.as_slice())?;
        if answer.as_slice() != self.answer.as_slice() {
            return Ok(Some(String::from_utf8_lossy(alloc, answer.as_slice())?));
        }
        if !is_read_back(alloc, answer.as_slice())? {
            return Ok(Some(String::from_str(alloc, "isn't read back")?));
        }
        Ok(None)
    }
}
