//! The lines of a session's bytes.

/// The lines, one after the other: each ends with a newline, or with a carriage return and a newline, or where the bytes end.
#[derive(Drop)]
pub(crate) struct Lines<'a> {
    rest: &'a [u8],
}

impl<'a> Lines<'a> {
    /// The lines of these bytes.
    pub(crate) fn of(bytes: &'a [u8]) -> Lines<'a> {
        Lines { rest: bytes }
    }

    /// The next line, without its end. None behind the last.
    pub(crate) fn next_line(&mut self) -> Option<&'a [u8]> {
        let rest = self.rest;
        if rest.is_empty() {
            return None;
        }
        match rest.iter().position(|byte| *byte == b'\n') {
            Some(end) if end < rest.len() => {
                self.rest = &rest[end + 1..];
                Some(without_return(&rest[..end]))
            }
            _ => {
                self.rest = &[];
                Some(rest)
            }
        }
    }
}

/// A line without the carriage return at its end, if it has one.
fn without_return(line: &[u8]) -> &[u8] {
    match line {
        [front @ .., b'\r'] => front,
        _ => line,
    }
}
