//! Whether a session in which one allocation may have been refused came out as it should.

use crate::sessions::Outcome;
use fc_top::status::Status;
use session_texts::texts::Session;

/// How a line of the text ends that answers want of memory.
const NO_MEMORY: &[u8] = b" -> no memory";

/// How many lines of a text answer want of memory.
pub fn refused_in(text: &[u8]) -> usize {
    let mut refused = 0usize;
    for line in text.split(|byte| *byte == b'\n') {
        if line.ends_with(NO_MEMORY) {
            refused = refused.saturating_add(1);
        }
    }
    refused
}

/// Whether the text is a front of the one that was wanted, or follows it up to a line that answers want of memory.
pub fn follows(written: &[u8], wanted: &[u8]) -> bool {
    let mut wanted_lines = wanted.split(|byte| *byte == b'\n');
    for line in written.split(|byte| *byte == b'\n') {
        match wanted_lines.next() {
            Some(wanted) if line == wanted => {}
            _ => return line.ends_with(NO_MEMORY) || wanted.starts_with(written),
        }
    }
    true
}

/// Whether the session ended as it may: with its whole text where nothing was refused, up to the line that was refused
/// otherwise, and with all its disks but where its status is want of memory. The sink keeps its bytes in memory, so it may be
/// the sink that is refused, and then a front of the text was written.
pub fn is_right(outcome: &Outcome, session: Session, disks: usize) -> bool {
    let written = outcome.written.as_slice();
    if refused_in(written) > 1 || !follows(written, session.text) {
        return false;
    }
    if outcome.status == Status::NoMemory {
        return true;
    }
    if outcome.disks != disks {
        return false;
    }
    if outcome.status == Status::Done {
        return written == session.text || refused_in(written) == 1;
    }
    outcome.status == Status::WriteFault && session.text.starts_with(written)
}
