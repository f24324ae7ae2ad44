//! A history is judged.

use crate::block::walk_block;
use crate::lines::Lines;
use crate::verdict::{Halt, Verdict, Why};
use crate::walk::Walk;
use fc_base::outcome::NoMemory;
use fc_base::size::GrainSize;
use fc_blocks::block::Taken;
use fc_blocks::reader::BlockReader;
use fc_entry::history::History;
use std::alloc::Global;

/// Walks the lines and blocks of a session beside the history, and counts in `segment` those that are answered.
fn walk_session(walk: &mut Walk, session: &[u8], segment: &mut usize) -> Result<(), Halt> {
    let mut reader = BlockReader::new();
    let mut lines = Lines::of(session);
    for _ in 0..session.len() {
        let Some(line) = lines.next_line() else {
            break;
        };
        match reader.read(walk.alloc, line)? {
            Taken::Nothing => continue,
            Taken::Single(line) => walk.line(&line)?,
            Taken::Block(block) => walk_block(walk, &block)?,
        }
        *segment = segment.saturating_add(1);
    }
    Ok(())
}

/// The history has nothing behind the session, and its actors' names.
fn ends(walk: &Walk) -> Result<(), Halt> {
    if walk.left() > 0 {
        Err(Halt::Wrong(Why::NothingAsked))
    } else if !walk.are_named() {
        Err(Halt::Wrong(Why::Names))
    } else {
        Ok(())
    }
}

/// Judges the history of a session at this grain size: whether it is right, a first part that is right, or where it isn't. A block
/// that is open at the session's end asks nothing. Refused where memory is wanted to judge.
pub fn judge(
    alloc: Global,
    grain: GrainSize,
    session: &[u8],
    history: &History,
) -> Result<Verdict, NoMemory> {
    let mut walk = Walk::new(alloc, grain, history)?;
    let mut segment = 0;
    let walked = match walk_session(&mut walk, session, &mut segment) {
        Ok(()) => ends(&walk),
        Err(halt) => Err(halt),
    };
    match walked {
        Ok(()) => Ok(Verdict::Right),
        Err(Halt::Short) => Ok(Verdict::FirstPart { segment }),
        Err(Halt::Wrong(why)) => Ok(Verdict::Wrong {
            entry: walk.place(),
            why,
        }),
        Err(Halt::NoMemory) => Err(NoMemory),
    }
}
