//! A history, compared with plain volumes.

use fc_base::outcome::NoMemory;
use fc_base::request::{ReadPart, Reply, Request};
use fc_base::runs::Runs;
use fc_base::size::GrainSize;
use fc_entry::entry::Entry;
use fc_entry::history::History;
use fc_plain::{Plain, PlainRead};
use std::alloc::Global;

/// How many reads were compared, how many of them gave something else than plain volumes hold, how many disk faults there
/// were, and whether memory was wanted.
#[derive(Clone, Copy)]
pub struct Compared {
    reads: u32,
    differ: u32,
    faults: u32,
    starved: bool,
}

impl Compared {
    /// Nothing was compared, for want of memory.
    pub fn without_memory() -> Compared {
        Compared {
            reads: 0,
            differ: 0,
            faults: 0,
            starved: true,
        }
    }

    /// What came of it, in words.
    pub fn verdict(&self) -> &'static str {
        if self.starved {
            "memory was wanted"
        } else if self.differ > 0 {
            "some reads differ"
        } else if self.reads < 1000 {
            "too few reads"
        } else if self.faults > 0 {
            "all reads are right, with disk faults among them"
        } else {
            "all reads are right"
        }
    }

    /// One more read, which is right or not.
    fn with_read(self, right: bool) -> Compared {
        Compared {
            reads: self.reads.saturating_add(1),
            differ: self.differ.saturating_add(u32::from(!right)),
            ..self
        }
    }
}

/// Whether the runs are the same.
fn same_runs(first: &Runs, second: &Runs) -> bool {
    first.as_slice() == second.as_slice()
}

/// Whether a read gave what plain volumes hold; None where it gave nothing to compare.
fn is_right(plain: &Plain, part: &ReadPart, reply: &Reply) -> Result<Option<bool>, NoMemory> {
    let held = plain.read(part.volume, part.block, part.count.min(8192))?;
    match (reply, &held) {
        (Reply::Bytes(runs), PlainRead::Bytes(held)) => Ok(Some(same_runs(runs, held))),
        (Reply::Bytes(_), _) => Ok(Some(false)),
        (Reply::MediumError, PlainRead::Lost) => Ok(Some(true)),
        (Reply::MediumError, _) => Ok(Some(false)),
        _ => Ok(None),
    }
}

/// Compares an entry, and then tells it to the plain volumes.
fn compare_entry(plain: &mut Plain, entry: &Entry, so_far: Compared) -> Result<Compared, NoMemory> {
    let mut compared = so_far;
    if let Request::Read(part) = &entry.request {
        match is_right(plain, part, &entry.reply)? {
            Some(right) => compared = compared.with_read(right),
            None => {}
        }
    }
    if let Reply::DiskFault = &entry.reply {
        compared.faults = compared.faults.saturating_add(1);
    }
    plain.apply(entry)?;
    Ok(compared)
}

/// Compares all reads of a history with plain volumes.
pub fn compare(alloc: Global, grain: GrainSize, history: &History) -> Compared {
    let mut plain = Plain::new(alloc, grain);
    let mut compared = Compared {
        reads: 0,
        differ: 0,
        faults: 0,
        starved: false,
    };
    for index in 0..history.len() {
        match compare_entry(&mut plain, history.entry(index), compared) {
            Ok(next) => compared = next,
            Err(NoMemory) => return Compared::without_memory(),
        }
    }
    compared
}
