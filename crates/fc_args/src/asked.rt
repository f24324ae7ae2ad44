//! What the words of the program ask for.

use fc_base::size::GrainSize;

/// What a session is run with.
#[derive(Clone, Copy)]
pub struct RunOptions {
    /// The size of its grains: `--grain`, and 256 KiB without it.
    pub grain: GrainSize,
    /// Whether its history is written as a trace: `--trace`.
    pub trace: bool,
    /// How many parts a write cache holds before its volumes, 1 to 1,024: `--cache`. None is no cache. There is none where
    /// the history is written as a trace.
    pub cache: Option<u32>,
}

/// What the words of the program ask for.
#[derive(Clone, Copy)]
pub enum Asked {
    /// A session that is read.
    Run(RunOptions),
    /// The generated session of this number.
    Drill(u64),
    /// A trace that is read and checked.
    Check,
    /// A session that is stopped at this call of its metadata disk, from 1 on.
    Stop(u32),
}
