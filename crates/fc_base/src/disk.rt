//! What is said of a disk: its kind, and why a write of it wasn't done.

/// How a disk takes its memory.
#[derive(Clone, Copy, PartialEq, Eq)]
pub enum DiskKind {
    /// All its grains have their memory from the moment that it is formatted.
    Flat,
    /// A grain gets its memory at its first write.
    Thin,
}

/// Why a write of a grain wasn't done.
#[derive(Clone, Copy, Debug, PartialEq, Eq)]
pub enum DiskError {
    /// The disk failed. The grain may hold any bytes.
    Failed,
    /// A thin disk found no memory for the grain. The disk holds what it held.
    NoMemory,
}
