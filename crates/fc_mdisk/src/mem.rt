//! A flat disk in memory.

use crate::armed::ArmedDisk;
use crate::flat::FlatGrains;

/// A flat disk. Its reads and writes take no memory; a read or write fails only where a fault was armed.
pub type MemDisk = ArmedDisk<FlatGrains>;
