//! A thin disk in memory.

use crate::armed::ArmedDisk;
use crate::thin_grains::ThinGrains;

/// A thin disk. Only grains that were written occupy memory, so the first write of a grain may find none. A read or
/// write fails only where a fault was armed.
pub type ThinDisk = ArmedDisk<ThinGrains>;
