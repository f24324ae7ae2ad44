//! Why a grain wasn't copied.

use fc_base::disk::DiskError;

/// Why a grain wasn't copied from one volume to another.
#[derive(Clone, Copy, Debug, PartialEq, Eq)]
pub enum CopyError {
    /// The read failed. Nothing was written.
    Read,
    /// The read was done, and the write wasn't, for this reason.
    Write(DiskError),
}
