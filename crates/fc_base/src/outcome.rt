//! The two outcomes that say why a call could not be done.

/// Memory was wanted and not had. What stands after it is said by each call.
#[derive(Clone, Copy, Debug, PartialEq, Eq)]
pub struct NoMemory;

/// A device, a source or a sink failed in this call.
#[derive(Clone, Copy, Debug, PartialEq, Eq)]
pub struct Failed;
