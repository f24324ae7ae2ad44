//! Why a drawing wasn't put.

use fc_base::outcome::{Failed, NoMemory};
use fc_drawing::canvas::NotDrawn;

/// What a call that takes memory answered.
pub(crate) fn of_memory<T>(taken: Result<T, NoMemory>) -> Result<T, NotDrawn> {
    match taken {
        Ok(value) => Ok(value),
        Err(_) => Err(NotDrawn::NoMemory),
    }
}

/// What a sink answered.
pub(crate) fn of_sink(put: Result<(), Failed>) -> Result<(), NotDrawn> {
    match put {
        Ok(()) => Ok(()),
        Err(_) => Err(NotDrawn::WriteFault),
    }
}
