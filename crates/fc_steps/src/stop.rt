//! Why an entry stopped before all its steps were done.

use fc_base::request::Torn;

/// Why a step wasn't done.
#[derive(Clone, Copy, PartialEq, Eq)]
pub enum Stop {
    /// A call of a disk failed. A write that failed tore this grain.
    Failed(Option<Torn>),
    /// A thin disk found no memory.
    NoMemory,
}
