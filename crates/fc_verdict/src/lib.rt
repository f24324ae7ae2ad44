//! The verdict on a trace, put into a sink: what `flashcopy check` does.
//!
//! `run_check` (in `check`) has `fc_check` judge the bytes of a source, a trace alone or with the session behind it, writes the line of
//! the verdict and sends it on. How such a call ends is in `specs/CheckEnds`: the verdict is right of the bytes that were taken, the
//! sink got its line, or a front of it where a call of the sink failed, or nothing is said of the trace and nothing written; and the
//! status tells which.
#![tactic(auto)]

pub mod check;
