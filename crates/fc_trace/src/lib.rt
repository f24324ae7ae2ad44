//! The trace form of a history: beside each entry's text all that it did, so that a program that has the text alone can
//! check the entry.
//!
//! `put_header`, `put_traced`, `put_all_traced` and `put_trace` write exactly that text to a sink, without memory; where a
//! call of the sink fails, a front of the text was written, and they answer so (`fc_entry`'s `Written`). The form is said in
//! docs/TRACE.md.
//!
//! In reading order: `header`, the first line; `trace`, entries and a whole history; then what stands behind an entry's
//! line: `notes`, what it did, with `ranges` of grains.
#![tactic(auto)]

pub mod header;
pub mod notes;
pub mod ranges;
pub mod trace;
