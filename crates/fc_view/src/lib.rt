//! A trace, viewed: the chains of copies behind each entry, why reads give their bytes, and what was moved for whom.
//!
//! `view` takes a trace (docs/TRACE.md) from a source, follows its entries as a judge does (`fc_check`), and has what each did drawn on
//! a canvas (`fc_drawing`). A trace that isn't right is drawn up to its first wrong entry, and one that is malformed up to the entry that
//! can't be read. What is drawn is that of the definitions: `specs/Drawings` says of each entry what its drawing is, and `specs/Views`
//! which are drawn, and what is said at the end. The text is a canvas's own affair (`fc_drawing_text`).
//!
//! To read: `specs/Drawings` and `specs/Views`; then `stop` (how a view may end), `behind` (what is known behind the entries so far),
//! `steps` (one entry more), `draw` (one entry drawn), and `view`.
#![tactic(auto)]

pub mod behind;
mod draw;
mod steps;
pub mod stop;
pub mod view;
