//! What a store whose metadata stand on a disk puts there while entries are under way.
//!
//! `putting` puts one record, and folds metadata as it stands where there is no room for it; `marks` are the writes that were begun
//! and count as changed by metadata already; `error` says why a step can't be made.
#![tactic(auto)]

mod error;
mod marks;
mod putting;

pub use error::NotedStop;
pub use marks::{Mark, forget, remember, wants_mark};
pub use putting::{calls_to_put, put_record};
