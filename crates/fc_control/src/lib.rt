//! Every command decided, by the control part and by what it asks of the chains.
//!
//! `decide` decides all commands but `read`, `write` and `mkpreset`: exactly as `decide` of `fc_books/specs/Deciding.antt` does.
//! What a start decides also names the loop of restores that it found. The control part itself is `Control` of `fc_desk`, with
//! `settle`, `reserve` and `apply`.
#![tactic(auto)]

mod dispatch;

pub use dispatch::decide;
pub use fc_desk::{Control, has_cleans, has_copies};
