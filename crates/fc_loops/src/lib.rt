//! The loop of the restore graph that a trigger would leave, tried on a copy of the slots without what they hold.
//!
//! `copy_rows` makes the copy, `trigger_rows` does the pairs of a trigger to it, and `loop_of_rows` answers the loop, or none exactly
//! where there is none: it begins with the least volume that is on any loop, none from there is shorter, and of those as short
//! none stands before it in dictionary order. All three take memory, and nothing else is refused.
//!
//! To read: `rows` (the copy), `links` (which volumes are joined) and `loops` (the loop among plain numbers). The words are in
//! `specs/`: `Rows`, `Joins`, `Links` and `Routes`.
#![tactic(auto)]

pub mod links;
mod loops;
pub mod rows;
