//! Actors who do tasks in a yard, beside each other.
//!
//! An actor has a script, of which it does one request after another: it takes the part of the yard that the request needs, or
//! all parts, does the request, has a number drawn for the entry that tells of it, and puts the parts back. What requests
//! are, and what they do to parts, is said by `Script` alone.
//!
//! To read: `script` (what a script says of itself), `gate`, `actor` (one actor), `beside` (all of them, each on a thread of its
//! own where one can be made); in `specs/`: `Tasks` (what a request owes), `Acting` (what an actor has done).
#![tactic(auto)]

pub mod actor;
pub mod beside;
pub mod gate;
pub mod script;
mod turns;
