//! Tables that were made by hand, for the programs that compare what is read with them: what is said once of all tables.
//!
//! In reading order: `rows` (each row of standard input is compared), `written` (what a part of a row stands for), `wording` (roles,
//! faults and commands in words).
#![tactic(auto)]

pub mod rows;
pub mod wording;
pub mod written;
