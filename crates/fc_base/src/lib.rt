//! What every crate of Pelgushan speaks of: ids, names, grain sizes, runs of bytes, commands, requests,
//! replies, states, refusals, effects and lane events, as plain types; and a list type that contracts see
//! as a list. Beside them, in `specs/`, stand the definitions that the contracts of the crates above cite.
//!
//! It promises little by itself: a `Name` is always a name, `Runs` are always canonical and stand for the
//! bytes that they were made of, `Ranges` always rise, and a `List` is its items.
//!
//! In reading order: `outcome`, `list`, `ids`, `limits`, `size`, `name`, `runs`, `ranges`, `state`, `disk`,
//! `fault`, `command`, `behind`, `block`, `request`, `move_plan`, `volume`, `decision`; and the trait `sheet::Sheet`, by which
//! decisions ask the chains of all lanes.
#![tactic(auto)]

pub mod behind;
pub mod block;
pub mod command;
pub mod decision;
pub mod disk;
pub mod fault;
pub mod ids;
pub mod limits;
pub mod list;
pub mod move_plan;
pub mod name;
pub mod outcome;
pub mod ranges;
pub mod request;
pub mod runs;
pub mod sheet;
pub mod size;
pub mod state;
pub mod volume;
