//! One lane of the store: its calls, each with the entry that it hands out.
//!
//! A lane is its chains (`fc_chain`), the physical grains of its volumes (`fc_grains`), how hosts may reach each
//! volume, the background work (`fc_pick`), and the changed grains of incremental mappings (`fc_diff`). What an access
//! or a copy of one grain does to them is `fc_steps`, what an event of a command does is `fc_apply`. `specs/Lane` says what
//! contracts see of a lane and when it stands for what is told (`fc_rules`, `specs/LaneTold`) and follows its incremental
//! mappings (`fc_follow`), `specs/Entering` what an entry leaves, `specs/Turns` which grain a worker's turn takes,
//! `specs/Workers` what copiers and cleaners do, `specs/Applying` what an event needs and leaves, and `specs/Doing` what holds
//! between the steps of an entry.
//!
//! In reading order: `lane`, `ending` (the entry of steps that ended), and the calls of `Lane`, by file: `new` (a lane
//! begins), `rooms` (memory for the next entry), `events` (a command), `following` (reads, writes, copies, cleanings and
//! background work, with what each entry changes for incremental mappings), what it stands on, `read`, `write`, `worker`
//! (copiers and cleaners), `fill` (copies and cleanings) and `turn` (background work), `doing` (writes, copies, cleanings and
//! turns by single steps), and `asking` (what a lane answers of itself).
#![tactic(auto)]

mod asking;
pub mod doing;
mod ending;
mod events;
mod fill;
mod following;
pub mod lane;
mod new;
mod read;
mod rooms;
mod turn;
pub mod worker;
mod write;
