//! The steps of one entry of a lane: what an access, a copy or a cleaning of one grain does to the chains and to the
//! disks, and what stands where a disk fails in the middle.
//!
//! A `Body` is the chains of a lane (`fc_chain`) with the physical grains of its volumes (`fc_grains`). `specs/Standing`
//! says when they show what plain volumes hold, `specs/Moving` what one move does, `specs/StepsEnd` how far the steps
//! of an entry came and what stands then, `specs/WriteStep` what the write itself does, `specs/UnderWay` what stands between
//! the steps and what each of them stores, and `specs/Reading` what a read leaves. The steps that an entry owes are those of
//! `fc_rules`, `specs/Steps`.
//!
//! In reading order: `stop` (why an entry stopped before its end), `body` (one move of a grain: its slot gets its own copy
//! from its holder), `moves` (one move after the other), `write` (the write after its moves, and whether it can be),
//! `read` (the grain that a volume shows), `work` (the least grain that a copy or a cleaning could fill), `roomy` (a plan
//! of moves that knows its room, so that an entry takes no memory), `ask` (what is asked, and what is answered when
//! the steps ended so), and `stepping` (the steps of an entry by single calls).
#![tactic(auto)]

pub mod ask;
pub mod body;
mod moves;
pub mod read;
pub mod roomy;
pub mod stepping;
pub mod stop;
mod work;
mod write;
