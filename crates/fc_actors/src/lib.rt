//! The scripts of a block's actors: hosts, administrators, copiers and cleaners, over the parts of
//! a store.
//!
//! While a block is run, the store is taken apart, and its parts lie in a yard (`fc_yard`): the
//! control part first, and then the lanes. Each actor has a script, made of its lines before the
//! first of them begins (`fc_prepare`), since no line of a block makes or removes a volume. The
//! actor does request after request (`fc_tasks`): an access or a worker's turn in the lane of its
//! grain, a refused access or an unread line under the control part, a command with all parts. At
//! the end the store is put together, and what the actors were answered goes into the history by
//! number (`fc_merge`).
//!
//! To read, in `specs/`: `Shares` (what parts say of the whole), `Spans` (an access, grain by
//! grain), `Scripts` (what is left of a script, and when it suits a store); then `part`, `script`,
//! `whole`, `task`.
#![tactic(auto)]

pub mod gate;
mod making;
pub mod part;
pub mod script;
pub mod span;
mod task;
mod whole;
