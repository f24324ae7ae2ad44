//! What mappings make of groups and volumes: the state of a group, which mappings may be triggered at once, and how hosts
//! reach a volume.
//!
//! All calls are exact, and take no memory. `group_state` is the state that the group's members give it, by
//! `group_state` of `fc_books/specs/Groups.antt`; `check_trigger` refuses mappings that can't be triggered at once
//! with the first refusal of `trigger_refusal` there: no mapping at all, two with one target, or a volume that is
//! the source of one and the target of another; of several such volumes it tells the one with the least id.
//!
//! `access_in` is `access_in` of `fc_books/specs/Accesses.antt`.
//!
//! In reading order: this file, `state` (the state of a group), `trigger` (the checks) and `access`.
#![tactic(auto)]

mod access;
mod state;
mod trigger;

pub use access::access_in;
pub use state::{group_state, has_state, is_member};
pub use trigger::check_trigger;
