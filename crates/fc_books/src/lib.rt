//! How every command is decided: the definitions that the contracts of the control part and of the store cite.
//! There is no code here.
//!
//! The books (`specs/Books`) are all that decides: the tables of volumes, mappings and groups, the chains of copies
//! at all grains, which mappings have background work, and the disks left. A command first settles them, and then is
//! refused for the first reason that holds, or done. What is decided is a `fc_base` `Decision`: the reply, the effects that
//! the history tells, the events that lanes are told, and the changes of the tables. The books after it follow from the
//! events and changes alone, so who believes a decision believes all.
//!
//! In reading order, all in `specs/`: `Books`, `After` (what is left after a decision), `Copies` (what a mapping's copy
//! holds, who needs it and who depends on it), `Accesses`, `Groups`; `Ending` and `Settling` (how copies end), `Stopping`,
//! `Starting`, `Making` (what each command does); `Refused`, `RefusedStarts` (the first refusal of each);
//! `Work` (background work); `Layout`, `Columns` and `Reports` (what reports tell); `Deciding` (all together), and `Sound`
//! (what holds of all books that are reached).
#![tactic(auto)]
