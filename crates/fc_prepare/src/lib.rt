//! The scripts of a block's actors, made before the first of them begins.
//!
//! No line of a block asks to make or remove a volume (`law_volumes`), so what an actor asks is fixed when the block begins: each
//! access goes by the grains that it touches, or is refused; commands and faults stand for themselves.
//!
//! To read: `items` (what a line asks, and the lines of an actor), `scripts` (of one actor, and of all); in `specs/`: `Items`,
//! `Scripts`.
#![tactic(auto)]

pub mod items;
pub mod scripts;
