//! Judges the history of a session, blocks of actors among its lines: whether it is one of those that may come.
//!
//! Actors who come in another order give another history, so the history of a session with blocks can't be compared with one
//! that was worked out. `judge` walks it beside the session's lines. Each entry must be the next of whose turn it is: outside
//! of blocks `main`'s, and in a block that of any of its actors, each in its own order. A read must give what plain
//! volumes (`fc_plain`) hold after the entries before it, and a start must trigger its mappings, all at once, as a small table of
//! what was made has them. In place of a preset stand its lines, each asked by what the one before it was answered. There are no
//! chains, bitmaps, lanes or disks here: which grains are moved, how a command is decided and whether a disk fails is taken as it
//! is told.
//!
//! In reading order: `verdict` (what is judged, and why not), `lines` (the lines of a session's bytes), `table` and `made` (what
//! was made, by id and by name), `asked` (what lines and workers ask), `preset` (the lines of a preset), `place`, `replies` and `effects` (of
//! one entry), `walk` (the entries one after the other), `block` (the same in a block), and `judging`.
#![tactic(auto)]

mod asked;
mod block;
mod effects;
mod judging;
mod lines;
mod made;
mod place;
mod preset;
mod replies;
mod table;
mod verdict;
mod walk;

pub use judging::judge;
pub use verdict::{Verdict, Why};
