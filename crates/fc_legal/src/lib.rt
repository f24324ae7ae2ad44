//! When a history is legal: each entry answers as it may after what the entries before it tell. There is no code here.
//!
//! What a history tells (`specs/Whole`) is the books that decide commands (`fc_books`), what plain volumes hold
//! (`fc_entry`), and for each lane the faults and calls of its disks. A command is decided by the books, and plain
//! volumes follow its effects; a read, write, copy or cleaning answers by all chains and all plain volumes, as in a lane
//! that has every grain (`fc_rules`). A history is a run of lines and blocks (`fc_blocks`) where each line's entries are
//! what it asks, and those of a block what its actors ask, in any order among them. What a line asks behind its last request,
//! its seconds or the next line of a preset, goes by what that was answered.
//!
//! In reading order, all in `specs/`: `Whole` (with the part of it that is one lane's), `Steps` (one entry), `Legal`,
//! `Presets` (the lines that a preset stands for), `Asked` (what a line asks), `Scripts` (what the actors of a block ask),
//! `Seconds`, `Agenda` (what is still to be asked), `Run`, `WithoutBlocks`, and `Added` (what an answer leaves).
#![tactic(auto)]
