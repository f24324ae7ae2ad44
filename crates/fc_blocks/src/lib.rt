//! The reader of blocks: a session's lines, cut into single lines and blocks of actors.
//!
//! `BlockReader` takes the lines one after the other, and says of each what it was: a line outside of blocks, nothing yet,
//! or the end of a block, with what `main` is told of it and its actors with their lines. Whatever the lines are, that is
//! exactly what `cut` of `specs/Segments` makes of them. Nothing is left open but want of memory, after which the reader is
//! as it was before the line. Each line is read as it comes, where it stands, and no line is kept but as what it was read.
//!
//! In reading order: `block` (what is read), `actor_line` (the name on an `actor` line, also where the rest of it is
//! faulty), `open_block` (whose each line of a block is), `reader`; and the definitions in `specs/`: `ActorLines`, `Blocks`,
//! `Segments`, `Reading`.
#![tactic(auto)]

mod actor_line;
pub mod block;
mod open_block;
pub mod reader;
