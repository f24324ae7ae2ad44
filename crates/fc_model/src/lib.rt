//! The chains of copies as a plain list of slots: the definitions, as a program.
//!
//! A `PlainSheet` is seen as the whole sheet of slots (`fc_base`, `specs/Sheet`), and each call is its
//! definition there, word for word: `step` is `sheet_step`, `moved`, `written` and `torn` are those of
//! `specs/SheetStep`; `holder`, `needer`, `fill_moves` and `write_moves` are those of `specs/Column`, `specs/Moves`
//! and `specs/Plan`; `is_needed` and `dependents` are those of `specs/Need`; `is_used` and `has_loop` those of
//! `specs/RestoreGraph`. It takes any sheet, also one that no command leads to. Tests compare the chains of
//! a lane with it, so it is made to be seen through and not to be fast: it looks at every slot for each
//! answer, and takes memory for most.
//!
//! The slots, and what holds, needs and moves are among them, stand below, in `model_slots`. To read: `hold`, `sheet` and
//! `step` (what changes), `graph` (loops), and `ask`, which has the questions.
#![tactic(auto)]

mod ask;
mod graph;
mod hold;
mod sheet;
mod step;

pub use sheet::PlainSheet;
