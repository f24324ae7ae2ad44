//! The writer of metadata on a disk, and its recovery.
//!
//! A `Meta` owns a disk of two halves (`fc_format` says how bytes stand there) and changes what it stands for in two ways. A
//! **batch** of records is noted behind the closed gate of the last one, and stands once its own gate is open: `note`, `sync`.
//! A **fold** writes a whole image into the other half, behind that half's closed gate, and turns to it: `clear_other`,
//! `fill_other`, `turn`. Whatever is written is synced before the gate in front of it opens, so that a crash at any moment of
//! any call leaves what stood before or what stands after, whole. `put` is a whole batch, `fold` a whole fold; `recover` reads
//! what stands.
//!
//! The contracts say of each call what the disk stands for behind it (`found`), what a crash at each moment in it leaves
//! (`any_moment`), which calls of the disk it makes and when each error comes. Callers are in one of the states of
//! `specs/States.antt`: at rest, with a batch that waits, with the other half cleared, with it filled. `make_all` makes a list
//! of calls; its contract says what a crash leaves behind any of them that come in order (`specs/Order.antt`).
//!
//! To read: `specs/States.antt`, `specs/Answers.antt`, then `meta`, `steps`, `first` (the first image), `recover`, `disk`,
//! `error`; `specs/Order.antt` and `series`; and `specs/Standing.antt`, what a row of bytes keeps at rest and in the middle of
//! a step.
#![tactic(auto)]

mod disk;
mod error;
mod first;
mod meta;
mod recover;
mod series;
mod steps;

pub use error::{MetaError, RecoverError};
pub use meta::Meta;
pub use series::Call;
