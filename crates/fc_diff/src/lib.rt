//! Changed grains: what an incremental mapping that starts again needn't copy.
//!
//! A lane tells `Changes` what happens to the volumes of its incremental mappings: triggers, writes, the leaving of copies
//! with the grains that they held, and cuts. `Changes` has a row for each mapping from its first trigger on, with the grains
//! at which its two volumes show the same (`fc_changed`, `specs/Row`). It promises:
//! - each call does to the rows exactly what `after_note` says of its note;
//! - so the grains of a row are the restart set over all that was ever noted (`fc_changed`, `specs/Changed`), by the law
//!   (`specs/Law`);
//! - only `make_ready` takes memory, and refused it changes nothing: a mapping that stands ready is followed without memory;
//! - a note reaches the mappings that name its volume alone, by hash look-ups; of all grains it sets or clears whole
//!   words, and a count is of words.
//!
//! To read: `specs/State`, what is kept, and what a trigger does to it; `specs/Law`; then `changes` (the calls), `table` (the
//! rows and how they are found), `tracked` (one mapping), `namers` (which mappings name a volume).
#![tactic(auto)]

ghost use Rattle.fc_diff.specs.Law.{RestartLaw};

mod changes;
mod namers;
mod table;
mod tracked;

pub use changes::Changes;
pub use tracked::Tracked;

/// The law of restart sets. It does nothing; a caller learns the law.
pub fn restart_law()
    ensures { RestartLaw }
{}
