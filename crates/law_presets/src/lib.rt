//! The law of presets: a preset line that wasn't whole leaves no trace.
//!
//! In place of a preset a volume, a mapping and its start are asked, and what undoes the first two where one of them is refused
//! (`fc_legal`). The law says that after a line whose three requests weren't answered by a volume, a mapping and `ok`, all volumes,
//! groups and mappings are those that there were before it, with their names. Mappings that finished are aside, since each of the
//! requests settles; and so is a line in which what undoes another wanted memory. So what undoes is never refused: nothing was
//! copied from the new volume, and no other mapping names it.
//!
//! To read: `specs/Lines` (the line, and how it ends), `Left` (what settlings leave) and `Law`; then `proofs/`: `Lefts` (one settling
//! after another), `Settles` (that a settling does so), `Alone` (a volume from which nothing is copied), `Standing` (the tables while
//! the line goes on), `Decisions` (each of its requests), `Presets`, the law from these parts, and `PresetsExamples`.
#![tactic(auto)]

ghost use Rattle.law_presets.specs.Law.{PresetsLaw};

/// The law of presets. It does nothing; a caller learns the law.
pub fn presets_law()
    ensures { PresetsLaw }
{}
