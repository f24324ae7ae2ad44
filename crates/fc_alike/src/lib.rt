//! The law of following: slots that begin with their restart sets show what plain volumes hold.
//!
//! A lane that follows its incremental mappings (`fc_follow`) keeps rows whose grains both volumes of a mapping show alike.
//! The law says that this is so with no rows, and stays so at every event that fits and every entry; and that the new slots of
//! a trigger may begin with the grains of their rows: the chains stay sound, and with what is stored they show what plain
//! volumes hold. It also says how code begins a new slot, by moves in place, grain after grain.
//!
//! To read: `specs/Law`, what is said; then `proofs/`. `Sets` (sets of grains), `Slots` (slots that stay but for what they hold),
//! `Holding` (a slot begins: the chains stay sound, and show what they did), `Keeping` (by moves in place) and `Starting` (the new
//! slots of a trigger) are about chains; `Rows`, `Leaving` and `Triggers` about rows, by what plain volumes hold. `Matching` has
//! both meet, at a trigger; `Entries` has entries, and `Lawful` all together.
#![tactic(auto)]

ghost use Rattle.fc_alike.specs.Law.{FollowLaw};

/// The law. It does nothing; a caller learns the law.
pub fn follow_law()
    ensures { FollowLaw }
{}
