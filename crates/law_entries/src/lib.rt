//! The law of entries: in a lane it doesn't count which number an entry has, and who asked.
//!
//! An entry is right in a lane where it answers as the lane's past lets it (`fc_rules`). The law says that it is right there with
//! any number and by any actor. So entries may be numbered, and their actors named, after the lane has answered.
//!
//! To read: `specs/Law`, what is said. The lemma is one of `fc_parts`.
#![tactic(auto)]

ghost use Rattle.law_entries.specs.Law.{EntriesLaw};

/// The law of entries. It does nothing; a caller learns the law.
pub fn entries_law()
    ensures { EntriesLaw }
{}
