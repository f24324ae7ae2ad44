//! What a command leaves on all disks, and what a stop in it finds.
//!
//! A command is done in memory, and metadata is made anew as one image (`specs/Law`). Until that stands, the disks have the names that
//! they had; behind it those of the volumes that are left (`specs/Lanes`: what lanes hold before and behind it).
#![tactic(auto)]

ghost use Rattle.law_commanded.specs.Law.{CommandedLaw};

/// The law of commands on disks. It does nothing; a caller learns the law.
pub fn commanded_law()
    ensures { CommandedLaw }
{}
