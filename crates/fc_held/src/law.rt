//! What holds of the disks that lanes hold.

ghost use Rattle.fc_held.specs.Law.{HeldLaw};

/// The law of the disks that lanes hold. It does nothing; a caller learns the law.
pub fn held_law()
    ensures { HeldLaw }
{}
