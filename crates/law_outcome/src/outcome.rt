//! The theorem of one outcome.

ghost use Rattle.law_outcome.specs.OneOutcome.{OutcomeLaw};

/// Two calls of the program that ask for the same over disks of the same kinds and the same bytes, which end in one way, and in
/// which nothing failed, have one outcome. It does nothing; a caller learns the law.
pub fn outcome_law()
    ensures { OutcomeLaw }
{}
