//! The law of verdicts.

ghost use Rattle.fc_check.specs.Laws.{VerdictLaw};

/// The law of verdicts: a trace is of one history, and of its bytes one verdict is right. It does nothing; a caller learns the law.
pub fn verdict_law()
    ensures { VerdictLaw }
{}
