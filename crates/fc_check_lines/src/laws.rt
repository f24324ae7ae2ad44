//! The law of lines.

ghost use Rattle.fc_check_lines.specs.Law.{LinesLaw};

/// The law of lines: which entry may come next, and where it leads, answers whether entries are a run of a
/// session. It does nothing; a caller learns the law.
pub fn lines_law()
    ensures { LinesLaw }
{}
