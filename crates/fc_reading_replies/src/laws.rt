//! The law of replies: each is read back from its line, and no line of a reply begins another.

ghost use Rattle.fc_reading_replies.specs.Laws.{RepliesLaw};

/// The law of replies. It does nothing; a caller learns the law.
pub fn replies_law()
    ensures { RepliesLaw }
{}
