//! The law of entries in traces: each is read back from its text, and what is read next is one.

ghost use Rattle.fc_reading_entries.specs.Laws.{ReadEntriesLaw};

/// The law of entries in traces. It does nothing; a caller learns the law.
pub fn read_entries_law()
    ensures { ReadEntriesLaw }
{}
